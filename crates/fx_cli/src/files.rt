//! Opens files to read and makes files to write.
ghost use Rattle.std.specs.Prelude.{◌≡◌, IfErr};
ghost use Rattle.fx_base.specs.Fault.{fault_at};
ghost use Rattle.fx_base.specs.Refusals.{failed_read, failed_write};
ghost use Rattle.fx_base.specs.declared.fault.Place.TheVariants as places;

use crate::notes::{Extras, FailedFile};
use fx_base::{Fault, Outside, refusals};
use std::fs;
use std::rt::Files;

/// Opens a file for reading from its beginning.
///
/// Fails with 901, at no place, if it can't be opened, and notes which file it is and why.
pub fn open<R: Files>(rt: &R, path: &str, notes: &mut Extras<'_>) -> Result<Outside<R::File>, Fault>
    ensures { IfErr result (λ e. e ≡ fault_at failed_read places.None) }
{
    match fs::open(rt, path) {
        Ok(file) => Ok(Outside::new(file)),
        Err(error) => {
            notes.failed_file.unopened(path, error);
            Err(Fault::bare(refusals::FAILED_READ))
        }
    }
}

/// Makes a file for writing from its beginning, or empties it if it exists.
///
/// Fails with 902, at no place, if it can't be made, and notes which file it is and why.
pub fn make<R: Files>(
    rt: &R,
    path: &str,
    failed_file: &mut FailedFile,
) -> Result<Outside<R::File>, Fault>
    ensures { IfErr result (λ e. e ≡ fault_at failed_write places.None) }
{
    match fs::File::create(rt, path) {
        Ok(file) => Ok(Outside::new(file)),
        Err(error) => {
            failed_file.unopened(path, error);
            Err(Fault::bare(refusals::FAILED_WRITE))
        }
    }
}
