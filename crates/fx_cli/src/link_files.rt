//! A file for each link.
ghost use Rattle.std.specs.Prelude.{◌≡◌, ◌++◌, IfOk, None, decimal, string_bytes};

use crate::files::make;
use crate::notes::FailedFile;
use fx_base::{Fault, Outside, refusals};
use fx_link::MakeSink;
use itoa::Buffer;
use std::alloc::{AllocError, Global};
use std::rt::Files;

/// Returns the name of a link's file: the prefix, followed by the link's number in decimal.
fn link_path(alloc: Global, prefix: &str, link: u64) -> Result<String, AllocError>
    ensures { IfOk result (λ path. string_bytes path ≡ prefix.now ++ decimal link) }
{
    let mut buffer = Buffer::new();
    let mut path = String::from_str(alloc, prefix)?;
    path.push_str(buffer.format(link))?;
    Ok(path)
}

/// The maker of the links' files. It makes or empties the file of each link, whose name is a prefix followed by the
/// link's 1-based number in decimal, but no file that has exactly the name of one that the run reads. Nothing is
/// specified about what a file has taken.
#[derive(Drop)]
pub struct LinkFiles<'a, R: Files> {
    alloc: Global,
    rt: &'a R,
    prefix: &'a str,
    inputs: &'a [&'a str],
    failed_file: FailedFile,
}

impl<'a, R: Files> LinkFiles<'a, R> {
    /// Returns the maker, given the prefix of the files' names, the names of the files that the run reads, and the note
    /// of a file that fails.
    pub fn new(
        alloc: Global,
        rt: &'a R,
        prefix: &'a str,
        inputs: &'a [&'a str],
        failed_file: FailedFile,
    ) -> LinkFiles<'a, R> {
        LinkFiles {
            alloc,
            rt,
            prefix,
            inputs,
            failed_file,
        }
    }

    /// Returns the note of the file that failed.
    pub fn into_failed_file(self) -> FailedFile
        ensures { result ≡ self.entry.failed_file }
    {
        let LinkFiles {
            alloc: _,
            rt: _,
            prefix: _,
            inputs: _,
            failed_file,
        } = self;
        failed_file
    }

    /// Returns whether the run reads a file of exactly this name.
    fn is_input(&self, path: &str) -> bool {
        self.inputs.contains(&path)
    }
}

impl<'a, R: Files> MakeSink<Outside<R::File>> for LinkFiles<'a, R> {
    ghost begun = { λ _. None };

    fn make(&mut self, link: u64) -> Result<Outside<R::File>, Fault> {
        let path = link_path(self.alloc, self.prefix, link)?;
        if self.is_input(path.as_str()) {
            self.failed_file.read_too(path.as_str());
            return Err(Fault::bare(refusals::FAILED_WRITE));
        }
        make(self.rt, path.as_str(), &mut self.failed_file)
    }

    fn note_failure(&mut self, link: u64) {
        if let Ok(path) = link_path(self.alloc, self.prefix, link) {
            self.failed_file.unwritten(path.as_str());
        }
    }
}
