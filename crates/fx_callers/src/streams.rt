//! The flow records of a stream.
ghost use Rattle.std.specs.Prelude.{◌≡◌, IfOk};
ghost use Rattle.fx_session.specs.Streams.{after_piece, start};

use fx_base::Fault;
use fx_session::Session;
use fx_tables::Record;
use std::alloc::Global;

/// Returns the flow records of an IPFIX stream in memory, in order.
///
/// Fails as [`Session::feed`] does if a message is refused, and with 900 if out of memory.
pub fn records_of(alloc: Global, stream: &[u8]) -> Result<Vec<Record>, Fault>
    ensures { IfOk result (λ records. records.items
        ≡ (after_piece start stream.now).known.waiting) }
{
    let mut session = Session::new(alloc)?;
    session.feed(stream)?;
    let mut records: Vec<Record> = Vec::new(alloc);
    while let Some(record) = session.next_record() {
        records.push(record)?;
    }
    Ok(records)
}
