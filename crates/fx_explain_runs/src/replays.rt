//! What a replayed run leaves undone.
ghost use Rattle.std.specs.Prelude.{◌≡◌, ◌⊎◌, IfErr, OnOk};
ghost use Rattle.fx_base.specs.Device.{IsWriteFault, KeepsGoing};
ghost use Rattle.fx_base.specs.Fault.{IsMemory};
ghost use Rattle.fx_explanation.specs.Explanations.{WritesExplanation};

use crate::left_over::write_undone;
use fx_base::{Fault, Sink, put_text};
use fx_explanation::{Documents, Explanation};
use fx_machine::State;
use std::alloc::Global;

/// Writes in sentences what a run with this last state leaves undone: which crossings remain, the first 20 of them and
/// the number of others; and how many records each cache, each aggregation and each link still has, with the line by
/// which the first of them goes on. Writes nothing for a complete run. The text has no control characters but line
/// feeds.
///
/// Fails with 900 if out of memory, and then nothing is written, and with 902 if a write fails.
pub fn put_refused_replay<S: Sink>(
    alloc: Global,
    documents: &Documents<'_>,
    last: &State<'_>,
    sink: &mut S,
) -> Result<(), Fault>
    ensures ok { OnOk result (WritesExplanation (S.taken sink.old) (S.taken sink.new)) }
    ensures going { OnOk result (KeepsGoing (S.failed sink.old) (S.failed sink.new)) }
    ensures err { IfErr result (λ e. (IsMemory e × (sink.new ≡ sink.old))
        ⊎ IsWriteFault (S.failed sink.new) e) }
{
    let mut out = Explanation::new(alloc);
    write_undone(&mut out, documents, last);
    put_text(sink, out.octets()?)
}
