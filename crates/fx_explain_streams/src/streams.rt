//! Explaining why a message of an IPFIX stream is refused.
ghost use Rattle.std.specs.Prelude.{◌≡◌, ◌⊎◌, IfErr, OnOk};
ghost use Rattle.fx_base.specs.Device.{IsWriteFault, KeepsGoing};
ghost use Rattle.fx_base.specs.Fault.{IsMemory};
ghost use Rattle.fx_explanation.specs.Explanations.{WritesExplanation};

use crate::refused_data::{put_no_template, put_refused_record};
use crate::refused_messages::{put_malformed, put_message};
use crate::refused_templates::put_refused_template;
use crate::stream_watch::{RefusedMessage, StreamWatch};
use fx_base::{Fault, Sink, put_text};
use fx_explanation::Explanation;
use fx_session::StreamFault;
use fx_wire::Malformed;

/// Adds what is wrong with a set of the message.
fn put_refused_set(out: &mut Explanation, watch: &StreamWatch, refused: &RefusedMessage) {
    put_message(out, &refused.message);
    match refused.fault {
        StreamFault::NoTemplate => put_no_template(out, refused, &watch.declarations),
        StreamFault::CutRecord | StreamFault::PrefixLength => {
            if let Some(fields) = &refused.fields {
                put_refused_record(out, refused, fields.as_slice());
            }
        }
        _ => put_refused_template(out, refused, &watch.declarations),
    }
}

/// Returns the explanation of what is wrong with the message at which a stream was refused, if it was.
fn explanation_of(watch: &StreamWatch) -> Explanation {
    let mut out = watch.begin_explanation();
    if let Some(refused) = &watch.refused {
        match refused.fault {
            StreamFault::OutOfMemory => {}
            StreamFault::Malformed(Malformed::Template) => {
                put_refused_set(&mut out, watch, refused);
            }
            StreamFault::Malformed(why) => put_malformed(&mut out, refused, why),
            _ => put_refused_set(&mut out, watch, refused),
        }
    }
    out
}

/// Explains in sentences why a message of an IPFIX stream is refused (611 to 620): its number, the index of its first
/// octet and its observation domain; and what is wrong in it: the first octets, if they are no message of version 10,
/// and what they begin; the set, the template, its field with its element and its length, or the data record. Writes
/// nothing if the stream wasn't refused. The text has no control characters but line feeds.
///
/// Fails with 900, with nothing written, if this or the observer ran out of memory, and with 902 if a write fails.
pub fn put_refused_message<S: Sink>(watch: &StreamWatch, sink: &mut S) -> Result<(), Fault>
    ensures ok { OnOk result (WritesExplanation (S.taken sink.old) (S.taken sink.new)) }
    ensures going { OnOk result (KeepsGoing (S.failed sink.old) (S.failed sink.new)) }
    ensures err { IfErr result (λ e. (IsMemory e × (sink.new ≡ sink.old))
        ⊎ IsWriteFault (S.failed sink.new) e) }
{
    let out = explanation_of(watch);
    put_text(sink, out.octets()?)
}
