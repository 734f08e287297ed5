//! The command that joins certified parts of a network, from octets to octets.
ghost use Rattle.std.specs.Prelude.{◌≡◌, ◌⊎◌, IfOk, IfErr};
ghost use Rattle.fx_base.specs.Device.{IsWriteFault, MayHaveLeft};
ghost use Rattle.fx_base.specs.Fault.{fault_at, IsMemory};
ghost use Rattle.fx_base.specs.declared.fault.Place.TheVariants as places;
ghost use Rattle.fx_base.specs.Refusals.{link_cycle};
ghost use Rattle.fx_checker.specs.Documents.{BothMayHaveLeft, CannotRead};
ghost use Rattle.fx_checker.specs.Outputs.{AnswersWith, FailsBy, Prints};
ghost use Rattle.fx_checker.specs.declared.answer.Answer.TheVariants.{Yes, No};
ghost use Rattle.fx_plan.specs.Tables.{net_of};
ghost use Rattle.fx_join.specs.Joins.{IsAnswered, IsJoinText, IsJoined, IsRefusedJoin, IsUnread};
ghost use Rattle.fx_join.specs.Wholes.{IfBothFaulty, IfWholeFaulty};

use crate::explainer::JoinExplainer;
use crate::joining::join_parts;
use crate::whole::{Whole, read_both};
use fx_base::{Fault, Sink, Source, put_text, refusals};
use fx_checker::{Answer, Unexplained, answer_refusal};
use std::alloc::Global;

/// Joins the parts of a whole, and writes the answer.
fn answer_parts<P: Source, E: JoinExplainer, S: Sink>(
    alloc: Global,
    whole: &Whole,
    parts: &mut P,
    explainer: &mut E,
    sink: &mut S,
) -> Result<Answer, Fault>
    ensures answer { IfOk result (λ answer. (answer ≡ Yes) ⊎ (answer ≡ No)) }
    ensures ok { IfOk result (λ answer. MayHaveLeft (P.left parts.old) (λ p.
        Prints (IsAnswered (net_of whole.now.network) whole.now.traffic p answer)
        (S.taken sink.old) (S.taken sink.new))) }
    ensures err { IfErr result (λ e. IsMemory e
        ⊎ (CannotRead P.left P.calls P.failed parts.old parts.new e
        ⊎ (IsWriteFault (S.failed sink.new) e
        ⊎ ((e ≡ fault_at link_cycle places.None)
        ⊎ MayHaveLeft (P.left parts.old) (λ p. IsUnread (net_of whole.now.network) p e))))) }
    ensures answers { AnswersWith S.taken S.failed IsJoinText sink.old sink.new result }
{
    match join_parts(alloc, whole, parts, explainer) {
        Ok(()) => {
            put_text(sink, b"yes\n")?;
            Ok(Answer::Yes)
        }
        Err(fault) => answer_refusal(
            sink,
            fault,
            refusals::PART_REFUSED,
            refusals::CLASS_NOT_COVERED,
        ),
    }
}

/// Reads the network document and the traffic declaration of a whole network, of any size, and the parts of it, and
/// decides whether the parts certify the whole. If they do, writes the line `yes`: each packet of the traffic is
/// counted exactly once by every complete run of the whole network.
///
/// The parts follow one directly after another. Each is a line `check` and three texts, each followed by a line `%%`:
/// its network document, its traffic declaration and its certificate. They are read one at a time, and only the whole
/// and one part are kept. A part is checked as [`check_bytes`](fx_checker::check_bytes) does; its collecting processes
/// are looked up in the whole by the names of device and process, and its classes by their names.
///
/// Writes `no` with 421 at a part, as `part K`, whose number counts from 1, if a check doesn't accept its documents or
/// its certificate; with 422 at a part whose network is not a part of the whole: a collecting process that the whole
/// doesn't have or that does something else there, or another report; and with 423 at the JSON Pointer of the first
/// class of the whole that no part covers.
///
/// Fails with the first other refusal: for the network, 101 and the errors of [`fx_plan::read_network_within`], and
/// 204, at no place, if its links form a cycle, before any of the traffic is read; for the traffic, 101 and the errors
/// of [`fx_traffic::read_traffic_within`], before any of the parts is read; for the parts, 801 at `part K` if no part
/// is where part K is to begin, also if anything else follows the last part. Fails with 901 if a read fails, a source
/// hasn't ended after 4,294,967,296 calls or a text of a part has 4,294,967,296 octets or more, with 900 if out of
/// memory, and with 902 if a write fails. For faults other than 902 nothing is written, nor is anything before the
/// answer is known.
pub fn join_bytes<N: Source, T: Source, P: Source, S: Sink>(
    alloc: Global,
    network: &mut N,
    traffic: &mut T,
    parts: &mut P,
    sink: &mut S,
) -> Result<Answer, Fault>
    ensures answer { IfOk result (λ answer. (answer ≡ Yes) ⊎ (answer ≡ No)) }
    // Yes: each packet is counted once.
    ensures ok { IfOk result (λ answer.
        BothMayHaveLeft (N.left network.old) (T.left traffic.old) (λ n t.
        MayHaveLeft (P.left parts.old) (λ p.
        Prints (IsJoined n t p answer) (S.taken sink.old) (S.taken sink.new)))) }
    ensures err { IfErr result (FailsBy (CannotRead N.left N.calls N.failed network.old network.new)
        (CannotRead T.left T.calls T.failed traffic.old traffic.new)
        (CannotRead P.left P.calls P.failed parts.old parts.new) (S.failed sink.new)
        (λ e. BothMayHaveLeft (N.left network.old) (T.left traffic.old)
        (λ n t. MayHaveLeft (P.left parts.old) (λ p. IsRefusedJoin n t p e)))) }
    ensures answers { AnswersWith S.taken S.failed IsJoinText sink.old sink.new result }
    ensures order { IfWholeFaulty (N.left network.old) (traffic.new ≡ traffic.old) }
    ensures untouched { IfBothFaulty (N.left network.old) (T.left traffic.old)
        (parts.new ≡ parts.old) }
{
    join_explained(alloc, network, traffic, parts, &mut Unexplained, sink)
}

/// Does what [`join_bytes`] does, and passes what it knows to the explainer.
pub fn join_explained<N: Source, T: Source, P: Source, E: JoinExplainer, S: Sink>(
    alloc: Global,
    network: &mut N,
    traffic: &mut T,
    parts: &mut P,
    explainer: &mut E,
    sink: &mut S,
) -> Result<Answer, Fault>
    ensures answer { IfOk result (λ answer. (answer ≡ Yes) ⊎ (answer ≡ No)) }
    // Yes: each packet is counted once.
    ensures ok { IfOk result (λ answer.
        BothMayHaveLeft (N.left network.old) (T.left traffic.old) (λ n t.
        MayHaveLeft (P.left parts.old) (λ p.
        Prints (IsJoined n t p answer) (S.taken sink.old) (S.taken sink.new)))) }
    ensures err { IfErr result (FailsBy (CannotRead N.left N.calls N.failed network.old network.new)
        (CannotRead T.left T.calls T.failed traffic.old traffic.new)
        (CannotRead P.left P.calls P.failed parts.old parts.new) (S.failed sink.new)
        (λ e. BothMayHaveLeft (N.left network.old) (T.left traffic.old)
        (λ n t. MayHaveLeft (P.left parts.old) (λ p. IsRefusedJoin n t p e)))) }
    ensures answers { AnswersWith S.taken S.failed IsJoinText sink.old sink.new result }
    ensures order { IfWholeFaulty (N.left network.old) (traffic.new ≡ traffic.old) }
    ensures untouched { IfBothFaulty (N.left network.old) (T.left traffic.old)
        (parts.new ≡ parts.old) }
{
    let whole = read_both(alloc, network, traffic, explainer)?;
    answer_parts(alloc, &whole, parts, explainer, sink)
}
