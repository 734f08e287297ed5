//! Output of messages to a sink.
ghost use Rattle.std.specs.Prelude.{◌≡◌, ◌≤◌, ◌<◌, List, map, OnOk, IfErr, IfSome, IfNone};
ghost use Rattle.fx_base.specs.Device.{Writes, IsWriteFault, KeepsGoing};
ghost use Rattle.fx_wire.specs.Messages.{front, complete};
ghost use Rattle.fx_wire.specs.Sets.{SetParts, set_parts};
ghost use Rattle.fx_wire.specs.Writing as writing;
ghost use Rattle.fx_wire.specs.declared.header.Header.{Header};

use crate::header::Header;
use crate::set::Set;
use fx_base::{Fault, Sink, put_text};

/// Returns the number of octets of a message with these sets, or none if it exceeds the greatest length of a message:
/// 65,535 (RFC 7011, section 3.1).
pub fn message_length(sets: &[Set<'_>]) -> Option<u16>
    ensures some { IfSome result (λ n. n ≡ writing.message_length (map set_parts sets.now)) }
    ensures none { IfNone result (65535 < writing.message_length (map set_parts sets.now)) }
{
    let mut sum: u16 = 16;
    for set in sets {
        let content = u16::try_from(set.content.len()).ok()?;
        sum = sum.checked_add(4)?.checked_add(content)?;
    }
    Some(sum)
}

/// Writes a version and the length of the whole message.
#[tactic(auto, unfolding(crate::specs::Writing::version_octets))]
fn put_version<S: Sink>(sink: &mut S, length: u16) -> Result<(), Fault>
    ensures ok { OnOk result (Writes (S.taken sink.old) (S.taken sink.new)
        (writing.version_octets length)) }
    ensures going { OnOk result (KeepsGoing (S.failed sink.old) (S.failed sink.new)) }
    ensures err { IfErr result (IsWriteFault (S.failed sink.new)) }
{
    put_text(sink, &10u16.to_be_bytes())?;
    put_text(sink, &length.to_be_bytes())
}

/// Writes the content of a header.
#[tactic(auto, unfolding(crate::specs::Writing::origin_octets))]
fn put_origin<S: Sink>(sink: &mut S, header: &Header) -> Result<(), Fault>
    ensures ok { OnOk result (Writes (S.taken sink.old) (S.taken sink.new)
        (writing.origin_octets header.now)) }
    ensures going { OnOk result (KeepsGoing (S.failed sink.old) (S.failed sink.new)) }
    ensures err { IfErr result (IsWriteFault (S.failed sink.new)) }
{
    put_text(sink, &header.export_time.to_be_bytes())?;
    put_text(sink, &header.sequence_number.to_be_bytes())?;
    put_text(sink, &header.observation_domain.to_be_bytes())
}

/// Writes a set: its id, its length and its content.
#[tactic(auto, unfolding(crate::specs::Writing::set_octets))]
fn put_set<S: Sink>(sink: &mut S, set: &Set<'_>) -> Result<(), Fault>
    requires { writing.set_length (set_parts set.now) ≤ 65535 }
    ensures ok { OnOk result (Writes (S.taken sink.old) (S.taken sink.new)
        (writing.set_octets (set_parts set.now))) }
    ensures going { OnOk result (KeepsGoing (S.failed sink.old) (S.failed sink.new)) }
    ensures err { IfErr result (IsWriteFault (S.failed sink.new)) }
{
    let length = (4 + set.content.len()) as u16;
    put_text(sink, &set.id.to_be_bytes())?;
    put_text(sink, &length.to_be_bytes())?;
    put_text(sink, set.content)
}

/// Writes sets, one after another.
fn put_sets<S: Sink>(sink: &mut S, sets: &[Set<'_>]) -> Result<(), Fault>
    requires { writing.message_length (map set_parts sets.now) ≤ 65535 }
    ensures ok { OnOk result (Writes (S.taken sink.old) (S.taken sink.new)
        (writing.sets_octets (map set_parts sets.now))) }
    ensures going { OnOk result (KeepsGoing (S.failed sink.old) (S.failed sink.new)) }
    ensures err { IfErr result (IsWriteFault (S.failed sink.new)) }
{
    for set in sets {
        put_set(sink, set)?;
    }
    Ok(())
}

/// Writes a message with this header and these sets. The caller must ensure that it isn't too long, so that
/// [`message_length`] returns its length.
///
/// Fails with 902, at no place, if a write fails. How much the sink has taken is then unspecified.
pub fn put_message<S: Sink>(sink: &mut S, header: &Header, sets: &[Set<'_>]) -> Result<(), Fault>
    requires { writing.message_length (map set_parts sets.now) ≤ 65535 }
    ensures ok { OnOk result (Writes (S.taken sink.old) (S.taken sink.new)
        (writing.message_octets header.now (map set_parts sets.now))) }
    ensures going { OnOk result (KeepsGoing (S.failed sink.old) (S.failed sink.new)) }
    ensures err { IfErr result (IsWriteFault (S.failed sink.new)) }
{
    let Some(length) = message_length(sets) else {
        unreachable!()
    };
    put_version(sink, length)?;
    put_origin(sink, header)?;
    put_sets(sink, sets)
}

/// A written message is read back with its header and its sets.
pub fn messages_are_read()
    ensures { (header : Header) (sets : List SetParts) → writing.IsMessage header sets
        → front (writing.message_octets header sets)
        ≡ complete (record { octets = writing.message_length sets; header = header; sets = sets }) }
{}
