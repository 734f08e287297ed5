//! Why a document is refused, in sentences.
ghost use Rattle.std.specs.Prelude.{◌≡◌, ◌⊎◌, IfErr, OnOk};
ghost use Rattle.fx_base.specs.Device.{IsWriteFault, KeepsGoing};
ghost use Rattle.fx_base.specs.Fault.{IsMemory};
ghost use Rattle.fx_explanation.specs.Explanations.{WritesExplanation};

use crate::allowed::write_unknown_member;
use crate::counters::{write_counters, write_flow_key};
use crate::cycles::write_cycle_of;
use crate::elements::write_value;
use crate::ends::{
    write_cycle, write_link_ends, write_linked, write_report_end, write_unknown_device,
    write_unknown_name,
};
use crate::entries::write_entries;
use crate::json::write_json;
use crate::kinds::write_kinds;
use crate::layouts::write_layouts;
use crate::members::write_lacking;
use crate::parts::write_list;
use crate::pointers::last_member;
use crate::values::{write_allowed, write_wrong};
use fx_base::{Fault, Place, Sink, put_text, refusals};
use fx_explanation::{Explanation, value_of_document};
use fx_plan::NetworkDocument;
use serde_json::Value;
use std::alloc::Global;

/// Writes which names at a pointer into a network refer to nothing, if the refusal is about that.
fn write_names(out: &mut Explanation, network: &Value, value: &Value, pointer: &str, number: u16) {
    match number {
        refusals::UNKNOWN_NAME => {
            if let Some(name) = value.as_str() {
                write_unknown_name(out, network, pointer, name);
            }
        }
        refusals::UNKNOWN_LINK_END => write_link_ends(out, network, value),
        refusals::LINKED_TWICE => write_linked(out, network, value),
        refusals::UNKNOWN_REPORT_PROCESS => write_report_end(out, network, value),
        _ => {},
    }
}

/// A refused document.
#[derive(Clone, Copy, Drop)]
enum RefusedDocument<'a> {
    /// A network document.
    Network(&'a Value),
    /// A traffic declaration for this network.
    Traffic(&'a Value, &'a NetworkDocument),
}

impl<'a> RefusedDocument<'a> {
    /// Returns the document's value.
    fn document(&self) -> &'a Value {
        match self {
            RefusedDocument::Network(value) | RefusedDocument::Traffic(value, _) => value,
        }
    }
}

/// Returns whether a refusal with this number is about a value, which is then written.
fn is_of_value(number: u16) -> bool {
    matches!(
        number,
        refusals::WRONG_KIND
            | refusals::BAD_VALUE
            | refusals::NAME_TWICE
            | refusals::CACHE_COUNTER_LENGTH
            | refusals::TOTAL_COUNTER
            | refusals::KEY_WITHOUT_AXIS
            | refusals::REPORT_KEY
            | refusals::CLASS_TWICE
            | refusals::TRAFFIC_VALUE
    )
}

/// A refused value: its document, its pointer, and whether the document is a network's.
#[derive(Clone, Copy, Drop)]
struct ValueAt<'a> {
    document: &'a Value,
    pointer: &'a str,
    value: &'a Value,
    is_network: bool,
}

/// Writes the kind of a value and the kind that is expected, or which part of a document was given instead of the
/// document.
fn write_wrong_kind(out: &mut Explanation, at: &ValueAt<'_>) {
    write_kinds(out, at.pointer, at.value, at.is_network);
    write_allowed(out, last_member(at.pointer), at.is_network);
    if let (Value::Array(items), "") = (at.value, at.pointer) {
        write_list(out, items.as_slice(), at.is_network);
    }
}

/// Writes a value that is refused with this number, and what is wrong with it.
fn write_value_at(out: &mut Explanation, at: &ValueAt<'_>, number: u16) {
    write_value(out, at.value);
    match number {
        refusals::TOTAL_COUNTER => out.sentence(
            "it counts since the metering process started; use octetDeltaCount or packetDeltaCount instead",
        ),
        refusals::KEY_WITHOUT_AXIS => write_flow_key(out, at.value),
        refusals::WRONG_KIND => write_wrong_kind(out, at),
        _ => write_wrong(out, at.document, at.pointer, at.value, at.is_network),
    }
}

/// Explains a refusal at a pointer.
fn write_at(out: &mut Explanation, refused: &RefusedDocument<'_>, pointer: &str, number: u16) {
    let document = refused.document();
    let Some(value) = document.pointer(pointer) else {
        return;
    };
    let at = ValueAt {
        document,
        pointer,
        value,
        is_network: matches!(refused, RefusedDocument::Network(_)),
    };
    match number {
        refusals::UNKNOWN_MEMBER => {
            write_unknown_member(out, document, pointer, at.is_network);
        }
        refusals::MISSING_MEMBER => {
            write_lacking(out, value, last_member(pointer), at.is_network);
        }
        refusals::MISSING_COUNTER => write_counters(out, value),
        refusals::TOO_MANY_LAYOUTS => write_layouts(out, value),
        refusals::TOO_MANY_ENTRIES | refusals::TOO_MUCH_TRAFFIC => {
            write_entries(out, pointer, value, at.is_network);
        }
        _ if is_of_value(number) => write_value_at(out, &at, number),
        _ => write_names_at(out, refused, value, pointer, number),
    }
}

/// Explains which names at a pointer refer to nothing.
fn write_names_at(
    out: &mut Explanation,
    refused: &RefusedDocument<'_>,
    value: &Value,
    pointer: &str,
    number: u16,
) {
    match refused {
        RefusedDocument::Network(network) => write_names(out, network, value, pointer, number),
        RefusedDocument::Traffic(_, network) => {
            if let Some(name) = value.as_str() {
                write_unknown_device(out, network.devices.as_slice(), name);
            }
        }
    }
}

/// Explains a refusal of a document that is a JSON text.
fn write_refused(out: &mut Explanation, refused: &RefusedDocument<'_>, fault: &Fault) {
    match (&fault.place, refused) {
        (Place::Text(text), RefusedDocument::Network(network))
            if fault.number == refusals::LINK_CYCLE => {
            write_cycle(out, network, text.as_str());
            write_cycle_of(out, network);
        }
        (Place::None, RefusedDocument::Network(network)) if fault.number == refusals::LINK_CYCLE =>
            {
                write_cycle_of(out, network);
            }
        (Place::Text(text), _) => write_at(out, refused, text.as_str(), fault.number),
        (Place::None, _) => write_at(out, refused, "", fault.number),
        _ => {}
    }
}

/// Explains in sentences why a network document is refused, with 101 to 115 or 201 to 207. For a text that is no JSON,
/// writes the line, the column and the error, or which other file it is. For a part of a document given instead of the
/// document, writes where that part belongs. Otherwise writes, as the number requires: how many entries a list has, or
/// how many different keys there are, and the maximum; which members are missing and which are present; the name that a
/// misspelled member probably means, or the allowed members; a value that isn't allowed, at most 200 octets of its JSON
/// text, with its kind and the expected one, what is wrong with it or with the elements that it names, and the allowed
/// values; which counters a cache lacks; which name refers to nothing, and the existing names; which link leads from
/// the same destination; which collecting processes are on a cycle of links, and the links of one. The text has no
/// control characters but line feeds.
///
/// Fails with 900 if out of memory, and then nothing is written, and with 902 if a write fails.
pub fn put_refused_network<S: Sink>(
    alloc: Global,
    octets: &[u8],
    fault: &Fault,
    sink: &mut S,
) -> Result<(), Fault>
    ensures ok { OnOk result (WritesExplanation (S.taken sink.old) (S.taken sink.new)) }
    ensures going { OnOk result (KeepsGoing (S.failed sink.old) (S.failed sink.new)) }
    ensures err { IfErr result (λ e. (IsMemory e × (sink.new ≡ sink.old))
        ⊎ IsWriteFault (S.failed sink.new) e) }
{
    let mut out = Explanation::new(alloc);
    match value_of_document(&mut out, octets) {
        Some(value) => write_refused(&mut out, &RefusedDocument::Network(&value), fault),
        None => write_json(&mut out, octets, true),
    }
    put_text(sink, out.octets()?)
}

/// Explains in sentences why the traffic declaration of a network is refused, with 101 to 104 or 301 to 305, as
/// [`put_refused_network`] does for a network.
///
/// Fails with 900 if out of memory, and then nothing is written, and with 902 if a write fails.
pub fn put_refused_traffic<S: Sink>(
    alloc: Global,
    octets: &[u8],
    network: &NetworkDocument,
    fault: &Fault,
    sink: &mut S,
) -> Result<(), Fault>
    ensures ok { OnOk result (WritesExplanation (S.taken sink.old) (S.taken sink.new)) }
    ensures going { OnOk result (KeepsGoing (S.failed sink.old) (S.failed sink.new)) }
    ensures err { IfErr result (λ e. (IsMemory e × (sink.new ≡ sink.old))
        ⊎ IsWriteFault (S.failed sink.new) e) }
{
    let mut out = Explanation::new(alloc);
    match value_of_document(&mut out, octets) {
        Some(value) => {
            write_refused(&mut out, &RefusedDocument::Traffic(&value, network), fault)
        }
        None => write_json(&mut out, octets, false),
    }
    put_text(sink, out.octets()?)
}
