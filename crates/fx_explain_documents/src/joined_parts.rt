//! What a join of certified parts finds wrong, in sentences.
ghost use Rattle.std.specs.Prelude.{◌≡◌, ◌⊎◌, IfErr, OnOk};
ghost use Rattle.fx_base.specs.Device.{IsWriteFault, KeepsGoing};
ghost use Rattle.fx_base.specs.Fault.{IsMemory};
ghost use Rattle.fx_explanation.specs.Explanations.{WritesExplanation};

use fx_base::{Fault, Name, Place, Sink, put_text};
use fx_explanation::Explanation;
use fx_traffic::Traffic;
use std::alloc::Global;

/// What covers a class.
const COVERS: &str =
    "A part covers a class if it has one of the same name, region and `exempt`, and for each of its paths one on which the \
same selection processes meter the packets, into caches whose records are sent alike";

/// What a join of certified parts finds wrong. Parts are numbered from 1.
#[derive(Clone, Copy, Drop)]
pub enum JoinFinding<'a> {
    /// The text doesn't continue with this part.
    NoPart {
        part: u64,
    },
    /// A check of a part refuses its documents, or its certificate.
    Refused {
        part: u64,
        certificate: bool,
        fault: &'a Fault,
    },
    /// The whole network has no collecting process of these names, which the part has.
    Missing {
        part: u64,
        device: &'a Name,
        process: &'a Name,
    },
    /// The whole network has all collecting processes of the part, but they do something else there, or the report is
    /// another one.
    Different {
        part: u64,
    },
    /// No part covers the class at this 0-based index.
    Uncovered {
        index: usize,
        traffic: &'a Traffic,
    },
}

/// Writes the place of a refusal after its number.
fn write_place(out: &mut Explanation, place: &Place) {
    match place {
        Place::None => {}
        Place::Line(line) => out.text_number(" line ", *line),
        Place::Octet(octet) => out.text_number(" octet ", *octet),
        Place::Text(text) => {
            out.text(" ");
            out.text(text.as_str());
        }
    }
}

/// Writes why a check refuses a part.
fn write_refused_part(out: &mut Explanation, part: u64, certificate: bool, fault: &Fault) {
    out.text_number("part ", part);
    out.text(if certificate {
        ": a check refuses its certificate: "
    } else {
        ": a check refuses its documents: "
    });
    out.number(u64::from(fault.number));
    write_place(out, &fault.place);
    out.end_line();
}

fn write_finding(out: &mut Explanation, finding: &JoinFinding<'_>) {
    match finding {
        JoinFinding::NoPart { part } => {
            out.text_number("part ", *part);
            out.sentence(
                " doesn't begin with a line `check`, or a line `%%` is missing after one of its three texts",
            );
        }
        JoinFinding::Refused {
            part,
            certificate,
            fault,
        } => write_refused_part(out, *part, *certificate, fault),
        JoinFinding::Missing {
            part,
            device,
            process,
        } => {
            out.text_number("part ", *part);
            out.text_quoted(
                ": the whole network has no collecting process ",
                process.as_str(),
            );
            out.text_quoted(" of a device ", device.as_str());
            out.end_line();
        }
        JoinFinding::Different { part } => {
            out.text_number("part ", *part);
            out.sentence(
                ": the whole network has all its collecting processes, but one of them forwards or aggregates otherwise \
there, or the report is another one",
            );
        }
        JoinFinding::Uncovered { index, traffic } => {
            let number = (*index as u64).saturating_add(1);
            out.text_number("class ", number);
            out.text_quoted(" ", traffic.class_name(number).unwrap_or(""));
            out.sentence(" is covered by no part");
            out.sentence(COVERS);
        }
    }
}

/// Writes what a join of certified parts finds wrong, in sentences.
///
/// Fails with 900 if out of memory, and then nothing is written, and with 902 if a write fails.
pub fn put_join_finding<S: Sink>(
    alloc: Global,
    finding: &JoinFinding<'_>,
    sink: &mut S,
) -> Result<(), Fault>
    ensures ok { OnOk result (WritesExplanation (S.taken sink.old) (S.taken sink.new)) }
    ensures going { OnOk result (KeepsGoing (S.failed sink.old) (S.failed sink.new)) }
    ensures err { IfErr result (λ e. (IsMemory e × (sink.new ≡ sink.old))
        ⊎ IsWriteFault (S.failed sink.new) e) }
{
    let mut out = Explanation::new(alloc);
    write_finding(&mut out, finding);
    put_text(sink, out.octets()?)
}
