//! Drawing documents, and a certificate or a refutation of them.
ghost use Rattle.std.specs.Prelude.{◌≡◌, ◌⊎◌, IfErr, OnOk};
ghost use Rattle.fx_base.specs.Device.{IsWriteFault, KeepsGoing};
ghost use Rattle.fx_drawings.specs.Drawings.{WritesDrawing};

use crate::certificates::draw_certificate;
use crate::devices::draw_device;
use crate::documents::{DrawnDocuments, class_number, read_json, with_traffic};
use crate::dot::Dot;
use crate::edges::draw_edges;
use crate::folding::{Folding, fold};
use crate::refutations::{devices_of_run, draw_outcome, draw_refutation};
use crate::traffic::{Classes, draw_traffic};
use fx_base::{Fault, LineReader, Octets, Sink, put_text};
use fx_check::check;
use fx_plan::{Plan, read_plan};
use fx_refute::{Refutation, confirm, read_refutation};
use fx_traffic::Target;
use std::alloc::{AllocError, Global};

/// The beginning of a certificate's text.
const CERTIFICATE: &[u8] = b"once-certificate";

/// Draws the devices of a network, and the edges within and between them.
fn draw_network(dot: &mut Dot, plan: &Plan) -> Result<(), AllocError> {
    dot.line("digraph network {");
    dot.line(
        "  rankdir=LR; node [fontname=\"Helvetica\", fontsize=10]; edge [fontname=\"Helvetica\", fontsize=9];",
    );
    let devices = plan.network().devices.as_slice();
    for index in 0..devices.len() {
        draw_device(dot, plan, index as u64 + 1, &devices[index]);
    }
    for index in 0..devices.len() {
        draw_edges(dot, plan, index as u64 + 1, &devices[index])?;
    }
    Ok(())
}

/// Returns the drawing of a network by itself.
fn drawing_of_network(alloc: Global, plan: &Plan) -> Result<Dot, AllocError> {
    let mut dot = Dot::new(alloc, Folding::none(alloc));
    draw_network(&mut dot, plan)?;
    Ok(dot)
}

/// Returns the drawing of a network and the traffic of these classes over it, in which the devices `apart` are drawn by
/// themselves.
fn drawing_of_traffic(
    alloc: Global,
    documents: &DrawnDocuments,
    targets: &[Target<'_>],
    classes: Classes,
    apart: &[u64],
) -> Result<Dot, AllocError> {
    let mut dot = Dot::new(alloc, fold(alloc, &documents.plan, apart)?);
    draw_network(&mut dot, &documents.plan)?;
    draw_traffic(&mut dot, documents, targets, classes);
    Ok(dot)
}

/// Checks a certificate, and returns its drawing.
fn drawing_of_certificate(
    alloc: Global,
    documents: &DrawnDocuments,
    targets: &[Target<'_>],
    classes: Classes,
    certificate: &[u8],
) -> Result<Dot, Fault> {
    let mut lines = LineReader::new(alloc, Octets::new(certificate))?;
    check(alloc, &documents.plan, &documents.traffic, &mut lines)?;
    let mut dot = drawing_of_traffic(alloc, documents, targets, classes, &[])?;
    draw_certificate(alloc, &mut dot, documents, targets, classes, certificate)?;
    Ok(dot)
}

/// Confirms a refutation, and returns the drawing of its run and the result.
fn drawing_of_run(
    alloc: Global,
    documents: &DrawnDocuments,
    targets: &[Target<'_>],
    classes: Classes,
    refutation: &Refutation,
) -> Result<Dot, Fault> {
    let (ran, plain) = confirm(alloc, &documents.plan, &documents.traffic, refutation)?;
    let apart = devices_of_run(alloc, documents, refutation)?;
    let classes = classes.with_run(refutation.packet().class);
    let mut dot = drawing_of_traffic(alloc, documents, targets, classes, apart.as_slice())?;
    draw_outcome(&mut dot, &documents.plan, ran, plain)?;
    draw_refutation(alloc, &mut dot, documents, refutation)?;
    Ok(dot)
}

/// Reads and confirms a refutation, and returns its drawing.
fn drawing_of_refutation(
    alloc: Global,
    documents: &DrawnDocuments,
    targets: &[Target<'_>],
    classes: Classes,
    text: &[u8],
) -> Result<Dot, Fault> {
    let mut lines = LineReader::new(alloc, Octets::new(text))?;
    let refutation = read_refutation(alloc, &mut lines)?;
    drawing_of_run(alloc, documents, targets, classes, &refutation)
}

/// Returns the classes whose paths are drawn: that of this name, or all if none is given.
fn classes_of(
    alloc: Global,
    documents: &DrawnDocuments,
    name: Option<&str>,
) -> Result<Classes, Fault> {
    match name {
        Some(name) => Ok(Classes::One(class_number(alloc, documents, name)?)),
        None => Ok(Classes::All),
    }
}

/// Returns the drawing of a network and the traffic over it, and of the certificate or refutation of it, if given.
/// Draws the paths of the class of this name alone, if one is given.
fn drawing_over(
    alloc: Global,
    documents: &DrawnDocuments,
    said: Option<&[u8]>,
    class: Option<&str>,
) -> Result<Dot, Fault> {
    let classes = classes_of(alloc, documents, class)?;
    let targets = documents.traffic.targets(alloc)?;
    let targets = targets.as_slice();
    match said {
        Some(text) => {
            if text.starts_with(CERTIFICATE) {
                drawing_of_certificate(alloc, documents, targets, classes, text)
            } else {
                drawing_of_refutation(alloc, documents, targets, classes, text)
            }
        }
        None => Ok(drawing_of_traffic(alloc, documents, targets, classes, &[])?),
    }
}

/// Returns the network that a document describes.
fn plan_of(alloc: Global, network: &[u8]) -> Result<Plan, Fault> {
    let value = read_json(alloc, network)?;
    read_plan(alloc, &value)
}

/// Returns the drawing of a network, of the traffic over it, and of a certificate or a refutation; the latter two are
/// optional.
fn drawing_of(
    alloc: Global,
    network: &[u8],
    traffic: Option<&[u8]>,
    said: Option<&[u8]>,
    class: Option<&str>,
) -> Result<Dot, Fault> {
    let plan = plan_of(alloc, network)?;
    let mut dot = match traffic {
        Some(traffic) => {
            let documents = with_traffic(alloc, plan, traffic)?;
            drawing_over(alloc, &documents, said, class)?
        }
        None => drawing_of_network(alloc, &plan)?,
    };
    dot.line("}");
    Ok(dot)
}

/// Draws the network of a document as a graph in the DOT language of Graphviz: a box for each device, with its
/// observation points, selection processes, caches, collecting processes with aggregations, and exporting processes;
/// the ways of packets and records; destinations without a link in red; and two lines around the collecting process of
/// the report. With a traffic declaration, draws the packets of each path of each class, with the observation points
/// that observe them, and draws three or more devices as one if they are alike but for their names and interfaces and
/// send their records to the same places. With the text of a certificate, draws in green where it says that packets are
/// counted, and the ways of their records up to the report; with that of a refutation, in orange the numbered steps of
/// its run, whose devices are drawn by themselves, and in red the run's totals and the expected ones. The text has no
/// control characters but line feeds.
///
/// Fails with the first refusal: 101 and the errors of [`read_plan`] for the network; then 101 and the errors of
/// [`fx_traffic::read_traffic`] for the traffic; then, for a text that begins with `once-certificate`, the errors of
/// [`check`], and for any other text those of [`read_refutation`] and [`confirm`]. So only what is accepted is drawn.
/// With `class`, draws the paths of the class of this name alone, and that of a run's packet; fails with 107 at
/// `/classes`, before the text is read, if there is none.
/// Fails with 900 if out of memory, and with 902 if a write fails. For faults other than 902 nothing is written.
pub fn put_drawing<S: Sink>(
    alloc: Global,
    network: &[u8],
    traffic: Option<&[u8]>,
    said: Option<&[u8]>,
    class: Option<&str>,
    sink: &mut S,
) -> Result<(), Fault>
    ensures ok { OnOk result (WritesDrawing (S.taken sink.old) (S.taken sink.new)) }
    ensures going { OnOk result (KeepsGoing (S.failed sink.old) (S.failed sink.new)) }
    ensures err { IfErr result (λ e. (sink.new ≡ sink.old) ⊎ IsWriteFault (S.failed sink.new) e) }
{
    let dot = drawing_of(alloc, network, traffic, said, class)?;
    put_text(sink, dot.octets()?)
}
