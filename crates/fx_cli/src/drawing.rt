//! The command that draws documents.
ghost use Rattle.fx_checker.specs.Outputs.{AnswersWith};
ghost use Rattle.fx_cli.specs.Drawing.{IsDrawingText};

use crate::files::open;
use crate::notes::Extras;
use crate::sentences::{Progressed, Sentences};
use fx_audit::{Answer, check_explained, confirm_explained, lint_both_explained, lint_explained};
use fx_base::{Fault, LineReader, Octets, Outside, Sink, Source, read_whole, refusals};
use fx_drawings::put_drawing;
use std::alloc::Global;
use std::rt::Files;

/// Opens an optional file, if it is given.
fn open_given<R: Files>(
    rt: &R,
    path: Option<&str>,
    notes: &mut Extras<'_>,
) -> Result<Option<Outside<R::File>>, Fault> {
    match path {
        Some(path) => Ok(Some(open(rt, path, notes)?)),
        None => Ok(None),
    }
}

/// Reads an optional file as a whole, if it is given.
fn read_given<F: Source>(alloc: Global, file: Option<F>) -> Result<Option<Vec<u8>>, Fault> {
    match file {
        Some(mut file) => Ok(Some(read_whole(alloc, &mut file)?)),
        None => Ok(None),
    }
}

/// Explains why the text of a certificate or a refutation isn't drawn, like `check` or `confirm`.
fn explain_answer(
    alloc: Global,
    network: &[u8],
    traffic: Option<&[u8]>,
    answer: Option<&[u8]>,
    fault: &Fault,
    sentences: &mut Sentences<'_>,
) -> Result<Answer, Fault> {
    let mut unwritten = Outside::new(Vec::new(alloc));
    let mut network = Octets::new(network);
    let mut traffic = Octets::new(traffic.unwrap_or(b""));
    let mut lines = LineReader::new(alloc, Octets::new(answer.unwrap_or(b"")))?;
    if fault.number < refusals::REFUTATION_FIRST {
        check_explained(
            alloc,
            &mut network,
            &mut traffic,
            &mut lines,
            sentences,
            &mut unwritten,
        )
    } else {
        confirm_explained(
            alloc,
            &mut network,
            &mut traffic,
            &mut lines,
            sentences,
            &mut unwritten,
        )
    }
}

/// Explains why documents aren't drawn, like `lint`.
fn explain_documents(
    alloc: Global,
    network: &[u8],
    traffic: Option<&[u8]>,
    sentences: &mut Sentences<'_>,
) -> Result<Answer, Fault> {
    let mut unwritten = Outside::new(Vec::new(alloc));
    let mut network = Octets::new(network);
    match traffic {
        None => lint_explained(alloc, &mut network, sentences, &mut unwritten),
        Some(traffic) => {
            let mut traffic = Octets::new(traffic);
            lint_both_explained(alloc, &mut network, &mut traffic, sentences, &mut unwritten)
        }
    }
}

/// Explains why the texts aren't drawn, if sentences are wanted and the fault is in one of the texts.
fn explain_undrawn(
    alloc: Global,
    network: &[u8],
    traffic: Option<&[u8]>,
    answer: Option<&[u8]>,
    fault: &Fault,
    sentences: &mut Sentences<'_>,
) {
    if !sentences.are_wanted() || fault.number >= refusals::WANT_OF_MEMORY {
        return;
    }
    let _again = if fault.number < refusals::CERTIFICATE_FIRST {
        explain_documents(alloc, network, traffic, sentences)
    } else {
        explain_answer(alloc, network, traffic, answer, fault, sentences)
    };
}

/// Draws the network in the first file, the traffic in the second, if one is given, and what the text in the third says
/// of both, if one is given; of the traffic the paths of one class alone, if one is given. Opens all files before it
/// reads the first.
///
/// Fails with 901 if a file can't be opened or read, and otherwise like [`put_drawing`].
pub(crate) fn draw<R: AllocGlobal + Files, S: Sink>(
    rt: &R,
    network: &str,
    traffic: Option<&str>,
    answer: Option<&str>,
    class: Option<&str>,
    notes: &mut Extras<'_>,
    sink: &mut S,
) -> Result<Answer, Fault>
    ensures { AnswersWith S.taken S.failed IsDrawingText sink.old sink.new result }
{
    let alloc = rt.alloc();
    let mut network = open(rt, network, notes)?;
    let traffic = open_given(rt, traffic, notes)?;
    let answer = open_given(rt, answer, notes)?;
    notes.opened();
    let network = read_whole(alloc, &mut network)?;
    notes.sentences.progressed = Progressed::Network;
    let traffic = read_given(alloc, traffic)?;
    notes.sentences.progressed = Progressed::Traffic;
    let answer = read_given(alloc, answer)?;
    let drawn = put_drawing(
        alloc,
        network.as_slice(),
        traffic.as_deref(),
        answer.as_deref(),
        class,
        sink,
    );
    match drawn {
        Ok(()) => Ok(Answer::Yes),
        Err(fault) => {
            let (traffic, answer) = (traffic.as_deref(), answer.as_deref());
            let sentences = &mut notes.sentences;
            explain_undrawn(
                alloc,
                network.as_slice(),
                traffic,
                answer,
                &fault,
                sentences,
            );
            Err(fault)
        }
    }
}
