//! Ends commands: the line of a refusal and the exit status.
ghost use Rattle.std.specs.Prelude.{◌≡◌, ◌++◌, IfErr, IfOk, Ok};
ghost use Rattle.fx_base.specs.Device.{PutsText};
ghost use Rattle.fx_checker.specs.Ending.{EndsWith, IsExitStatus, refusal_line, refusal_status, status};

use crate::answer::Answer;
use fx_base::{Fault, Sink, put_fault, put_number, put_text, refusals};

/// The exit status of a write that failed.
pub const WRITE_FAILED: u8 = 5;

/// Writes the line of a refusal.
fn put_refusal<S: Sink>(sink: &mut S, fault: &Fault) -> Result<(), Fault>
    ensures { PutsText S.taken S.failed (refusal_line fault.now) sink.old sink.new result }
{
    match fault.number {
        refusals::WANT_OF_MEMORY => put_text(sink, b"memory 900\n"),
        refusals::FAILED_READ | refusals::FAILED_WRITE => {
            put_text(sink, b"device ")?;
            put_number(sink, u64::from(fault.number))?;
            put_text(sink, b"\n")
        }
        _ => {
            put_text(sink, b"refused ")?;
            put_fault(sink, fault)?;
            put_text(sink, b"\n")
        }
    }
}

/// Returns the exit status of a refusal.
fn status_of_refusal(fault: &Fault) -> u8
    ensures status { result ≡ refusal_status fault.now }
    ensures exit { IsExitStatus result }
{
    let number = fault.number;
    match number {
        refusals::WANT_OF_MEMORY => 4,
        refusals::FAILED_READ | refusals::FAILED_WRITE => 5,
        _ => 2,
    }
}

/// Returns the exit status of an answer.
fn status_of_answer(answer: Answer) -> u8
    ensures status { result ≡ status (Ok answer) }
    ensures exit { IsExitStatus result }
{
    match answer {
        Answer::Yes => 0,
        Answer::No => 1,
        Answer::Unknown => 3,
    }
}

/// Ends a command: writes the line of a refusal, and returns the program's exit status. An answer's text is already
/// written.
///
/// The status is 0 for an answer of yes, 1 for no and 3 for unknown; 2 for a refusal (`refused N PLACE`); 4 if out of
/// memory (`memory 900`); 5 if a device failed (`device 901`, `device 902`), also if the line can't be written.
pub fn finish<S: Sink>(outcome: &Result<Answer, Fault>, sink: &mut S) -> u8
    ensures answered { IfOk outcome.now (λ _. (result ≡ status outcome.now)
        × (sink.new ≡ sink.old)) }
    ensures refused { IfErr outcome.now (λ e. EndsWith S.taken S.failed
        (refusal_line e) (refusal_status e) sink.old sink.new result) }
    ensures exit { IsExitStatus result }
{
    match outcome {
        Ok(answer) => status_of_answer(*answer),
        Err(fault) => match put_refusal(sink, fault) {
            Ok(()) => status_of_refusal(fault),
            Err(_) => WRITE_FAILED,
        },
    }
}

/// Ends a command like [`finish`], and writes the sentences of `explanation` after its text or line. The status is 5 if
/// a write fails.
pub fn finish_with<S: Sink>(outcome: &Result<Answer, Fault>, explanation: &[u8], sink: &mut S) -> u8
    ensures answered { IfOk outcome.now (λ _. EndsWith S.taken S.failed
        explanation.now (status outcome.now) sink.old sink.new result) }
    ensures refused { IfErr outcome.now (λ e. EndsWith S.taken S.failed
        (refusal_line e ++ explanation.now) (refusal_status e) sink.old sink.new result) }
    ensures exit { IsExitStatus result }
{
    let code = match outcome {
        Ok(answer) => status_of_answer(*answer),
        Err(fault) => match put_refusal(sink, fault) {
            Ok(()) => status_of_refusal(fault),
            Err(_) => return WRITE_FAILED,
        },
    };
    match put_text(sink, explanation) {
        Ok(()) => code,
        Err(_) => WRITE_FAILED,
    }
}

/// Writes a text and returns the given exit status, or 5 if the text can't be written.
pub fn put_and_end<S: Sink>(text: &[u8], code: u8, sink: &mut S) -> u8
    ensures { EndsWith S.taken S.failed text.now code sink.old sink.new result }
{
    match put_text(sink, text) {
        Ok(()) => code,
        Err(_) => WRITE_FAILED,
    }
}
