//! The command that explains the numbers of refusals.
ghost use Rattle.std.specs.Prelude.{◌≡◌, IfErr, Some};
ghost use Rattle.fx_base.specs.Device.{IsWriteFault};
ghost use Rattle.fx_checker.specs.Outputs.{AnswersWith};
ghost use Rattle.fx_elements.specs.Spelling.{largest, number_of};
ghost use Rattle.fx_cli.specs.Explaining.{IsExplained, IsExplainText, small};

use fx_audit::Answer;
use fx_base::{Fault, Sink, put_text};
use fx_elements::read_u64;
use fx_words::{put_explanation, put_refusal_list, refusal_of};

/// Writes the explanation of a number, or `unknown number` with an answer of no if no refusal has it.
fn explain_number<S: Sink>(number: u16, sink: &mut S) -> Result<Answer, Fault>
    ensures answers { AnswersWith S.taken S.failed (IsExplained (Some number)) sink.old sink.new
        result }
    ensures refused { IfErr result (IsWriteFault (S.failed sink.new)) }
{
    match refusal_of(number) {
        Some(_) => {
            put_explanation(sink, number)?;
            Ok(Answer::Yes)
        }
        None => {
            put_text(sink, b"unknown number\n")?;
            Ok(Answer::No)
        }
    }
}

/// Returns the number that a word gives in decimal digits, if it is less than 65,536.
fn number_in(word: &str) -> Option<u16>
    ensures { result ≡ small (number_of largest word.now) }
{
    let number = read_u64(word.as_bytes())?;
    if number < 65536 {
        Some(number as u16)
    } else {
        None
    }
}

/// Writes what a refusal of a number says, its causes, what to do and where to read on; for the word `all`, one line
/// per number; for another word, or a number that no refusal has, the line `unknown number`, with an answer of no.
///
/// Fails with 902, at no place, if a write fails.
pub fn explain_bytes<S: Sink>(word: &str, sink: &mut S) -> Result<Answer, Fault>
    ensures answers { AnswersWith S.taken S.failed (IsExplainText word.now) sink.old sink.new
        result }
    ensures refused { IfErr result (IsWriteFault (S.failed sink.new)) }
{
    if word == "all" {
        put_refusal_list(sink)?;
        return Ok(Answer::Yes);
    }
    match number_in(word) {
        Some(number) => explain_number(number, sink),
        None => {
            put_text(sink, b"unknown number\n")?;
            Ok(Answer::No)
        }
    }
}
