//! Answers of commands.
ghost use Rattle.std.specs.Prelude.{◌≡◌, ◌⊎◌, IfOk, IfErr};
ghost use Rattle.fx_base.specs.Device.{IsWriteFault, PutsText, Writes};
ghost use Rattle.fx_checker.specs.Checks.{IsWithin, no_line};
ghost use Rattle.fx_checker.specs.Outputs.{FailsQuietly};
ghost use Rattle.fx_checker.specs.declared.answer.Answer.TheVariants.{No};

use fx_base::{Fault, Sink, put_fault, put_text};

/// The answer of a command that has written its text.
#[derive(Clone, Copy, Debug, PartialEq, Eq)]
pub enum Answer {
    /// The command did what was asked, or the answer is yes.
    Yes,
    /// The answer is no.
    No,
    /// The command can't decide within its limits.
    Unknown,
}

/// Writes the line of a negative answer: the number of the refusal and its place.
pub(crate) fn put_no<S: Sink>(sink: &mut S, fault: &Fault) -> Result<(), Fault>
    ensures { PutsText S.taken S.failed (no_line fault.now) sink.old sink.new result }
{
    put_text(sink, b"no ")?;
    put_fault(sink, fault)?;
    put_text(sink, b"\n")
}

/// Returns the answer no, and writes its line, if the number of a refusal is in `first` to `last`. Otherwise fails with
/// the refusal itself.
pub fn answer_refusal<S: Sink>(
    sink: &mut S,
    fault: Fault,
    first: u16,
    last: u16,
) -> Result<Answer, Fault>
    ensures ok { IfOk result (λ answer. (answer ≡ No) × IsWithin first last fault.number
        × Writes (S.taken sink.old) (S.taken sink.new) (no_line fault)) }
    ensures err { IfErr result (λ e. ((e ≡ fault) × (IsWithin first last fault.number → ⊥))
        ⊎ IsWriteFault (S.failed sink.new) e) }
    ensures quiet { FailsQuietly S.failed sink.old sink.new result }
{
    if !(first..=last).contains(&fault.number) {
        return Err(fault);
    }
    put_no(sink, &fault)?;
    Ok(Answer::No)
}
