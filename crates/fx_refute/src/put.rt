//! Writing the text of a refutation.
ghost use Rattle.std.specs.Prelude.{map, OnOk, IfErr};
ghost use Rattle.fx_base.specs.Device.{Writes, IsWriteFault, KeepsGoing};
ghost use Rattle.fx_run_text.specs.declared.text_version.TextVersion.TheVariants.{Two};
ghost use Rattle.fx_refute.specs.RefutationText.{refutation_text, steps_text};

use crate::refutation::Refutation;
use fx_base::{Fault, Sink, put_text};
use fx_run_text::{Step, put_packet_line, put_step_line};

/// Writes the lines of the steps.
fn put_steps<S: Sink>(sink: &mut S, steps: &[Step]) -> Result<(), Fault>
    ensures ok { OnOk result (Writes (S.taken sink.old) (S.taken sink.new) (steps_text steps.now)) }
    ensures going { OnOk result (KeepsGoing (S.failed sink.old) (S.failed sink.new)) }
    ensures err { IfErr result (IsWriteFault (S.failed sink.new)) }
{
    for step in steps {
        put_step_line(sink, step)?;
    }
    Ok(())
}

/// Writes the text of a refutation in its second version. [`read_refutation`](crate::read_refutation) reads it as that
/// refutation if no line has more than 4,096 octets.
///
/// Fails with 902, at no place, if a write fails. It is then unspecified how much the sink has taken.
pub fn put_refutation<S: Sink>(sink: &mut S, refutation: &Refutation) -> Result<(), Fault>
    ensures ok { OnOk result (Writes (S.taken sink.old) (S.taken sink.new)
        (refutation_text Two refutation.now)) }
    ensures going { OnOk result (KeepsGoing (S.failed sink.old) (S.failed sink.new)) }
    ensures err { IfErr result (IsWriteFault (S.failed sink.new)) }
{
    put_text(sink, b"once-refutation 2\n")?;
    put_packet_line(sink, refutation.packet())?;
    put_steps(sink, refutation.steps())?;
    put_text(sink, b"end\n")
}
