//! Output of the lines of a run's text.
ghost use Rattle.std.specs.Prelude.{◌++◌, ◌∷◌, [], decimal, map, OnOk, IfErr};
ghost use Rattle.fx_base.specs.Device.{Writes, IsWriteFault, KeepsGoing};
ghost use Rattle.fx_elements.specs.Axes.{field};
ghost use Rattle.fx_elements.specs.Values.{value_text};
ghost use Rattle.fx_run_text.specs.RunLineText.{run_line_text, spaced_words};
ghost use Rattle.fx_run_text.specs.RunText.{choice_word, holder_words};
ghost use Rattle.fx_run_text.specs.declared.run_line.RunLine.TheVariants as line;
ghost use Rattle.fx_tables.specs.declared.holder_name.HolderName.TheVariants as holders;
ghost use Rattle.fx_run_text.specs.declared.text_version.TextVersion.TheVariants.{Two};
ghost use Rattle.fx_run_text.specs.declared.step.Step.TheVariants as steps;

use crate::step::Step;
use fx_base::{Fault, Sink, put_number, put_text};
use fx_boxes::Fields;
use fx_elements::{Axis, EVERY_AXIS, put_value, width};
use fx_tables::{HolderName, Packet};

/// Writes a space and a number.
fn put_spaced<S: Sink>(sink: &mut S, number: u64) -> Result<(), Fault>
    ensures ok { OnOk result (Writes (S.taken sink.old) (S.taken sink.new)
        (spaced_words (decimal number
        ∷ []))) }
    ensures going { OnOk result (KeepsGoing (S.failed sink.old) (S.failed sink.new)) }
    ensures err { IfErr result (IsWriteFault (S.failed sink.new)) }
{
    put_text(sink, b" ")?;
    put_number(sink, number)
}

/// Writes a space and the value on an axis.
#[tactic(auto, using(crate::proofs::RunPutting::field_fits))]
fn put_field<S: Sink>(sink: &mut S, fields: &Fields, axis: Axis) -> Result<(), Fault>
    ensures ok { OnOk result (Writes (S.taken sink.old) (S.taken sink.new)
        (spaced_words (value_text axis
        (field fields.now axis) ∷ []))) }
    ensures going { OnOk result (KeepsGoing (S.failed sink.old) (S.failed sink.new)) }
    ensures err { IfErr result (IsWriteFault (S.failed sink.new)) }
{
    // Only for the prover: each value is within its axis.
    let _first = fields.value_at(0);
    put_text(sink, b" ")?;
    put_value(sink, axis, width(axis), fields.get(axis))
}

/// Writes the values on these axes, each preceded by a space.
fn put_on_axes<S: Sink>(sink: &mut S, fields: &Fields, axes: &[Axis]) -> Result<(), Fault>
    ensures ok { OnOk result (Writes (S.taken sink.old) (S.taken sink.new)
        (spaced_words (map (λ axis. value_text axis (field fields.now axis)) axes.now))) }
    ensures going { OnOk result (KeepsGoing (S.failed sink.old) (S.failed sink.new)) }
    ensures err { IfErr result (IsWriteFault (S.failed sink.new)) }
{
    for axis in axes {
        put_field(sink, fields, *axis)?;
    }
    Ok(())
}

/// Writes a space and a choice.
fn put_choice<S: Sink>(sink: &mut S, choice: Option<u64>) -> Result<(), Fault>
    ensures ok { OnOk result (Writes (S.taken sink.old) (S.taken sink.new) (spaced_words
        (choice_word choice ∷ []))) }
    ensures going { OnOk result (KeepsGoing (S.failed sink.old) (S.failed sink.new)) }
    ensures err { IfErr result (IsWriteFault (S.failed sink.new)) }
{
    match choice {
        None => put_text(sink, b" n"),
        Some(number) => put_spaced(sink, number),
    }
}

/// Writes choices, each preceded by a space.
fn put_choices<S: Sink>(sink: &mut S, choices: &[Option<u64>]) -> Result<(), Fault>
    ensures ok { OnOk result (Writes (S.taken sink.old) (S.taken sink.new) (spaced_words
        (map choice_word choices.now))) }
    ensures going { OnOk result (KeepsGoing (S.failed sink.old) (S.failed sink.new)) }
    ensures err { IfErr result (IsWriteFault (S.failed sink.new)) }
{
    for choice in choices {
        put_choice(sink, *choice)?;
    }
    Ok(())
}

/// Writes the words of a cache, each preceded by a space.
fn put_cache<S: Sink>(sink: &mut S, device: u64, cache: u64) -> Result<(), Fault>
    ensures ok { OnOk result (Writes (S.taken sink.old) (S.taken sink.new)
        (spaced_words (holder_words
        (holders.Cache device cache)))) }
    ensures going { OnOk result (KeepsGoing (S.failed sink.old) (S.failed sink.new)) }
    ensures err { IfErr result (IsWriteFault (S.failed sink.new)) }
{
    put_text(sink, b" cache")?;
    put_spaced(sink, device)?;
    put_spaced(sink, cache)
}

/// Writes the words of an aggregation, each preceded by a space.
fn put_aggregation<S: Sink>(
    sink: &mut S,
    device: u64,
    process: u64,
    aggregation: u64,
) -> Result<(), Fault>
    ensures ok { OnOk result (Writes (S.taken sink.old) (S.taken sink.new)
        (spaced_words (holder_words (holders.Aggregation device process aggregation)))) }
    ensures going { OnOk result (KeepsGoing (S.failed sink.old) (S.failed sink.new)) }
    ensures err { IfErr result (IsWriteFault (S.failed sink.new)) }
{
    put_text(sink, b" aggregation")?;
    put_spaced(sink, device)?;
    put_spaced(sink, process)?;
    put_spaced(sink, aggregation)
}

/// Writes the words of a holder, each preceded by a space.
fn put_holder<S: Sink>(sink: &mut S, holder: HolderName) -> Result<(), Fault>
    ensures ok { OnOk result (Writes (S.taken sink.old) (S.taken sink.new) (spaced_words
        (holder_words holder))) }
    ensures going { OnOk result (KeepsGoing (S.failed sink.old) (S.failed sink.new)) }
    ensures err { IfErr result (IsWriteFault (S.failed sink.new)) }
{
    match holder {
        HolderName::Cache { device, cache } => put_cache(sink, device, cache),
        HolderName::Aggregation {
            device,
            process,
            aggregation,
        } => put_aggregation(sink, device, process, aggregation),
    }
}

/// Writes the words of a packet.
fn put_packet<S: Sink>(sink: &mut S, packet: &Packet) -> Result<(), Fault>
    ensures ok { OnOk result (Writes (S.taken sink.old) (S.taken sink.new) (run_line_text Two
        (line.Packet packet.now))) }
    ensures going { OnOk result (KeepsGoing (S.failed sink.old) (S.failed sink.new)) }
    ensures err { IfErr result (IsWriteFault (S.failed sink.new)) }
{
    put_text(sink, b"packet")?;
    put_spaced(sink, packet.class)?;
    put_spaced(sink, packet.path)?;
    put_on_axes(sink, &packet.fields, &EVERY_AXIS)?;
    put_spaced(sink, packet.octets)
}

/// Writes the line of a packet: the word `packet`, the numbers of its class and path, its values on all axes, and its
/// octets. A line feed ends it.
///
/// Fails with 902, at no place, if a write fails. How much the sink has taken is then unspecified.
pub fn put_packet_line<S: Sink>(sink: &mut S, packet: &Packet) -> Result<(), Fault>
    ensures ok { OnOk result (Writes (S.taken sink.old) (S.taken sink.new)
        (run_line_text Two (line.Packet packet.now) ++ 10 ∷ [])) }
    ensures going { OnOk result (KeepsGoing (S.failed sink.old) (S.failed sink.new)) }
    ensures err { IfErr result (IsWriteFault (S.failed sink.new)) }
{
    put_packet(sink, packet)?;
    put_text(sink, b"\n")
}

/// Writes the words of a crossing.
fn put_cross<S: Sink>(
    sink: &mut S,
    packet: u64,
    crossing: u64,
    choices: &[Option<u64>],
) -> Result<(), Fault>
    ensures ok { OnOk result (Writes (S.taken sink.old) (S.taken sink.new)
        (run_line_text Two (line.Step (steps.Cross packet crossing choices.now)))) }
    ensures going { OnOk result (KeepsGoing (S.failed sink.old) (S.failed sink.new)) }
    ensures err { IfErr result (IsWriteFault (S.failed sink.new)) }
{
    put_text(sink, b"cross")?;
    put_spaced(sink, packet)?;
    put_spaced(sink, crossing)?;
    put_choices(sink, choices)
}

/// Writes the words of a record that leaves its holder.
fn put_expire<S: Sink>(
    sink: &mut S,
    holder: HolderName,
    position: u64,
    choices: &[Option<u64>],
) -> Result<(), Fault>
    ensures ok { OnOk result (Writes (S.taken sink.old) (S.taken sink.new)
        (run_line_text Two (line.Step (steps.Expire holder position choices.now)))) }
    ensures going { OnOk result (KeepsGoing (S.failed sink.old) (S.failed sink.new)) }
    ensures err { IfErr result (IsWriteFault (S.failed sink.new)) }
{
    put_text(sink, b"expire")?;
    put_holder(sink, holder)?;
    put_spaced(sink, position)?;
    put_choices(sink, choices)
}

/// Writes the words of a record that arrives.
fn put_arrive<S: Sink>(
    sink: &mut S,
    link: u64,
    position: u64,
    choices: &[Option<u64>],
) -> Result<(), Fault>
    ensures ok { OnOk result (Writes (S.taken sink.old) (S.taken sink.new)
        (run_line_text Two (line.Step (steps.Arrive link position choices.now)))) }
    ensures going { OnOk result (KeepsGoing (S.failed sink.old) (S.failed sink.new)) }
    ensures err { IfErr result (IsWriteFault (S.failed sink.new)) }
{
    put_text(sink, b"arrive")?;
    put_spaced(sink, link)?;
    put_spaced(sink, position)?;
    put_choices(sink, choices)
}

/// Writes the words of a step.
fn put_step<S: Sink>(sink: &mut S, step: &Step) -> Result<(), Fault>
    ensures ok { OnOk result (Writes (S.taken sink.old) (S.taken sink.new) (run_line_text Two
        (line.Step step.now))) }
    ensures going { OnOk result (KeepsGoing (S.failed sink.old) (S.failed sink.new)) }
    ensures err { IfErr result (IsWriteFault (S.failed sink.new)) }
{
    match step {
        Step::Cross {
            packet,
            crossing,
            choices,
        } => put_cross(sink, *packet, *crossing, choices.as_slice()),
        Step::Expire {
            holder,
            position,
            choices,
        } => put_expire(sink, *holder, *position, choices.as_slice()),
        Step::Arrive {
            link,
            position,
            choices,
        } => put_arrive(sink, *link, *position, choices.as_slice()),
    }
}

/// Writes the line of a step, which [`read_run_line`](crate::read_run_line) reads as that step. A line feed ends it.
///
/// Fails with 902, at no place, if a write fails. How much the sink has taken is then unspecified.
pub fn put_step_line<S: Sink>(sink: &mut S, step: &Step) -> Result<(), Fault>
    ensures ok { OnOk result (Writes (S.taken sink.old) (S.taken sink.new) (run_line_text Two
        (line.Step step.now) ++ 10 ∷ [])) }
    ensures going { OnOk result (KeepsGoing (S.failed sink.old) (S.failed sink.new)) }
    ensures err { IfErr result (IsWriteFault (S.failed sink.new)) }
{
    put_step(sink, step)?;
    put_text(sink, b"\n")
}
