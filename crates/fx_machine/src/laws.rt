//! Laws of the steps, and of what a network names.
ghost use Rattle.std.specs.Prelude.{◌≡◌, ◌↔◌, Bool, List, Ok};
ghost use Rattle.fx_boxes.specs.Boxes.{IsFields};
ghost use Rattle.fx_elements.specs.Axes.{Fields, field};
ghost use Rattle.fx_elements.specs.declared.axis.Axis.{Axis};
ghost use Rattle.fx_elements.specs.declared.axis.Axis.TheVariants.{Version, Source6, Destination6};
ghost use Rattle.fx_layout.specs.Keys.{Key};
ghost use Rattle.fx_machine.specs.Claim.{ExactlyOnce, OnceModulo};
ghost use Rattle.fx_machine.specs.ClaimsOfSome.{ExactlyOnceOf, OnceModuloOf};
ghost use Rattle.fx_tables.specs.Classes as traffic;
ghost use Rattle.fx_machine.specs.CompleteRun as complete_run;
ghost use Rattle.fx_machine.specs.Moves as moves;
ghost use Rattle.fx_tables.specs.NamedAxes as axes;
ghost use Rattle.fx_tables.specs.Network as network;
ghost use Rattle.fx_tables.specs.Ranks as ranks;
ghost use Rattle.fx_tables.specs.Runnable as runnable;
ghost use Rattle.fx_machine.specs.States as states;
ghost use Rattle.fx_machine.specs.Steps as steps;
ghost use Rattle.fx_machine.specs.Sums.{SumsFit, plain_sum};
ghost use Rattle.fx_tables.specs.declared.packet.Packet as of_packet;
ghost use Rattle.fx_run_text.specs.declared.step.Step as of_step;

/// The steps with their choices are exactly what a network may do: each step is a move, and each move is a step with
/// some choices.
pub fn choices_are_free()
    ensures step_is_move { (net : network.Net) (classes : List traffic.Class)
        (packets : List of_packet.Packet)
        (step : of_step.Step) (s : states.State) (new : states.State)
        → steps.after net classes packets step s ≡ Ok new → moves.Moves net classes packets s new }
    ensures move_is_step { (net : network.Net) (classes : List traffic.Class)
        (packets : List of_packet.Packet)
        (s : states.State) (new : states.State)
        → moves.Moves net classes packets s new
        → (step : of_step.Step) × (steps.after net classes packets step s ≡ Ok new) }
    // So runs correspond too.
    ensures steps_are_moves { (net : network.Net) (classes : List traffic.Class)
        (packets : List of_packet.Packet)
        (written : List of_step.Step) (s : states.State) (last : states.State)
        → steps.run net classes packets written s ≡ Ok last
        → moves.Runs net classes packets s last }
    ensures moves_are_steps { (net : network.Net) (classes : List traffic.Class)
        (packets : List of_packet.Packet)
        (s : states.State) (last : states.State)
        → moves.Runs net classes packets s last
        → (written : List of_step.Step) × (steps.run net classes packets written s ≡ Ok last) }
{}

/// What is claimed of every complete run isn't vacuous: if records only go forward and none is stuck, there is a
/// complete run over any packets.
pub fn complete_runs_exist()
    ensures exist { (net : network.Net) (classes : List traffic.Class)
        (packets : List of_packet.Packet)
        → ranks.IsRanked net → runnable.IsRunnable net
        → complete_run.HasCompleteRun net classes packets }
{}

/// What a network doesn't name has no effect: it treats packets alike that differ only on axes that it doesn't name,
/// and what holds of packets that have 0 there holds of all.
pub fn unnamed_axes_mean_nothing()
    ensures all_fields_fit { (named : Axis → Bool) (f : Fields)
        → IsFields f → axes.FitsElsewhere named f }
    ensures of_class { (named : Axis → Bool) (classes : List traffic.Class)
        (p : of_packet.Packet) (q : of_packet.Packet)
        → axes.ClassesNameOnly named classes → axes.IsAlike named p q
        → (traffic.IsOf p (network.entry_numbered classes p.class)
        ↔ traffic.IsOf q (network.entry_numbered classes q.class)) }
    ensures opening { (named : Axis → Bool) (net : network.Net) (classes : List traffic.Class)
        (ps : List of_packet.Packet) (qs : List of_packet.Packet) → axes.AreAlike named ps qs
        → states.opening net classes ps ≡ states.opening net classes qs }
    ensures step { (named : Axis → Bool) (net : network.Net) (classes : List traffic.Class)
        (ps : List of_packet.Packet) (qs : List of_packet.Packet)
        → axes.NamesOnly named net → axes.AreAlike named ps qs
        → (step : of_step.Step) (s : states.State)
        → steps.after net classes ps step s ≡ steps.after net classes qs step s }
    ensures run { (named : Axis → Bool) (net : network.Net) (classes : List traffic.Class)
        (ps : List of_packet.Packet) (qs : List of_packet.Packet)
        → axes.NamesOnly named net → axes.AreAlike named ps qs
        → (written : List of_step.Step) (s : states.State)
        → steps.run net classes ps written s ≡ steps.run net classes qs written s }
    ensures runs { (named : Axis → Bool) (net : network.Net) (classes : List traffic.Class)
        (ps : List of_packet.Packet) (qs : List of_packet.Packet)
        → axes.NamesOnly named net → axes.AreAlike named ps qs
        → (s : states.State) (last : states.State)
        → (moves.Runs net classes ps s last ↔ moves.Runs net classes qs s last) }
    ensures sums { (named : Axis → Bool) (net : network.Net) (classes : List traffic.Class)
        (ps : List of_packet.Packet) (qs : List of_packet.Packet)
        → axes.NamesOnly named net → axes.AreAlike named ps qs → (key : Key)
        → plain_sum net.report_layout key (traffic.to_count classes ps)
        ≡ plain_sum net.report_layout key (traffic.to_count classes qs) }
    ensures sums_fit { (named : Axis → Bool) (net : network.Net) (classes : List traffic.Class)
        (ps : List of_packet.Packet) (qs : List of_packet.Packet)
        → axes.NamesOnly named net → axes.AreAlike named ps qs
        → (SumsFit net.report_layout (traffic.to_count classes ps)
        ↔ SumsFit net.report_layout (traffic.to_count classes qs)) }
    // So zeros represent all values.
    ensures once { (named : Axis → Bool) (net : network.Net) (classes : List traffic.Class)
        → axes.NamesOnly named net → axes.ClassesNameOnly named classes
        → (ExactlyOnceOf (axes.HasZerosElsewhere named) net classes ↔ ExactlyOnce net classes) }
    ensures modulo { (named : Axis → Bool) (net : network.Net) (classes : List traffic.Class)
        → axes.NamesOnly named net → axes.ClassesNameOnly named classes
        → (OnceModuloOf (axes.HasZerosElsewhere named) net classes ↔ OnceModulo net classes) }
{}

/// Networks and classes that name only the first six axes mean what they meant before the three of IPv6 were added:
/// what holds of packets with 0 on the three, or of packets with values on the six alone, holds of all.
pub fn six_axes_suffice()
    ensures once { (net : network.Net) (classes : List traffic.Class)
        → axes.NamesOnly axes.is_of_six net → axes.ClassesNameOnly axes.is_of_six classes
        → (ExactlyOnceOf (axes.HasZerosElsewhere axes.is_of_six) net classes
        ↔ ExactlyOnce net classes) }
    ensures modulo { (net : network.Net) (classes : List traffic.Class)
        → axes.NamesOnly axes.is_of_six net → axes.ClassesNameOnly axes.is_of_six classes
        → (OnceModuloOf (axes.HasZerosElsewhere axes.is_of_six) net classes
        ↔ OnceModulo net classes) }
    // The axes that have those zeros.
    ensures zeros { (p : of_packet.Packet) → (axes.HasZerosElsewhere axes.is_of_six p
        ↔ ((field p.fields Version ≡ 0) × (field p.fields Source6 ≡ 0)
        × (field p.fields Destination6 ≡ 0))) }
    ensures once_of_six_values { (net : network.Net) (classes : List traffic.Class)
        → axes.NamesOnly axes.is_of_six net → axes.ClassesNameOnly axes.is_of_six classes
        → (ExactlyOnceOf axes.HasSixValues net classes ↔ ExactlyOnce net classes) }
    ensures modulo_of_six_values { (net : network.Net) (classes : List traffic.Class)
        → axes.NamesOnly axes.is_of_six net → axes.ClassesNameOnly axes.is_of_six classes
        → (OnceModuloOf axes.HasSixValues net classes ↔ OnceModulo net classes) }
{}
