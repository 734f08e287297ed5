//! Laws of the networks that plans describe.
ghost use Rattle.std.specs.Prelude.{◌↔◌, Bool, List};
ghost use Rattle.fx_elements.specs.declared.axis.Axis.{Axis};
ghost use Rattle.fx_machine.specs.Claim.{ExactlyOnce, OnceModulo};
ghost use Rattle.fx_machine.specs.ClaimsOfSome.{ExactlyOnceOf, OnceModuloOf};
ghost use Rattle.fx_tables.specs.Classes as traffic;
ghost use Rattle.fx_machine.specs.CompleteRun.{HasCompleteRun};
ghost use Rattle.fx_tables.specs.NamedAxes as axes;
ghost use Rattle.fx_tables.specs.declared.packet.Packet as of_packet;
ghost use Rattle.fx_plan.specs.NamedByDocuments.{DocumentNamesOnly};
ghost use Rattle.fx_plan.specs.Tables as tables;
ghost use Rattle.fx_topology.specs.declared.network.NetworkDocument as documents;

use crate::plan::Plan;
use fx_machine::complete_runs_exist;

/// Proves that over any packets of any classes the network of a plan has a complete run, so a claim about every
/// complete run is never vacuous.
pub fn plans_have_complete_runs(plan: &Plan)
    ensures { (classes : List traffic.Class) (packets : List of_packet.Packet)
        → HasCompleteRun (tables.net_of plan.now) classes packets }
{
    // The prover needs this call: it shows that a plan's network has ranks and that no record is stuck in it.
    let _net = plan.net();
    complete_runs_exist();
}

/// Proves that a network document whose filters, cache fields, aggregation keys and report name only some axes
/// describes a network that names only these. So if it and its classes name no axis of IPv6, what is promised of
/// packets with values on the six other axes only is promised of all packets.
pub fn documents_name_axes()
    ensures names { (named : Axis → Bool) (network : documents.NetworkDocument)
        → DocumentNamesOnly named network → axes.NamesOnly named (tables.net_of network) }
    ensures once { (network : documents.NetworkDocument) (classes : List traffic.Class)
        → DocumentNamesOnly axes.is_of_six network
        → axes.ClassesNameOnly axes.is_of_six classes
        → (ExactlyOnceOf axes.HasSixValues (tables.net_of network) classes
        ↔ ExactlyOnce (tables.net_of network) classes) }
    ensures modulo { (network : documents.NetworkDocument) (classes : List traffic.Class)
        → DocumentNamesOnly axes.is_of_six network
        → axes.ClassesNameOnly axes.is_of_six classes
        → (OnceModuloOf axes.HasSixValues (tables.net_of network) classes
        ↔ OnceModulo (tables.net_of network) classes) }
{}
