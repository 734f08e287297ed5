//! The network document and the traffic declaration, which most commands read first.
ghost use Rattle.std.specs.Prelude.{◌≡◌, ◌⊎◌, [], IfOk, IfErr};
ghost use Rattle.serde_json.specs.View.{view};
ghost use Rattle.serde_json.specs.Data.{Data};
ghost use Rattle.fx_base.specs.Device.{MayHaveLeft};
ghost use Rattle.fx_base.specs.Fault.{fault_at, IsMemory};
ghost use Rattle.fx_base.specs.declared.fault.Fault.{Fault};
ghost use Rattle.fx_base.specs.declared.fault.Place.TheVariants as places;
ghost use Rattle.fx_base.specs.Refusals.{not_json};
ghost use Rattle.fx_plan.specs.Plans.{ReadsPlan};
ghost use Rattle.fx_walk.specs.Walk.{Reads};
ghost use Rattle.fx_topology.specs.Networks.{device_names};
ghost use Rattle.fx_traffic.specs.Classes.{traffic_faults, traffic_of};
ghost use Rattle.fx_checker.specs.Documents.{BothMayHaveLeft, CannotRead, IfNetworkRefused, IsFirstFault, IsJson, IsNetworkDocument, IsRefusedByDocuments, IsRefusedNetwork, IsTraffic};

use crate::explainer::CheckExplainer;
use fx_base::{Fault, Source, read_whole, refusals};
use fx_plan::{Plan, read_plan};
use fx_traffic::{Traffic, read_traffic};
use serde_json::Value;
use std::alloc::Global;

/// Parses octets as a JSON text.
///
/// Fails, at no place, with 101 if they are no JSON text in UTF-8, and with 900 if out of memory.
fn value_of(alloc: Global, octets: &[u8]) -> Result<Value, Fault>
    ensures ok { IfOk result (λ value. IsJson octets.now (view value)) }
    ensures err { IfErr result (λ e. IsMemory e
        ⊎ ((e ≡ fault_at not_json places.None) × ((d : Data) → IsJson octets.now d → ⊥))) }
{
    match Value::from_slice(alloc, octets) {
        Ok(value) => Ok(value),
        Err(error) => {
            if error.is_memory() {
                return Err(Fault::bare(refusals::WANT_OF_MEMORY));
            }
            Err(Fault::bare(refusals::NOT_JSON))
        }
    }
}

/// Returns the network that the value of the JSON text `octets` describes, and reports the outcome to the explainer.
///
/// Fails as [`read_plan`] does.
fn plan_from<E: CheckExplainer>(
    alloc: Global,
    octets: &[u8],
    value: &Value,
    explainer: &mut E,
) -> Result<Plan, Fault>
    ensures { ReadsPlan (view value.now) result }
{
    let read = read_plan(alloc, value);
    match &read {
        Ok(plan) => explainer.on_network(octets, plan),
        Err(fault) => explainer.on_refused_network(octets, fault),
    }
    read
}

/// Parses the octets of a network document as JSON. If they are no JSON text, passes them to the explainer.
///
/// Fails as [`value_of`] does.
fn network_value<E: CheckExplainer>(
    alloc: Global,
    octets: &[u8],
    explainer: &mut E,
) -> Result<Value, Fault>
    ensures ok { IfOk result (λ value. IsJson octets.now (view value)) }
    ensures err { IfErr result (λ e. IsMemory e
        ⊎ ((e ≡ fault_at not_json places.None) × ((d : Data) → IsJson octets.now d → ⊥))) }
{
    let read = value_of(alloc, octets);
    if let Err(fault) = &read {
        explainer.on_refused_network(octets, fault);
    }
    read
}

/// Parses the octets of a traffic declaration as JSON. If they are no JSON text, passes them to the explainer.
///
/// Fails as [`value_of`] does.
fn traffic_value<E: CheckExplainer>(
    alloc: Global,
    octets: &[u8],
    plan: &Plan,
    explainer: &mut E,
) -> Result<Value, Fault>
    ensures ok { IfOk result (λ value. IsJson octets.now (view value)) }
    ensures err { IfErr result (λ e. IsMemory e
        ⊎ ((e ≡ fault_at not_json places.None) × ((d : Data) → IsJson octets.now d → ⊥))) }
{
    let read = value_of(alloc, octets);
    if let Err(fault) = &read {
        explainer.on_refused_traffic(octets, plan, fault);
    }
    read
}

/// Returns the traffic that the value of the JSON text `octets` describes, and reports the outcome to the explainer.
///
/// Fails as [`read_traffic`] does.
fn classes_from<E: CheckExplainer>(
    alloc: Global,
    octets: &[u8],
    value: &Value,
    plan: &Plan,
    explainer: &mut E,
) -> Result<Traffic, Fault>
    ensures { Reads (traffic_faults (device_names plan.now) [] (view value.now))
        (traffic_of (device_names plan.now) (view value.now)) result }
{
    let read = read_traffic(alloc, value, plan);
    match &read {
        Ok(traffic) => explainer.on_traffic(octets, plan, traffic),
        Err(fault) => explainer.on_refused_traffic(octets, plan, fault),
    }
    read
}

/// The content of the two documents.
pub struct AcceptedDocuments {
    /// The network.
    pub plan: Plan,
    /// The traffic that crosses it.
    pub traffic: Traffic,
}

impl Drop for AcceptedDocuments {
    /// Drops its parts in one place.
    fn drop(self) {
        let Self {
            plan: _,
            traffic: _,
        } = self;
    }
}

/// Reads the network document in a source's octets.
///
/// Fails with 101, at no place, if they are no JSON text; as [`read_plan`] does; with 901, at no place, if a read fails
/// or the source hasn't ended after 4,294,967,296 calls; and with 900 if out of memory.
pub fn network_from<R: Source, E: CheckExplainer>(
    alloc: Global,
    source: &mut R,
    explainer: &mut E,
) -> Result<Plan, Fault>
    ensures ok { IfOk result (λ plan. MayHaveLeft (R.left source.old)
        (λ octets. IsNetworkDocument octets plan)) }
    ensures err { IfErr result (λ e. IsMemory e
        ⊎ (CannotRead R.left R.calls R.failed source.old source.new e
        ⊎ MayHaveLeft (R.left source.old) (λ octets. IsRefusedNetwork octets e))) }
{
    let octets = read_whole(alloc, source)?;
    let value = network_value(alloc, octets.as_slice(), explainer)?;
    plan_from(alloc, octets.as_slice(), &value, explainer)
}

/// Reads the traffic declaration in a source's octets, for a network.
///
/// Fails as [`network_from`] does, but as [`read_traffic`] instead of [`read_plan`].
fn traffic_from<R: Source, E: CheckExplainer>(
    alloc: Global,
    source: &mut R,
    plan: &Plan,
    explainer: &mut E,
) -> Result<Traffic, Fault>
    ensures ok { IfOk result (λ traffic. MayHaveLeft (R.left source.old)
        (λ octets. IsTraffic plan.now octets traffic)) }
    ensures err { IfErr result (λ e. IsMemory e
        ⊎ (CannotRead R.left R.calls R.failed source.old source.new e
        ⊎ MayHaveLeft (R.left source.old) (λ octets. IsFirstFault
        (traffic_faults (device_names plan.now) []) octets e))) }
{
    let octets = read_whole(alloc, source)?;
    let value = traffic_value(alloc, octets.as_slice(), plan, explainer)?;
    classes_from(alloc, octets.as_slice(), &value, plan, explainer)
}

/// Reads the network document and then, if it is accepted, the traffic declaration.
///
/// Fails, at the first fault, with 101 at no place, or as [`read_plan`] and [`read_traffic`] do; with 901, at no place,
/// if a read fails or a source hasn't ended after 4,294,967,296 calls; and with 900 if out of memory.
pub fn read_documents<N: Source, T: Source, E: CheckExplainer>(
    alloc: Global,
    network: &mut N,
    traffic: &mut T,
    explainer: &mut E,
) -> Result<AcceptedDocuments, Fault>
    ensures network { IfOk result (λ documents. MayHaveLeft (N.left network.old)
        (λ octets. IsNetworkDocument octets documents.plan)) }
    ensures traffic { IfOk result (λ documents. MayHaveLeft (T.left traffic.old)
        (λ octets. IsTraffic documents.plan octets documents.traffic)) }
    ensures err { IfErr result (λ e. IsMemory e
        ⊎ (CannotRead N.left N.calls N.failed network.old network.new e
        ⊎ (CannotRead T.left T.calls T.failed traffic.old traffic.new e
        ⊎ BothMayHaveLeft (N.left network.old) (T.left traffic.old)
        (λ n t. IsRefusedByDocuments n t e)))) }
    ensures order { IfNetworkRefused (N.left network.old) (traffic.new ≡ traffic.old) }
{
    let plan = network_from(alloc, network, explainer)?;
    let traffic = traffic_from(alloc, traffic, &plan, explainer)?;
    Ok(AcceptedDocuments { plan, traffic })
}
