//! The documents of a whole network, of any size.
ghost use Rattle.std.specs.Prelude.{◌≡◌, ◌⊎◌, IfErr, IfOk};
ghost use Rattle.serde_json.specs.Data.{Data};
ghost use Rattle.serde_json.specs.View.{view};
ghost use Rattle.fx_base.specs.Device.{MayHaveLeft};
ghost use Rattle.fx_base.specs.Fault.{fault_at, IsMemory};
ghost use Rattle.fx_base.specs.declared.fault.Place.TheVariants as places;
ghost use Rattle.fx_base.specs.Refusals.{link_cycle, not_json};
ghost use Rattle.fx_tables.specs.Ranks.{IsNetwork};
ghost use Rattle.fx_plan.specs.Tables as tables;
ghost use Rattle.fx_checker.specs.Documents.{BothMayHaveLeft, CannotRead, IsFirstFault, IsJson};
ghost use Rattle.fx_join.specs.Wholes.{IfWholeFaulty, IsRefusedByWhole, IsRefusedWhole, IsWholeNetwork, IsWholeTraffic, whole_traffic_faults};

use crate::explainer::JoinExplainer;
use fx_base::{Fault, Source, read_whole, refusals};
use fx_parts::is_network;
use fx_plan::{NetworkDocument, Sizes, net_of, read_network_within};
use fx_tables::Net;
use fx_traffic::{Traffic, read_traffic_within};
use serde_json::Value;
use std::alloc::Global;
use std::marker::Model;

/// The most entries of a list: as many as a machine can count.
const MOST: usize = usize::MAX;

/// The sizes of the network document of a whole.
const WHOLE_SIZES: Sizes = Sizes {
    devices: MOST,
    links: MOST,
    processes: MOST,
};

/// A whole network: its document and its tables. Contracts see it as the contents of the document.
#[derive(Drop)]
pub(crate) struct WholeNetwork {
    network: NetworkDocument,
    net: Net,
}

impl Model for WholeNetwork {
    ghost use Rattle.std.specs.Prelude.{◌≡◌};
    ghost use Rattle.fx_plan.specs.Tables.{net_of};
    ghost use Rattle.fx_tables.specs.Ranks.{IsNetwork};
    ghost use Rattle.fx_topology.specs.declared.network.NetworkDocument as of_network;

    ghost Value = { of_network.NetworkDocument };

    ghost view = { λ w. w.network };

    ghost invariant = { λ w. (w.net ≡ net_of w.network) × IsNetwork w.net };
}

impl WholeNetwork {
    /// Returns the contents of the document.
    pub(crate) fn network(&self) -> &NetworkDocument
        ensures { result.now ≡ self.now }
    {
        &self.network
    }

    /// Returns the network that the document describes.
    pub(crate) fn net(&self) -> &Net
        ensures value { result.now ≡ tables.net_of self.now }
        ensures network { IsNetwork result.now }
    {
        &self.net
    }
}

/// A whole network and the traffic that crosses it.
#[derive(Drop)]
pub(crate) struct Whole {
    pub(crate) network: WholeNetwork,
    pub(crate) traffic: Traffic,
}

/// Parses octets as a JSON text.
///
/// Fails, at no place, with 101 if they are no JSON text in UTF-8, and with 900 if out of memory.
fn value_of(alloc: Global, octets: &[u8]) -> Result<Value, Fault>
    ensures ok { IfOk result (λ value. IsJson octets.now (view value)) }
    ensures err { IfErr result (λ e. IsMemory e
        ⊎ ((e ≡ fault_at not_json places.None) × ((d : Data) → IsJson octets.now d → ⊥))) }
{
    match Value::from_slice(alloc, octets) {
        Ok(value) => Ok(value),
        Err(error) => {
            if error.is_memory() {
                return Err(Fault::bare(refusals::WANT_OF_MEMORY));
            }
            Err(Fault::bare(refusals::NOT_JSON))
        }
    }
}

/// Returns the whole network of a document.
///
/// Fails, at no place, with 204 if its links form a cycle, and with 900 if out of memory.
fn ranked_network(alloc: Global, network: NetworkDocument) -> Result<WholeNetwork, Fault>
    ensures ok { IfOk result (λ whole. (whole ≡ network) × IsNetwork (tables.net_of network)) }
    ensures err { IfErr result (λ e. IsMemory e ⊎ (e ≡ fault_at link_cycle places.None)) }
{
    let net = net_of(alloc, &network)?;
    if !is_network(alloc, &net)? {
        return Err(Fault::bare(refusals::LINK_CYCLE));
    }
    Ok(WholeNetwork { network, net })
}

/// Returns the whole network that a text describes.
///
/// Fails, at no place, with 101 if the text is no JSON text; as [`read_network_within`] does; and as [`ranked_network`]
/// does.
fn network_in(alloc: Global, octets: &[u8]) -> Result<WholeNetwork, Fault>
    ensures ok { IfOk result (IsWholeNetwork octets.now) }
    ensures err { IfErr result (λ e. IsMemory e ⊎ IsRefusedWhole octets.now e) }
{
    let value = value_of(alloc, octets)?;
    let network = read_network_within(alloc, &value, WHOLE_SIZES)?;
    ranked_network(alloc, network)
}

/// Returns the traffic that a text describes, for a network.
///
/// Fails, at no place, with 101 if the text is no JSON text, and as [`read_traffic_within`] does.
fn traffic_in(alloc: Global, octets: &[u8], network: &NetworkDocument) -> Result<Traffic, Fault>
    ensures ok { IfOk result (IsWholeTraffic network.now octets.now) }
    ensures err { IfErr result (λ e. IsMemory e
        ⊎ IsFirstFault (whole_traffic_faults network.now) octets.now e) }
{
    let value = value_of(alloc, octets)?;
    read_traffic_within(alloc, &value, network, MOST)
}

/// Reads the network document of a whole in a source's octets, and reports the outcome to the explainer.
///
/// Fails as [`network_in`] does; with 901, at no place, if a read fails or the source hasn't ended after 4,294,967,296
/// calls; and with 900 if out of memory.
fn read_whole_network<R: Source, E: JoinExplainer>(
    alloc: Global,
    source: &mut R,
    explainer: &mut E,
) -> Result<WholeNetwork, Fault>
    ensures ok { IfOk result (λ whole. MayHaveLeft (R.left source.old)
        (λ octets. IsWholeNetwork octets whole)) }
    ensures err { IfErr result (λ e. IsMemory e
        ⊎ (CannotRead R.left R.calls R.failed source.old source.new e
        ⊎ MayHaveLeft (R.left source.old) (λ octets. IsRefusedWhole octets e))) }
{
    let octets = read_whole(alloc, source)?;
    let read = network_in(alloc, octets.as_slice());
    match &read {
        Ok(whole) => explainer.on_whole_network(octets.as_slice(), whole.network()),
        Err(fault) => explainer.on_refused_whole_network(octets.as_slice(), fault),
    }
    read
}

/// Reads the traffic declaration of a whole in a source's octets, and reports the outcome to the explainer.
///
/// Fails as [`read_whole_network`] does, but as [`traffic_in`] instead of [`network_in`].
fn read_whole_traffic<R: Source, E: JoinExplainer>(
    alloc: Global,
    source: &mut R,
    network: &NetworkDocument,
    explainer: &mut E,
) -> Result<Traffic, Fault>
    ensures ok { IfOk result (λ traffic. MayHaveLeft (R.left source.old)
        (λ octets. IsWholeTraffic network.now octets traffic)) }
    ensures err { IfErr result (λ e. IsMemory e
        ⊎ (CannotRead R.left R.calls R.failed source.old source.new e
        ⊎ MayHaveLeft (R.left source.old) (λ octets. IsFirstFault
        (whole_traffic_faults network.now) octets e))) }
{
    let octets = read_whole(alloc, source)?;
    let read = traffic_in(alloc, octets.as_slice(), network);
    match &read {
        Ok(traffic) => explainer.on_whole_traffic(octets.as_slice(), network, traffic),
        Err(fault) => explainer.on_refused_whole_traffic(octets.as_slice(), network, fault),
    }
    read
}

/// Reads the network document of a whole and then, if it is accepted, the traffic declaration.
///
/// Fails with the first fault of the two; with 901, at no place, if a read fails or a source hasn't ended after
/// 4,294,967,296 calls; and with 900 if out of memory.
pub(crate) fn read_both<N: Source, T: Source, E: JoinExplainer>(
    alloc: Global,
    network: &mut N,
    traffic: &mut T,
    explainer: &mut E,
) -> Result<Whole, Fault>
    ensures network { IfOk result (λ whole. MayHaveLeft (N.left network.old)
        (λ octets. IsWholeNetwork octets whole.network)) }
    ensures traffic { IfOk result (λ whole. MayHaveLeft (T.left traffic.old)
        (λ octets. IsWholeTraffic whole.network octets whole.traffic)) }
    ensures err { IfErr result (λ e. IsMemory e
        ⊎ (CannotRead N.left N.calls N.failed network.old network.new e
        ⊎ (CannotRead T.left T.calls T.failed traffic.old traffic.new e
        ⊎ BothMayHaveLeft (N.left network.old) (T.left traffic.old)
        (λ n t. IsRefusedByWhole n t e)))) }
    ensures order { IfWholeFaulty (N.left network.old) (traffic.new ≡ traffic.old) }
{
    let network = read_whole_network(alloc, network, explainer)?;
    let traffic = read_whole_traffic(alloc, traffic, network.network(), explainer)?;
    Ok(Whole { network, traffic })
}
