//! The plan of a network: its tables by number, the rank order of its collecting processes, and its layouts. The types
//! of the document that it is made from (`fx_topology`) are re-exported.
#![tactic(auto)]

mod cycle;
mod exporter_place;
mod exporters;
mod holders;
mod labels;
mod laws;
mod layouts;
mod plan;
mod points;
mod processes;
mod ranks;

pub use fx_topology::{
    LinkTable, NamedLink, NetworkDevice, NetworkDocument, Report, Sizes, read_network,
    read_network_within,
};
pub use laws::{documents_name_axes, plans_have_complete_runs};
pub use plan::{Plan, net_of, read_plan};
