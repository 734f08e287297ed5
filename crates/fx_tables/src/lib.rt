//! The tables of a network by number and by index, its classes of packets, and look-ups in them: where a packet is
//! metered, which aggregations take in a record, and which holder holds it.
#![tactic(auto)]

mod aggregation;
mod device;
mod exporter;
mod holder;
mod holder_name;
mod holding;
mod limits;
mod lookup;
mod metering;
mod net;
mod observation;
mod packet;
mod process;
mod record;
mod takers;
mod traffic;

pub use aggregation::{AggregationEntry, MatchEntry};
pub use device::DeviceEntry;
pub use exporter::Exporter;
pub use holder::Holder;
pub use holder_name::HolderName;
pub use holding::Holding;
pub use limits::LAYOUTS;
pub use net::Net;
pub use observation::{Occurrence, Point, Selection};
pub use packet::Packet;
pub use process::Process;
pub use record::Record;
pub use traffic::{Class, Classes, Crossing, Path};
