//! The configuration of one device: the module `ietf-ipfix-psamp` of RFC 6728 in the JSON of RFC 7951.
#![tactic(auto)]

mod aggregation;
mod cache;
mod cache_field;
mod cache_layout;
mod collecting_process;
mod destination;
mod device;
mod element;
mod entry_name;
mod exporting_process;
mod ipfix;
mod key;
mod key_field;
mod limits;
mod observation_point;
mod property_match;
mod references;
mod selection_process;
mod selector;

pub use aggregation::Aggregation;
pub use cache::{Cache, CacheKind};
pub use collecting_process::CollectingProcess;
pub use destination::{Destination, Transport};
pub use device::{DeviceReader, read_device};
pub use exporting_process::{ExportMode, ExportingProcess};
pub use ipfix::Device;
pub use key_field::{KeyField, KeyFieldReader, part_of};
pub use observation_point::{Direction, ObservationPoint};
pub use property_match::PropertyMatch;
pub use selection_process::SelectionProcess;
pub use selector::{Method, Selector};
