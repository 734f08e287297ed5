//! Contents of a running network.
use crate::store::HolderStore;
use fx_collect::Totals;
use fx_link::Link;
use std::marker::Model;

/// The contents of a running network between two steps: records in caches and aggregations, records and octets on
/// links, the destinations in use, and the collector's totals.
#[derive(Drop)]
pub(crate) struct Contents {
    /// The store of each cache and of each aggregation; an immediate cache has none.
    pub(crate) stores: Vec<Option<HolderStore>>,
    pub(crate) links: Vec<Link>,
    /// For each exporting process the 1-based number of the destination that it uses.
    pub(crate) chosen: Vec<u64>,
    pub(crate) totals: Totals,
    /// The second of the last packet that was read, 0 if none was.
    pub(crate) second: u32,
}

impl Model for Contents {
    ghost use Rattle.fx_net.specs.Contents as contents;
    ghost use Rattle.std.specs.Coded.{codes};
    ghost use Rattle.std.specs.FinMap.{code};

    ghost Value = { contents.Contents };

    ghost coded = { Prim.hlevel (codes, code) };

    ghost view = { λ c. record {
      stores = c.stores.items;
      links = c.links.items;
      chosen = c.chosen.items;
      totals = c.totals;
      second = c.second;
    } };
}
