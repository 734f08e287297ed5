//! Collecting processes.
ghost use Rattle.std.specs.Prelude.{◌≡◌};

use crate::aggregation::AggregationEntry;
use std::marker::Model;

/// A collecting process (RFC 6728, section 4.5): the 0-based indices of its exporting processes, and its aggregations.
#[derive(Debug, Drop)]
pub struct Process {
    pub(crate) exporters: Vec<usize>,
    pub(crate) aggregations: Vec<AggregationEntry>,
}

impl Model for Process {
    ghost use Rattle.fx_tables.specs.Network as network;

    ghost Value = { network.Process };

    ghost view = { λ p. record {
      exporters = p.exporters.items;
      aggregations =
          p.aggregations.items;
    } };
}

impl Process {
    /// Returns a collecting process that names these exporting processes and has these aggregations.
    pub fn new(exporters: Vec<usize>, aggregations: Vec<AggregationEntry>) -> Process
        ensures { result ≡ record {
          exporters = exporters.items;
          aggregations =
              aggregations.items;
        } }
    {
        Process {
            exporters,
            aggregations,
        }
    }

    /// Returns the indices of the exporting processes that it names.
    pub fn exporters(&self) -> &[usize]
        ensures { result.now ≡ self.now.exporters }
    {
        self.exporters.as_slice()
    }

    /// Returns its aggregations.
    pub fn aggregations(&self) -> &[AggregationEntry]
        ensures { result.now ≡ self.now.aggregations }
    {
        self.aggregations.as_slice()
    }
}
