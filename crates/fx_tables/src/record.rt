//! Flow records: a key and what was counted under it.
ghost use Rattle.std.specs.Prelude.{◌≡◌, []};

use fx_base::Counts;
use fx_layout::{Key, Layout};

/// A flow record: a key, and the packets and octets that were counted under it.
#[derive(Debug, Drop)]
pub struct Record {
    pub key: Key,
    pub counts: Counts,
}

impl Record {
    /// Returns the layout of the record's key.
    pub fn layout(&self) -> &Layout
        ensures { result.now ≡ self.now.key.layout }
    {
        self.key.layout()
    }

    /// Returns a record of no packets, under the key that all packets have.
    pub fn of_all() -> Record
        ensures { result ≡ record {
          key = record { layout = []; values = [] };
          counts = record { packets = 0; octets = 0 };
        } }
    {
        Record {
            key: Key::of_all(),
            counts: Counts {
                packets: 0,
                octets: 0,
            },
        }
    }

    /// Returns a copy of the record.
    pub fn copy(&self) -> Record
        ensures { result ≡ self.now }
    {
        Record {
            key: self.key.copy(),
            counts: self.counts,
        }
    }
}
