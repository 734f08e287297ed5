//! Departure of records from caches and aggregations.
ghost use Rattle.std.specs.Prelude.{◌≡◌, is_some, OnOk, IfOk, IfErr};
ghost use Rattle.fx_base.specs.Fault.{IsMemory};
ghost use Rattle.fx_net.specs.Contents as contents;
ghost use Rattle.fx_net.specs.Leaving as leaving;

use crate::contents::Contents;
use crate::holding::count_at;
use crate::store::HolderStore;
use fx_base::{Counts, Fault};
use fx_layout::Key;
use fx_store::FlowStore;
use fx_tables::{Net, Record};

/// A record that leaves the holder at a 0-based place of the network's table.
#[derive(Drop)]
pub(crate) struct Leaver {
    pub(crate) holder: usize,
    pub(crate) flow: Record,
}

/// Removes and returns the entry of the least key of the holder at this place, if there is one.
fn take_least(stores: &mut Vec<Option<HolderStore>>, index: usize) -> Option<(Key, Counts)>
    ensures value { result ≡ leaving.least_of (contents.stored_at stores.old.items index) }
    ensures rest { stores.new.items ≡ leaving.without_least stores.old.items index }
{
    match stores.get_mut(index) {
        None => None,
        Some(store) => match store {
            None => None,
            Some(store) => store.take_least(),
        },
    }
}

impl Contents {
    /// Sends a record from the exporting processes that its holder names.
    ///
    /// Fails with 900, at no place, if out of memory.
    pub(crate) fn leave(&mut self, net: &Net, leaver: &Leaver) -> Result<(), Fault>
        ensures ok { OnOk result (self.new ≡ leaving.after_leave net.now leaver.now self.old) }
        ensures err { IfErr result IsMemory }
    {
        self.send(net, net.named_by(leaver.holder), &leaver.flow)
    }

    /// Sends several leaving records, one after another.
    ///
    /// Fails with 900, at no place, if out of memory.
    pub(crate) fn leave_all(&mut self, net: &Net, leavers: &[Leaver]) -> Result<(), Fault>
        ensures ok { OnOk result (self.new ≡ leaving.after_leaves net.now leavers.now self.old) }
        ensures err { IfErr result IsMemory }
    {
        for leaver in leavers {
            self.leave(net, leaver)?;
        }
        Ok(())
    }

    /// Lets the record of the least key of the holder at this place leave, and returns whether there was one.
    ///
    /// Fails with 900, at no place, if out of memory.
    pub(crate) fn expire_least(&mut self, net: &Net, index: usize) -> Result<bool, Fault>
        ensures ok { OnOk result (self.new ≡ leaving.after_least net.now index self.old) }
        ensures there { IfOk result (λ there. there ≡ is_some (leaving.least_at self.old index)) }
        ensures err { IfErr result IsMemory }
    {
        let Some((key, counts)) = take_least(&mut self.stores, index) else {
            return Ok(false);
        };
        let leaver = Leaver {
            holder: index,
            flow: Record { key, counts },
        };
        self.leave(net, &leaver)?;
        Ok(true)
    }

    /// Lets all records of the holder at this place leave, the least key first.
    ///
    /// Fails with 900, at no place, if out of memory.
    pub(crate) fn empty(&mut self, net: &Net, index: usize) -> Result<(), Fault>
        ensures ok { OnOk result (self.new ≡ leaving.after_emptying net.now index self.old) }
        ensures err { IfErr result IsMemory }
    {
        let count = count_at(self.stores.as_slice(), index);
        for _done in 0..count {
            self.expire_least(net, index)?;
        }
        Ok(())
    }
}
