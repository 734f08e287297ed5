//! Lists of flow records.
ghost use Rattle.std.specs.Prelude.{◌≡◌, ◌++◌, ◌-◌, ◌==◌, [], ◌∷◌, length, take, OnOk, OnErr, slice_get};
ghost use Rattle.fx_base.specs.Entries.{now_of, entry_numbered};
ghost use Rattle.fx_machine.specs.States as states;
ghost use Rattle.fx_tables.specs.Network.{entries};

use fx_base::{entry_at, entry_numbered};
use fx_tables::Record;
use std::alloc::{AllocError, Global};
use std::marker::Model;

/// A list of records, in order of arrival.
#[derive(Debug)]
pub struct Records {
    pub(crate) items: Vec<Record>,
}

impl Drop for Records {
    /// Drops its parts here, so that each drop elsewhere is one call.
    fn drop(self) {
        let Self { items: _ } = self;
    }
}

impl Model for Records {
    ghost use Rattle.std.specs.Prelude.{List};
    ghost use Rattle.fx_tables.specs.declared.record.Record as of_record;

    ghost Value = { List of_record.Record };

    ghost view = { λ r. r.items.items };
}

impl Records {
    /// Returns no records.
    pub fn new(alloc: Global) -> Records
        ensures { result ≡ [] }
    {
        Records {
            items: Vec::new(alloc),
        }
    }

    /// Returns the records, in order of arrival.
    pub fn as_slice(&self) -> &[Record]
        ensures { result.now ≡ self.now }
    {
        self.items.as_slice()
    }

    /// Appends a record.
    pub fn push(&mut self, entry: Record) -> Result<(), AllocError>
        ensures ok { OnOk result (self.new ≡ self.old ++ entry ∷ []) }
        ensures err { OnErr result (self.new ≡ self.old) }
    {
        self.items.push(entry)?;
        Ok(())
    }

    /// Removes the last record, if there is one.
    pub fn drop_last(&mut self)
        ensures { self.new ≡ take (length self.old - 1) self.old }
    {
        self.items.pop();
    }

    /// Returns the record with this 1-based number.
    pub fn record_numbered(&self, number: u64) -> Option<&Record>
        ensures { now_of result ≡ entry_numbered self.now number }
    {
        entry_numbered(self.items.as_slice(), number)
    }

    /// Returns whether there are no records.
    pub fn is_empty(&self) -> bool
        ensures { result ≡ (length self.now == 0) }
    {
        self.items.is_empty()
    }

    /// Removes the record with this number, if it exists, and moves those after it up.
    pub fn take_out(&mut self, number: u64)
        ensures { self.new ≡ states.without self.old number }
    {
        if number > 0 && number <= self.items.len() as u64 {
            let index = (number - 1) as usize;
            self.items.remove(index);
        }
    }
}

/// Returns the records of the list at this 0-based index, or none if there is no such list.
pub fn records_at(lists: &[Records], index: usize) -> &[Record]
    ensures { result.now ≡ entries (slice_get lists.now index) }
{
    match entry_at(lists, index) {
        None => &[],
        Some(records) => records.as_slice(),
    }
}
