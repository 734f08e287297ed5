//! Records taken from messages.
ghost use Rattle.std.specs.Prelude.{◌≡◌, ◌+◌, ◌%◌, ◌^◌, ◌≤◌, ◌<◌, [], ◌∷◌, ◌++◌, length, take, slice_range, OnOk, OnErr, Some, None};
ghost use Rattle.fx_session.specs.DataSets as sets;
ghost use Rattle.fx_session.specs.Calls.{Grows};
ghost use Rattle.fx_session.specs.Places.{ArePlacesIn, record_by};

use crate::places::RecordPlaces;
use fx_layout::Values;
use fx_tables::Record;
use std::alloc::{AllocError, Global};
use std::marker::Model;

/// The waiting records, the number of skipped ones modulo 2 to the 64, and the number of data records of the message so
/// far, modulo 2 to the 32.
///
/// The records from `start` to `end` wait. The others are places for later records, so that a record that is read at
/// its places is assembled where it waits.
#[derive(Drop)]
pub(crate) struct TakenRecords {
    records: Vec<Record>,
    start: usize,
    end: usize,
    skipped: u64,
    count: u32,
}

impl Model for TakenRecords {
    ghost use Rattle.std.specs.Prelude.{◌≤◌, length, slice_range};
    ghost use Rattle.fx_session.specs.DataSets as sets;

    ghost Value = { sets.Taken };

    ghost view = { λ t. record {
      waiting = slice_range t.records.items t.start t.end;
      skipped = t.skipped;
      count = t.count;
    } };

    ghost invariant = { λ t. (t.start ≤ t.end) × (t.end ≤ length t.records.items) };
}

/// Moves the records from `start` to `end` to the front if they are at the end of the list and the front has room for
/// them all, so that the places before them are used again.
fn use_front_again(records: &mut Vec<Record>, start: &mut usize, end: &mut usize)
    requires { (start.old ≤ end.old) × (end.old ≤ length records.old.items) }
    ensures same { slice_range records.new.items start.new end.new
        ≡ slice_range records.old.items start.old end.old }
    ensures bounds { (start.new ≤ end.new) × (end.new ≤ length records.new.items) }
{
    if *end == records.len() && *end - *start <= *start {
        records.rotate_left(*start);
        *end -= *start;
        *start = 0;
    }
}

/// Makes a place after the records from `start` to `end`, at the front or at the end of the list.
///
/// Fails if out of memory.
fn make_place(
    records: &mut Vec<Record>,
    start: &mut usize,
    end: &mut usize,
) -> Result<(), AllocError>
    requires { (start.old ≤ end.old) × (end.old ≤ length records.old.items) }
    ensures same { slice_range records.new.items start.new end.new
        ≡ slice_range records.old.items start.old end.old }
    ensures bounds { (start.new ≤ end.new) × (end.new ≤ length records.new.items) }
    ensures room { OnOk result (end.new < length records.new.items) }
{
    use_front_again(records, start, end);
    if *end == records.len() {
        records.push(Record::of_all())?;
    }
    Ok(())
}

/// Finds a place after the records from `start` to `end`, and makes one only if there is none.
///
/// Fails if out of memory.
fn find_place(
    records: &mut Vec<Record>,
    start: &mut usize,
    end: &mut usize,
) -> Result<(), AllocError>
    requires { (start.old ≤ end.old) × (end.old ≤ length records.old.items) }
    ensures same { slice_range records.new.items start.new end.new
        ≡ slice_range records.old.items start.old end.old }
    ensures bounds { (start.new ≤ end.new) × (end.new ≤ length records.new.items) }
    ensures room { OnOk result (end.new < length records.new.items) }
{
    if *end < records.len() {
        return Ok(());
    }
    make_place(records, start, end)
}

impl TakenRecords {
    /// Creates the state in which nothing was taken.
    pub fn new(alloc: Global) -> TakenRecords
        ensures { result ≡ record { waiting = []; skipped = 0; count = 0 } }
    {
        TakenRecords {
            records: Vec::new(alloc),
            start: 0,
            end: 0,
            skipped: 0,
            count: 0,
        }
    }

    /// Begins a message: sets the number of its data records to 0.
    pub fn start(&mut self)
        ensures { self.new ≡ record {
          waiting = self.old.waiting;
          skipped = self.old.skipped;
          count
              = 0;
        } }
    {
        self.count = 0;
    }

    /// Counts a data record and adds its flow record to the waiting ones.
    ///
    /// Fails if out of memory, and then nothing is taken.
    #[tactic(auto, using(crate::proofs::PlacesThatWait::one_more_waits))]
    pub fn add(&mut self, flow: Record) -> Result<(), AllocError>
        ensures ok { OnOk result (self.new ≡ sets.with_flow self.old (Some flow)) }
        ensures same { OnErr result (self.new ≡ self.old) }
        ensures grows { Grows self.old.waiting self.new.waiting }
    {
        find_place(&mut self.records, &mut self.start, &mut self.end)?;
        self.records[self.end] = flow;
        self.end += 1;
        self.pass();
        Ok(())
    }

    /// Counts the data record at the front of the octets, and adds its flow record, which is read at its places, to the
    /// waiting ones. The values of its key are assembled in `values`.
    ///
    /// Fails if out of memory, and then nothing is taken.
    #[tactic(auto, using(crate::proofs::PlacesThatWait::one_more_waits))]
    pub fn add_at(
        &mut self,
        places: &RecordPlaces,
        octets: &[u8],
        values: &mut Values,
    ) -> Result<(), AllocError>
        requires { ArePlacesIn (length octets.now) places.now }
        ensures ok { OnOk result (self.new
            ≡ sets.with_flow self.old (Some (record_by places.now octets.now))) }
        ensures same { OnErr result (self.new ≡ self.old) }
        ensures grows { Grows self.old.waiting self.new.waiting }
    {
        find_place(&mut self.records, &mut self.start, &mut self.end)?;
        places.read_record(octets, values, &mut self.records[self.end]);
        self.end += 1;
        self.pass();
        Ok(())
    }

    /// Counts a data record and adds its flow record to the waiting ones, or to the number of skipped ones if it has
    /// none.
    ///
    /// Fails if out of memory, and then nothing is taken.
    pub fn take(&mut self, flow: Option<Record>) -> Result<(), AllocError>
        ensures ok { OnOk result (self.new ≡ sets.with_flow self.old flow) }
        ensures same { OnErr result (self.new ≡ self.old) }
        ensures grows { Grows self.old.waiting self.new.waiting }
    {
        match flow {
            Some(flow) => self.add(flow),
            None => {
                self.skipped = self.skipped.wrapping_add(1);
                self.pass();
                Ok(())
            }
        }
    }

    /// Counts a data record that isn't read.
    pub fn pass(&mut self)
        ensures { self.new ≡ record {
          waiting = self.old.waiting;
          skipped = self.old.skipped;
          count
              = (self.old.count + 1) % 2 ^ 32;
        } }
    {
        self.count = self.count.wrapping_add(1);
    }

    /// Returns how many records wait.
    pub fn waiting(&self) -> usize
        ensures { result ≡ length self.now.waiting }
    {
        self.end - self.start
    }

    /// Returns the number of skipped records, modulo 2 to the 64.
    pub fn skipped(&self) -> u64
        ensures { result ≡ self.now.skipped }
    {
        self.skipped
    }

    /// Returns the number of data records of the message so far, modulo 2 to the 32.
    pub fn count(&self) -> u32
        ensures { result ≡ self.now.count }
    {
        self.count
    }

    /// Keeps the first `waiting` of the waiting records, and sets the number of skipped ones.
    pub fn cut_back(&mut self, waiting: usize, skipped: u64)
        ensures { self.new ≡ record {
          waiting = take waiting self.old.waiting;
          skipped = skipped;
          count = self.old.count;
        } }
    {
        self.end = self.start + waiting.min(self.end - self.start);
        self.skipped = skipped;
    }

    /// Removes and returns the first waiting record, if there is one.
    pub fn next(&mut self) -> Option<Record>
        ensures { sets.FirstLeaves self.old self.new result }
    {
        if self.start == self.end {
            return None;
        }
        let record = self.records[self.start].copy();
        self.start += 1;
        Some(record)
    }

    /// Returns the waiting records, in order: those of the first slice, then those of the second.
    pub fn records(&self) -> (&[Record], &[Record])
        ensures { self.now.waiting ≡ result.0.now ++ result.1.now }
    {
        (&self.records[self.start..self.end], &[])
    }

    /// Removes all waiting records.
    pub fn clear(&mut self)
        ensures { self.new ≡ record {
          waiting = [];
          skipped = self.old.skipped;
          count = self.old.count;
        } }
    {
        self.start = 0;
        self.end = 0;
    }
}
