//! Pending crossings.
ghost use Rattle.std.specs.Prelude.{◌≡◌, ◌≤◌, IfOk, Some, true, false, replicate};
ghost use Rattle.fx_machine.specs.Comings as comings;
ghost use Rattle.fx_machine.specs.States as states;

use fx_base::entry_numbered;
use std::alloc::{AllocError, Global};
use std::marker::Model;

/// The number of marks that are kept in a list itself: with these it takes no more room than with one.
const FEW: usize = 14;

/// A few marks.
#[derive(Debug, Drop)]
struct FewMarks {
    marks: [bool; FEW],
    count: u8,
}

impl Model for FewMarks {
    ghost use Rattle.std.specs.Prelude.{◌≤◌, Bool, List, take};

    ghost Value = { List Bool };

    ghost view = { λ f. take f.count f.marks };

    ghost invariant = { λ f. f.count ≤ 14 };
}

/// A list of marks, which allocates only for more than a few.
#[derive(Debug, Drop)]
enum MarkList {
    Few(FewMarks),
    Many(Box<Vec<bool>>),
}

/// Which crossings of a packet are pending, in the order of its path.
#[derive(Debug, Drop)]
pub struct Marks {
    list: MarkList,
}

impl Model for Marks {
    ghost use Rattle.std.specs.Prelude.{Bool, List};
    ghost use Rattle.fx_machine.specs.MarkLists as lists;

    ghost Value = { List Bool };

    ghost view = { λ m. lists.marks_in m.list };
}

impl FewMarks {
    /// Returns this small number of crossings, all pending.
    fn new(count: usize) -> FewMarks
        requires { count ≤ FEW }
        ensures { result ≡ replicate count true }
    {
        FewMarks {
            marks: [true; FEW],
            count: count as u8,
        }
    }

    /// Returns the marks, in order.
    fn as_slice(&self) -> &[bool]
        ensures { result.now ≡ self.now }
    {
        &self.marks[..self.count as usize]
    }

    /// Marks the crossing with this number as no longer pending.
    fn clear(&mut self, crossing: u64)
        ensures { self.new ≡ states.with_entry self.old crossing false }
    {
        if crossing == 0 || crossing > self.count as u64 {
            return;
        }
        let index = (crossing - 1) as usize;
        self.marks[index] = false;
    }
}

/// Returns this many crossings, all pending.
fn many_marks(alloc: Global, count: usize) -> Result<Box<Vec<bool>>, AllocError>
    ensures { IfOk result (λ many. many.value.items ≡ replicate count true) }
{
    let mut many: Vec<bool> = Vec::with_capacity(alloc, count)?;
    for _crossing in 0..count {
        many.push(true)?;
    }
    Ok(Box::new(alloc, many)?)
}

/// Marks the crossing with this number as no longer pending.
fn clear_mark(marks: &mut [bool], crossing: u64)
    ensures { marks.new ≡ states.with_entry marks.old crossing false }
{
    if crossing == 0 || crossing > marks.len() as u64 {
        return;
    }
    let index = (crossing - 1) as usize;
    marks[index] = false;
}

impl Marks {
    /// Returns this many crossings, all pending.
    pub fn new(alloc: Global, count: usize) -> Result<Marks, AllocError>
        ensures { IfOk result (λ marks. marks ≡ comings.marks count) }
    {
        if count <= FEW {
            return Ok(Marks {
                list: MarkList::Few(FewMarks::new(count)),
            });
        }
        Ok(Marks {
            list: MarkList::Many(many_marks(alloc, count)?),
        })
    }

    /// Returns the marks, in order.
    fn as_slice(&self) -> &[bool]
        ensures { result.now ≡ self.now }
    {
        match &self.list {
            MarkList::Few(few) => few.as_slice(),
            MarkList::Many(many) => many.as_slice(),
        }
    }

    /// Returns whether the crossing with this number is pending.
    fn has(&self, crossing: u64) -> bool
        ensures { result ≡ comings.has_mark (Some self.now) crossing }
    {
        match entry_numbered(self.as_slice(), crossing) {
            None => false,
            Some(mark) => *mark,
        }
    }

    /// Marks the crossing with this number as no longer pending.
    fn clear(&mut self, crossing: u64)
        ensures { self.new ≡ states.with_entry self.old crossing false }
    {
        match &mut self.list {
            MarkList::Few(few) => few.clear(crossing),
            MarkList::Many(many) => clear_mark(many.as_mut_slice(), crossing),
        }
    }

    /// Returns whether no crossing is pending.
    fn none(&self) -> bool
        ensures { result ≡ comings.none_marked self.now }
    {
        for mark in self.as_slice() {
            if *mark {
                return false;
            }
        }
        true
    }
}

/// Returns whether a crossing of a packet is pending, by their numbers.
pub fn is_to_come(to_come: &[Marks], packet: u64, crossing: u64) -> bool
    ensures { result ≡ comings.has_mark_at to_come.now packet crossing }
{
    match entry_numbered(to_come, packet) {
        None => false,
        Some(marks) => marks.has(crossing),
    }
}

/// Marks a crossing of a packet as no longer pending.
pub fn clear(to_come: &mut Vec<Marks>, packet: u64, crossing: u64)
    ensures { to_come.new.items ≡ comings.without_mark to_come.old.items packet crossing }
{
    if packet == 0 || packet > to_come.len() as u64 {
        return;
    }
    let index = (packet - 1) as usize;
    let marks = &mut to_come[index];
    marks.clear(crossing);
}

/// Returns whether no crossing of any packet is pending.
pub fn all_crossed(to_come: &[Marks]) -> bool
    ensures { result ≡ comings.all_crossed to_come.now }
{
    for marks in to_come {
        if !marks.none() {
            return false;
        }
    }
    true
}
