//! The selection processes that a path meets, with those that matter for a region before the others.
ghost use Rattle.std.specs.Prelude.{◌≡◌, ◌≤◌, ◌<◌, ◌+◌, ◌++◌, ◌∷◌, ◌↔◌, [], ℕ, drop, length, slice_index_or, IfOk, IfSome, IsTrue, OnOk};
ghost use Rattle.std.specs.List.Sorted.{IsPermutation};
ghost use Rattle.fx_base.specs.Entries.{entry_numbered};
ghost use Rattle.fx_tables.specs.Network as network;
ghost use Rattle.fx_leaf.specs.PathSelections as of_path;

use crate::leaf::Counted;
use crate::regions::bounds_hold;
use fx_boxes::Region;
use fx_tables::{Crossing, Net, Point, Selection};
use std::alloc::{AllocError, Global};
use std::marker::Model;

/// A selection process of a point that watches a crossing of a path.
#[derive(Debug, Drop)]
pub(crate) struct PathSelection<'a> {
    /// The 1-based numbers of the crossing, the point and the process.
    pub(crate) numbers: Counted,
    pub(crate) selection: &'a Selection,
}

impl<'a> Model for PathSelection<'a> {
    ghost use Rattle.fx_leaf.specs.PathSelections.{PathSelection};

    ghost Value = { PathSelection };

    ghost view = { λ s. record {
      crossing = s.numbers.crossing;
      point = s.numbers.point;
      process = s.numbers.process;
      selection = s.selection.now;
    } };
}

/// The selection processes of a path, in room that is reserved beforehand.
#[derive(Debug, Drop)]
pub(crate) struct PathSelections<'a> {
    items: Vec<PathSelection<'a>>,
}

impl<'a> Model for PathSelections<'a> {
    ghost use Rattle.std.specs.Prelude.{vec_capacity};
    ghost use Rattle.fx_leaf.specs.PathSelections.{SelectionRoom};

    ghost Value = { SelectionRoom };

    ghost view = { λ s. record { items = s.items.items; room = vec_capacity s.items } };
}

/// Returns whether a selection process counts no packet of the region: it has no cache, or selects none of them.
fn is_apart(region: &Region, selection: &Selection) -> bool
    ensures { IsTrue result ↔ of_path.IsApart region.now selection.now }
{
    if selection.holder.is_none() {
        return true;
    }
    match &selection.region {
        None => true,
        Some(other) => region.disjoint(other),
    }
}

/// Moves those of the first `active` selection processes that count packets of the region before the others, and
/// returns their number.
fn narrow(selections: &mut [PathSelection<'_>], region: &Region, active: usize) -> usize
    requires within { active ≤ length selections.old }
    requires narrowed { of_path.IsNarrowed selections.old region.now active }
    ensures narrowed { of_path.IsNarrowed selections.new region.now result }
    ensures overlapping { (k : ℕ) (d : of_path.PathSelection) → k < result
        → of_path.IsApart region.now (slice_index_or selections.new k d).selection → ⊥ }
    ensures fewer { result ≤ active }
    ensures moved { IsPermutation selections.old selections.new }
    ensures others { (k : ℕ) (d : of_path.PathSelection) → active ≤ k
        → slice_index_or selections.new k d ≡ slice_index_or selections.old k d }
{
    let mut kept = 0;
    for index in 0..active {
        let met = &selections[index];
        if !is_apart(region, met.selection) {
            selections.swap(kept, index);
            kept += 1;
        }
    }
    kept
}

impl<'a> PathSelections<'a> {
    /// Returns empty room for `room` selection processes.
    ///
    /// Fails if out of memory.
    pub(crate) fn new(alloc: Global, room: usize) -> Result<PathSelections<'a>, AllocError>
        ensures { IfOk result (λ s. (s.items ≡ []) × (s.room ≡ room)) }
    {
        Ok(PathSelections {
            items: Vec::with_capacity(alloc, room)?,
        })
    }

    /// Reserves room for `count` selection processes.
    ///
    /// Fails if out of memory.
    pub(crate) fn reserve(&mut self, count: usize) -> Result<(), AllocError>
        ensures ok { OnOk result (count ≤ self.new.room) }
        ensures more { self.old.room ≤ self.new.room }
        ensures items { self.new.items ≡ self.old.items }
    {
        self.items.reserve_exact(count)
    }

    /// Returns their number.
    pub(crate) fn len(&self) -> usize
        ensures { result ≡ length self.now.items }
    {
        self.items.len()
    }

    /// Returns all of them.
    pub(crate) fn as_slice(&self) -> &[PathSelection<'a>]
        ensures { result.now ≡ self.now.items }
    {
        self.items.as_slice()
    }

    /// Removes all of them.
    fn clear(&mut self)
        ensures items { self.new.items ≡ [] }
        ensures room { self.old.room ≤ self.new.room }
    {
        self.items.clear();
    }

    /// Appends a selection process, for which there is room.
    fn push(&mut self, selection: PathSelection<'a>)
        requires { length self.old.items < self.old.room }
        ensures items { self.new.items ≡ self.old.items ++ selection.entry ∷ [] }
        ensures room { self.old.room ≤ self.new.room }
    {
        match self.items.push(selection) {
            Ok(()) => {}
            Err(_) => unreachable!(),
        }
    }

    /// Appends the selection processes of a point with this number, at a crossing with this number.
    fn push_processes(&mut self, crossing: u64, point: u64, processes: &'a [Selection])
        requires { length self.old.items + length processes.now ≤ self.old.room }
        ensures items { self.new.items ≡ self.old.items
            ++ of_path.point_selections crossing point 1 processes.now }
        ensures room { self.old.room ≤ self.new.room }
    {
        for index in 0..processes.len() {
            self.push(PathSelection {
                numbers: Counted {
                    crossing,
                    point,
                    process: (index + 1) as u64,
                },
                selection: &processes[index],
            });
        }
    }

    /// Appends the selection processes of a point, if it watches the crossing.
    fn push_point(&mut self, number: u64, place: u64, crossing: &Crossing, point: &'a Point)
        requires { length self.old.items
            + length (of_path.watching_selections number place crossing.now point.now)
            ≤ self.old.room }
        ensures items { self.new.items ≡ self.old.items
            ++ of_path.watching_selections number place crossing.now point.now }
        ensures room { self.old.room ≤ self.new.room }
    {
        if point.watches(crossing) {
            self.push_processes(number, place, point.selections());
        }
    }

    /// Appends the selection processes of the points that watch a crossing.
    fn push_points(&mut self, number: u64, crossing: &Crossing, points: &'a [Point])
        requires { length self.old.items
            + length (of_path.crossing_selections number 1 points.now crossing.now)
            ≤ self.old.room }
        ensures items { self.new.items ≡ self.old.items
            ++ of_path.crossing_selections number 1 points.now crossing.now }
        ensures room { self.old.room ≤ self.new.room }
    {
        for index in 0..points.len() {
            self.push_point(number, (index + 1) as u64, crossing, &points[index]);
        }
    }

    /// Appends the selection processes of the points that watch the crossings of a path.
    fn push_path(&mut self, net: &'a Net, path: &[Crossing])
        requires { length self.old.items + length (of_path.path_selections net.now 1 path.now)
            ≤ self.old.room }
        ensures items { self.new.items ≡ self.old.items
            ++ of_path.path_selections net.now 1 path.now }
        ensures room { self.old.room ≤ self.new.room }
    {
        for index in 0..path.len() {
            let crossing = &path[index];
            self.push_points((index + 1) as u64, crossing, net.points_of(crossing.device));
        }
    }

    /// Replaces the contents by the selection processes of a path, in order, for which there is room.
    pub(crate) fn fill(&mut self, net: &'a Net, path: &[Crossing])
        requires { length (of_path.path_selections net.now 1 path.now) ≤ self.old.room }
        ensures items { self.new.items ≡ of_path.path_selections net.now 1 path.now }
        ensures room { self.old.room ≤ self.new.room }
    {
        self.clear();
        self.push_path(net, path);
    }

    /// Moves those of the first `active` that count packets of the region before the others, and returns their number.
    pub(crate) fn narrow(&mut self, region: &Region, active: usize) -> usize
        requires within { active ≤ length self.old.items }
        requires narrowed { of_path.IsNarrowed self.old.items region.now active }
        ensures narrowed { of_path.IsNarrowed self.new.items region.now result }
        ensures overlapping { (k : ℕ) (d : of_path.PathSelection) → k < result
            → of_path.IsApart region.now (slice_index_or self.new.items k d).selection → ⊥ }
        ensures fewer { result ≤ active }
        ensures moved { IsPermutation self.old.items self.new.items }
        ensures others { (k : ℕ) (d : of_path.PathSelection) → active ≤ k
            → slice_index_or self.new.items k d ≡ slice_index_or self.old.items k d }
        ensures room { self.old.room ≤ self.new.room }
    {
        narrow(&mut self.items, region, active)
    }
}

/// Returns how many selection processes the point has, if it watches the crossing.
fn count_at(crossing: &Crossing, point: &Point) -> usize
    ensures { (number n : ℕ)
        → length (of_path.watching_selections number n crossing.now point.now) ≡ result }
{
    if point.watches(crossing) {
        point.selections().len()
    } else {
        0
    }
}

/// Returns how many selection processes the points that watch a crossing have, or None if there are 2 to the 64 or
/// more.
fn count_on_crossing(crossing: &Crossing, points: &[Point]) -> Option<usize>
    ensures { IfSome result (λ count. (number n : ℕ)
        → length (of_path.crossing_selections number n points.now crossing.now) ≡ count) }
{
    let mut count: usize = 0;
    for point in points {
        count = count.checked_add(count_at(crossing, point))?;
    }
    Some(count)
}

/// Returns how many selection processes a path meets, or None if there are 2 to the 64 or more.
pub(crate) fn count_on_path(net: &Net, path: &[Crossing]) -> Option<usize>
    ensures { IfSome result (λ count. (n : ℕ)
        → length (of_path.path_selections net.now n path.now) ≡ count) }
{
    let mut count: usize = 0;
    for crossing in path {
        count = count.checked_add(count_on_crossing(crossing, net.points_of(crossing.device))?)?;
    }
    Some(count)
}
