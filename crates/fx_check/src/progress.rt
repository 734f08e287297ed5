//! The progress of a checker through a certificate, and what a line does to it.
ghost use Rattle.std.specs.Prelude.{◌≡◌, ◌+◌, ◌<◌, ◌≤◌, [], List, ℕ, length, IfOk, IfErr, OnOk, OnErr, Ok, Err, Some, None};
ghost use Rattle.fx_cert.specs.declared.item.Item.TheVariants as of_item;
ghost use Rattle.fx_boxes.specs.Boxes.{IsStrictlyInside};
ghost use Rattle.fx_elements.specs.Axes.{axis_index};
ghost use Rattle.fx_leaf.specs.PathTables.{PathTable};
ghost use Rattle.fx_leaf.specs.Tables.{AreTables};
ghost use Rattle.fx_leaf.specs.Tables.{Tables as TableView};
ghost use Rattle.fx_check.specs.declared.stack.WaitingRegion.{WaitingRegion as OfWaiting};
ghost use Rattle.fx_check.specs.Judging.{Judge, judge_of};
ghost use Rattle.fx_check.specs.Remaining.{goals, rest_goals, HasNarrowed, IsNarrowedTo, IsConsistent, IsInTree, IsReady, map_result, below_waits, above_waits};
ghost use Rattle.fx_check.specs.Stops.{IsDue};
ghost use Rattle.fx_check.specs.FirstRefusal.{Goal, after, after_reading, split_answer, made_by, made_after, form_fault, reading_of, at_end, by_number};
ghost use Rattle.fx_check.specs.FirstRefusal.{depth_limit, line_limit};

use crate::due::Due;
use crate::judging::{leaf_fault, never_fault};
use crate::line_fault::LineFault;
use crate::stack::{DEPTH_LIMIT, Stack, WaitingRegion};
use fx_base::{Fault, Line};
use fx_cert::{Item, Version, read_item};
use fx_elements::Axis;
use fx_leaf::{Counted, PathScratch, Tables};
use fx_traffic::Target;
use std::alloc::{AllocError, Global};

/// The most split and leaf lines of a certificate.
const LINES: u32 = 1_000_000;

/// The part of a certificate that comes next.
#[derive(Clone, Copy)]
pub(crate) enum Stage {
    /// The first line.
    Header,
    /// The line of the current target, or the last line after all targets.
    Between,
    /// The tree of a region of the current target.
    Tree(WaitingRegion),
    /// Nothing: the last line was read.
    Ended,
}

/// The progress of a checker through a certificate.
#[derive(Drop)]
pub(crate) struct Progress {
    pub(crate) stage: Stage,
    /// The version that the first line names, 1 before it.
    pub(crate) version: Version,
    /// The 0-based place of the current target.
    pub(crate) current: usize,
    /// The upper parts of the splits above the current region.
    pub(crate) waiting: Stack,
    /// How many split and leaf lines were read.
    pub(crate) made: u32,
}

impl Progress {
    /// Creates the progress before the first line. Fails if out of memory.
    pub(crate) fn new(alloc: Global) -> Result<Progress, AllocError>
        ensures { IfOk result (λ c. (c.stage ≡ Stage.Header) × (c.current ≡ 0) × (c.waiting ≡ [])
            × (c.made ≡ 0)) }
    {
        Ok(Progress {
            stage: Stage::Header,
            version: Version::One,
            current: 0,
            waiting: Stack::new(alloc)?,
            made: 0,
        })
    }

    /// Takes an item between the trees.
    fn between<'t>(
        &mut self,
        scratch: &mut PathScratch<'t>,
        tables: &Tables<'t>,
        targets: &[Target<'_>],
        item: &Item,
    ) -> Result<(), LineFault>
        requires tables { AreTables tables.now }
        requires ready { IsReady tables.now targets.now self.old scratch.old }
        requires consistent { IsConsistent targets.now self.old }
        requires stage { self.old.stage ≡ Stage.Between }
        ensures after { (judge : Judge) → after judge self.old.made (goals targets.now self.old)
            item.now ≡ map_result result (goals targets.now self.new) }
        ensures consistent { IsConsistent targets.now self.new }
        ensures made { OnOk result (self.new.made ≡ made_by self.old.made item.now) }
        ensures ready { IsReady tables.now targets.now self.new scratch.new }
        ensures same { OnErr result (self.new ≡ self.old) }
    {
        if self.current < targets.len() {
            let target = &targets[self.current];
            if let Item::Class { class, path } = item {
                if *class == target.class && *path == target.path {
                    let active = scratch.begin(tables, target.crossings);
                    self.stage = Stage::Tree(WaitingRegion {
                        region: target.region,
                        depth: 0,
                        active,
                    });
                    return Ok(());
                }
            }
            return Err(LineFault::Place);
        }
        if let Item::End = item {
            self.stage = Stage::Ended;
            return Ok(());
        }
        Err(LineFault::Place)
    }

    /// Ends the tree of a region: the region on top is next, or the target is done.
    fn close_region(&mut self, targets: &[Target<'_>])
        requires consistent { IsConsistent targets.now self.old }
        requires stage { IsInTree self.old.stage }
        ensures goals { goals targets.now self.new ≡ rest_goals targets.now self.old }
        ensures consistent { IsConsistent targets.now self.new }
        ensures made { self.new.made ≡ self.old.made }
        ensures version { self.new.version ≡ self.old.version }
        ensures ready { (t : TableView) (room : PathTable) → IsReady t targets.now self.old room
            → IsReady t targets.now self.new room }
    {
        match self.waiting.pop() {
            Some(top) => {
                self.stage = Stage::Tree(top);
            }
            None => {
                self.current += 1;
                self.stage = Stage::Between;
            }
        }
    }

    /// Takes a leaf as the tree of a region.
    fn leaf<'t>(
        &mut self,
        scratch: &mut PathScratch<'t>,
        tables: &Tables<'t>,
        targets: &[Target<'_>],
        leaf: &Counted,
    ) -> Result<(), LineFault>
        requires tables { AreTables tables.now }
        requires ready { IsReady tables.now targets.now self.old scratch.old }
        requires consistent { IsConsistent targets.now self.old }
        requires stage { IsInTree self.old.stage }
        ensures after { after (judge_of tables.now.net) self.old.made (goals targets.now self.old)
            (of_item.Leaf leaf.now.crossing leaf.now.point leaf.now.process)
            ≡ map_result result (goals targets.now self.new) }
        ensures consistent { IsConsistent targets.now self.new }
        ensures made { OnOk result (self.new.made ≡ self.old.made + 1) }
        ensures ready { IsReady tables.now targets.now self.new scratch.new }
        ensures same { OnErr result (self.new ≡ self.old) }
    {
        let target = &targets[self.current];
        if target.exempt {
            return Err(LineFault::Place);
        }
        if self.made >= LINES {
            return Err(LineFault::LineCount);
        }
        let Stage::Tree(here) = &self.stage else {
            unreachable!();
        };
        if let Some(number) = leaf_fault(scratch, tables, target, here, leaf) {
            return Err(LineFault::Leaf(number));
        }
        self.made += 1;
        self.close_region(targets);
        Ok(())
    }

    /// Takes a leaf which says that nothing is counted as the tree of a region.
    fn never<'t>(
        &mut self,
        scratch: &mut PathScratch<'t>,
        tables: &Tables<'t>,
        targets: &[Target<'_>],
    ) -> Result<(), LineFault>
        requires tables { AreTables tables.now }
        requires ready { IsReady tables.now targets.now self.old scratch.old }
        requires consistent { IsConsistent targets.now self.old }
        requires stage { IsInTree self.old.stage }
        ensures after { after (judge_of tables.now.net) self.old.made (goals targets.now self.old)
            of_item.Never ≡ map_result result (goals targets.now self.new) }
        ensures consistent { IsConsistent targets.now self.new }
        ensures made { OnOk result (self.new.made ≡ self.old.made + 1) }
        ensures ready { IsReady tables.now targets.now self.new scratch.new }
        ensures same { OnErr result (self.new ≡ self.old) }
    {
        let target = &targets[self.current];
        if self.version == Version::One || !target.exempt {
            return Err(LineFault::Place);
        }
        if self.made >= LINES {
            return Err(LineFault::LineCount);
        }
        let Stage::Tree(here) = &self.stage else {
            unreachable!();
        };
        if let Some(number) = never_fault(scratch, tables, target, here) {
            return Err(LineFault::Leaf(number));
        }
        self.made += 1;
        self.close_region(targets);
        Ok(())
    }

    /// Enters the current region, moves the selection processes that count its packets to the front, and returns their
    /// number.
    fn narrow(&self, scratch: &mut PathScratch<'_>) -> usize
        requires narrowed { HasNarrowed self.now.stage self.now.waiting scratch.old.selections }
        requires stage { IsInTree self.now.stage }
        ensures { (w : OfWaiting) → self.now.stage ≡ Stage.Tree w
            → IsNarrowedTo scratch.old scratch.new w result }
    {
        let Stage::Tree(here) = &self.stage else {
            unreachable!();
        };
        // Looking at one selection process in a leaf costs no more than looking at it here.
        if here.active <= 1 {
            scratch.enter(&here.region);
            return here.active;
        }
        scratch.narrow(&here.region, here.active)
    }

    /// Takes a split of a region: its lower part is next, and its upper part waits.
    fn split(
        &mut self,
        scratch: &mut PathScratch<'_>,
        targets: &[Target<'_>],
        axis: Axis,
        at: u128,
    ) -> Result<(), LineFault>
        requires narrowed { HasNarrowed self.old.stage self.old.waiting scratch.old.selections }
        requires consistent { IsConsistent targets.now self.old }
        requires stage { IsInTree self.old.stage }
        ensures after { (judge : Judge) → after judge self.old.made (goals targets.now self.old)
            (of_item.Split axis at) ≡ map_result result (goals targets.now self.new) }
        ensures consistent { IsConsistent targets.now self.new }
        ensures made { OnOk result (self.new.made ≡ self.old.made + 1) }
        ensures ready { (t : TableView) → IsReady t targets.now self.old scratch.old
            → IsReady t targets.now self.new scratch.new }
        ensures same { OnErr result (self.new ≡ self.old) }
    {
        let active = self.narrow(scratch);
        let Stage::Tree(here) = &mut self.stage else {
            unreachable!();
        };
        let above = split_waiting(self.made, here, axis, at, active)?;
        self.waiting.push(above);
        self.made += 1;
        Ok(())
    }

    /// Takes an item of the tree of a region.
    fn within<'t>(
        &mut self,
        scratch: &mut PathScratch<'t>,
        tables: &Tables<'t>,
        targets: &[Target<'_>],
        item: &Item,
    ) -> Result<(), LineFault>
        requires tables { AreTables tables.now }
        requires ready { IsReady tables.now targets.now self.old scratch.old }
        requires consistent { IsConsistent targets.now self.old }
        requires stage { IsInTree self.old.stage }
        ensures after { after (judge_of tables.now.net) self.old.made (goals targets.now self.old)
            item.now ≡ map_result result (goals targets.now self.new) }
        ensures consistent { IsConsistent targets.now self.new }
        ensures made { OnOk result (self.new.made ≡ made_by self.old.made item.now) }
        ensures ready { IsReady tables.now targets.now self.new scratch.new }
        ensures same { OnErr result (self.new ≡ self.old) }
    {
        match item {
            Item::Leaf {
                crossing,
                point,
                process,
            } => {
                let leaf = Counted {
                    crossing: *crossing,
                    point: *point,
                    process: *process,
                };
                self.leaf(scratch, tables, targets, &leaf)
            }
            Item::Never => self.never(scratch, tables, targets),
            Item::Split { axis, at } => self.split(scratch, targets, *axis, *at),
            _ => Err(LineFault::Place),
        }
    }

    /// Takes an item.
    fn step<'t>(
        &mut self,
        scratch: &mut PathScratch<'t>,
        tables: &Tables<'t>,
        targets: &[Target<'_>],
        item: &Item,
    ) -> Result<(), LineFault>
        requires tables { AreTables tables.now }
        requires ready { IsReady tables.now targets.now self.old scratch.old }
        requires consistent { IsConsistent targets.now self.old }
        ensures after { after (judge_of tables.now.net) self.old.made (goals targets.now self.old)
            item.now ≡ map_result result (goals targets.now self.new) }
        ensures consistent { IsConsistent targets.now self.new }
        ensures made { OnOk result (self.new.made ≡ made_by self.old.made item.now) }
        ensures ready { IsReady tables.now targets.now self.new scratch.new }
        ensures same { OnErr result (self.new ≡ self.old) }
    {
        match self.stage {
            Stage::Ended => Err(LineFault::BehindEnd),
            Stage::Header => match item {
                Item::Header(version) => {
                    self.version = *version;
                    self.stage = Stage::Between;
                    Ok(())
                }
                _ => Err(LineFault::Header),
            },
            Stage::Between => self.between(scratch, tables, targets, item),
            Stage::Tree(_) => self.within(scratch, tables, targets, item),
        }
    }

    /// Returns what is wrong with a line that is no item's text.
    fn form_fault(&self, targets: &[Target<'_>]) -> LineFault
        requires { IsConsistent targets.now self.now }
        ensures { result ≡ form_fault (goals targets.now self.now) }
    {
        match self.stage {
            Stage::Header => LineFault::Header,
            Stage::Between => LineFault::Form,
            Stage::Tree(_) => LineFault::Form,
            Stage::Ended => LineFault::BehindEnd,
        }
    }

    /// Takes a line, or returns the first thing that is wrong with it, in this order: no line feed ends it, it follows
    /// the last line, the first line isn't `once-certificate` with its version, another is no item's text, an item
    /// isn't in its place or a leaf says where exempt packets are counted, split and leaf lines are too many, a split
    /// is too deep or isn't strictly inside its region, or something is wrong with a leaf.
    pub(crate) fn take<'t>(
        &mut self,
        scratch: &mut PathScratch<'t>,
        tables: &Tables<'t>,
        targets: &[Target<'_>],
        line: &Line<'_>,
    ) -> Result<(), LineFault>
        requires tables { AreTables tables.now }
        requires ready { IsReady tables.now targets.now self.old scratch.old }
        requires consistent { IsConsistent targets.now self.old }
        requires short { length line.now.bytes.now ≤ 4096 }
        ensures after { after_reading (judge_of tables.now.net) self.old.made
            (goals targets.now self.old) (reading_of (line.now.bytes.now, line.now.ended))
            ≡ by_number (map_result result (goals targets.now self.new)) }
        ensures consistent { IsConsistent targets.now self.new }
        ensures made { OnOk result (self.new.made
            ≡ made_after self.old.made (reading_of (line.now.bytes.now, line.now.ended))) }
        ensures ready { IsReady tables.now targets.now self.new scratch.new }
        ensures same { OnErr result (self.new ≡ self.old) }
    {
        if !line.ended {
            return Err(LineFault::Cut);
        }
        let Ok(item) = read_item(line) else {
            return Err(self.form_fault(targets));
        };
        self.step(scratch, tables, targets, &item)
    }

    /// Returns what the next line must be.
    pub(crate) fn due<'s>(&'s self, targets: &'s [Target<'s>]) -> Due<'s>
        requires { IsConsistent targets.now self.now }
        ensures { IsDue (goals targets.now self.now) result }
    {
        match &self.stage {
            Stage::Header => Due::Header,
            Stage::Ended => Due::Nothing,
            Stage::Between => match targets.get(self.current) {
                Some(target) => Due::Target(target),
                None => Due::End,
            },
            Stage::Tree(here) => Due::Tree {
                version: self.version,
                target: &targets[self.current],
                region: &here.region,
                depth: here.depth,
            },
        }
    }

    /// Returns the result at the text's end, after the line of this number.
    pub(crate) fn end(&self, targets: &[Target<'_>], number: u64) -> Result<(), Fault>
        requires { IsConsistent targets.now self.now }
        ensures ok { OnOk result ((n : ℕ) → at_end n (goals targets.now self.now) ≡ None) }
        ensures err { IfErr result (λ e. at_end number (goals targets.now self.now)
            ≡ Some (record { fault = e; last = number; behind = [] })) }
    {
        match self.stage {
            Stage::Ended => Ok(()),
            _ => Err(Fault::at_line(LineFault::Cut.number(), number.saturating_add(1))),
        }
    }
}

/// Keeps the lower part of a region that a line splits, and returns the upper part, both one deeper. The first `active`
/// selection processes may count packets of both.
///
/// Fails with 414 after 1,000,000 split and leaf lines, then with 412 at depth 512, then with 404 if the split is not
/// strictly inside the region.
fn split_waiting(
    made: u32,
    here: &mut WaitingRegion,
    axis: Axis,
    at: u128,
    active: usize,
) -> Result<WaitingRegion, LineFault>
    ensures answer { (gs : List Goal)
        → split_answer made here.old.region here.old.depth (axis_index axis) at gs
        ≡ map_result result gs }
    ensures below { OnOk result (here.new ≡ below_waits here.old (axis_index axis) at
        active) }
    ensures above { IfOk result (λ w. w ≡ above_waits here.old (axis_index axis) at
        active) }
    ensures bounds { OnOk result ((here.old.depth < depth_limit) × (made < line_limit)) }
    ensures inside { OnOk result (IsStrictlyInside here.old.region (axis_index axis) at) }
    ensures same { OnErr result (here.new ≡ here.old) }
{
    if made >= LINES {
        return Err(LineFault::LineCount);
    }
    if here.depth >= DEPTH_LIMIT {
        return Err(LineFault::SplitDepth);
    }
    if !here.region.can_split(axis, at) {
        return Err(LineFault::SplitPlace);
    }
    let above = here.region.split_off(axis, at);
    here.depth += 1;
    here.active = active;
    Ok(WaitingRegion {
        region: above,
        depth: here.depth,
        active,
    })
}
