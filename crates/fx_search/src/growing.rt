//! A certificate under construction, and the regions that are still ahead of it.
ghost use Rattle.std.specs.Prelude.{◌≡◌, ◌≤◌, ℕ, List, IfErr, ◌+◌, ◌<◌, ◌++◌, [], ◌∷◌, IfOk, OnOk, option_to_list, IfNone, slice_index_or};
ghost use Rattle.std.specs.List.{AllByRecursion};
ghost use Rattle.fx_cert.specs.declared.item.Item.TheVariants as of_item;
ghost use Rattle.fx_base.specs.Fault.{IsMemory};
ghost use Rattle.fx_boxes.specs.Boxes.{Bounds, Holds, IsRegion, IsStrictlyInside};
ghost use Rattle.fx_leaf.specs.Judgements.{IsJudged};
ghost use Rattle.fx_leaf.specs.PathSelections.{IsApart, IsNarrowed, PathSelection};
ghost use Rattle.fx_leaf.specs.Reach.{IsFilled};
ghost use Rattle.fx_leaf.specs.PathTables.{HasProcessRoom, IsPathBegun};
ghost use Rattle.fx_leaf.specs.Splits.{IsSplit};
ghost use Rattle.fx_leaf.specs.Tables.{AreTables, Tables as TableView};
ghost use Rattle.fx_tables.specs.declared.traffic.Crossing.{Crossing as OfCrossing};
ghost use Rattle.fx_elements.specs.Axes.{axis_index};
ghost use Rattle.fx_check.specs.Certificates.{IsWritable};
ghost use Rattle.fx_check.specs.FirstRefusal.{depth_limit, line_limit};
ghost use Rattle.fx_search.specs.Fronts.{lower, upper, root};
ghost use Rattle.fx_search.specs.Growing.{least_packet, opening_items};

use crate::outcome::{Limit, ReachedLimit, RefutedRegion};
use fx_base::Fault;
use fx_boxes::Region;
use fx_cert::{Item, Version};
use fx_elements::Axis;
use fx_leaf::{CutBounds, Judgement, PathScratch, Tables};
use fx_refute::Refutation;
use fx_tables::Packet;
use fx_traffic::Target;
use std::alloc::{AllocError, Global};
use std::marker::Model;

/// A region of a target whose tree is not written yet.
#[derive(Drop)]
pub(crate) struct Ahead<'a> {
    pub(crate) target: &'a Target<'a>,
    pub(crate) region: Region,
    /// The depth of the tree's root, 0 for the whole region of the target.
    pub(crate) depth: u32,
}

impl<'a> Model for Ahead<'a> {
    ghost use Rattle.fx_search.specs.Fronts.{RegionAhead};

    ghost Value = { RegionAhead };

    ghost view = { λ a. record { target = a.target.now; region = a.region; depth = a.depth } };
}

impl<'a> Ahead<'a> {
    /// Moves those of the first `active` selection processes that count packets of the region before the others, and
    /// returns their number.
    pub(crate) fn narrow(&self, scratch: &mut PathScratch<'_>, active: usize) -> usize
        requires narrowed { IsNarrowed scratch.old.selections self.now.region active }
        ensures narrowed { IsNarrowed scratch.new.selections self.now.region result }
        ensures overlapping { (k : ℕ) (d : PathSelection) → k < result
            → IsApart self.now.region (slice_index_or scratch.new.selections k d).selection → ⊥ }
        ensures fewer { result ≤ active }
        ensures others { (other : Bounds) (more : ℕ) → active ≤ more
            → IsNarrowed scratch.old.selections other more
            → IsNarrowed scratch.new.selections other more }
        ensures begun { (t : TableView) (path : List OfCrossing) → IsPathBegun t path scratch.old
            → IsPathBegun t path scratch.new }
        ensures room { (t : TableView) → HasProcessRoom t scratch.old
            → HasProcessRoom t scratch.new }
    {
        scratch.narrow(&self.region, active)
    }

    /// Returns the verdict on the packets of the region that take the target's path. The path must be begun in
    /// `scratch`.
    pub(crate) fn judge<'t>(
        &self,
        scratch: &mut PathScratch<'t>,
        tables: &Tables<'t>,
        active: usize,
    ) -> Judgement
        requires tables { AreTables tables.now }
        requires room { HasProcessRoom tables.now scratch.old }
        requires begun { IsPathBegun tables.now self.now.target.crossings scratch.old }
        requires narrowed { IsNarrowed scratch.old.selections self.now.region active }
        ensures judged { IsJudged tables.now.net self.now.target.crossings self.now.region result }
        ensures filled { IsFilled tables.now.net tables.now.numbering self.now.region
            scratch.new.marks scratch.new.table }
        ensures region { IsRegion self.now.region }
        ensures begun { IsPathBegun tables.now self.now.target.crossings scratch.new }
        ensures room { HasProcessRoom tables.now scratch.new }
        ensures kept { scratch.new.selections ≡ scratch.old.selections }
    {
        // The prover needs this call: it shows that the bounds of a region hold.
        let _greatest = self.region.far_corner();
        let target = self.target;
        scratch.judge(tables, target.crossings, &self.region, active)
    }

    /// Returns where to split the region, which is cut at `other`, so that the split halves what cuts it.
    pub(crate) fn halving_bound<'t>(
        &self,
        scratch: &PathScratch<'t>,
        bounds: &mut CutBounds,
        tables: &Tables<'t>,
        active: usize,
        other: (Axis, u128),
    ) -> Result<(Axis, u128), Fault>
        requires tables { AreTables tables.now }
        requires begun { IsPathBegun tables.now self.now.target.crossings scratch.now }
        requires room { HasProcessRoom tables.now scratch.now }
        requires filled { IsFilled tables.now.net tables.now.numbering self.now.region
            scratch.now.marks scratch.now.table }
        requires overlapping { (k : ℕ) (d : PathSelection) → k < active
            → IsApart self.now.region (slice_index_or scratch.now.selections k d).selection → ⊥ }
        ensures ok { IfOk result (λ s. IsSplit tables.now.net self.now.target.crossings
            self.now.region other.0 other.1
            → IsSplit tables.now.net self.now.target.crossings self.now.region s.0 s.1) }
        ensures err { IfErr result IsMemory }
    {
        let target = self.target;
        scratch.halving_bound(
            bounds,
            tables,
            target.crossings,
            &self.region,
            active,
            other,
        )
    }

    /// Returns whether the packets must never be counted.
    pub(crate) fn exempt(&self) -> bool
        ensures { result ≡ self.now.target.exempt }
    {
        let target = self.target;
        target.exempt
    }

    /// Returns the least packet of the region, one octet long.
    pub(crate) fn least_packet(&self) -> Packet
        ensures is { result ≡ least_packet self.now }
        ensures held { Holds self.now.region result.fields }
    {
        let target = self.target;
        Packet {
            fields: self.region.corner(),
            octets: 1,
            class: target.class,
            path: target.path,
        }
    }

    /// Returns a run that refutes by the region's least packet, with the verdict on all packets of the region.
    pub(crate) fn refuted(&self, refutation: Refutation, judgement: Judgement) -> RefutedRegion
        ensures { result ≡ record {
          refutation = refutation;
          class = self.now.target.class;
          path = self.now.target.path;
          region = self.now.region;
          judgement = judgement;
        } }
    {
        let target = self.target;
        RefutedRegion {
            refutation,
            class: target.class,
            path: target.path,
            region: self.region,
            judgement,
        }
    }

    /// Returns the limit as reached at this region.
    pub(crate) fn reached(&self, limit: Limit) -> ReachedLimit
        ensures { result ≡ record {
          limit = limit;
          class = self.now.target.class;
          path = self.now.target.path;
          region = self.now.region;
        } }
    {
        let target = self.target;
        ReachedLimit {
            limit,
            class: target.class,
            path: target.path,
            region: self.region,
        }
    }
}

/// A region of a target whose tree is not written yet, and how many of the path's selection processes may count its
/// packets.
#[derive(Drop)]
pub(crate) struct Waiting<'a> {
    pub(crate) ahead: Ahead<'a>,
    pub(crate) active: usize,
}

/// The beginning of a certificate.
#[derive(Drop)]
pub(crate) struct Growth<'a> {
    /// The regions still ahead of the current target. The last is next.
    pub(crate) ahead: Vec<Waiting<'a>>,
    /// The items so far.
    pub(crate) items: Vec<Item>,
    /// The number of split and leaf lines among them.
    pub(crate) lines: u64,
}

/// Returns the line of a target.
fn class_line(class: u64, path: u64) -> Item
    ensures is { result ≡ of_item.Class class path }
    ensures writable { IsWritable result }
{
    Item::Class { class, path }
}

/// Returns the line of a leaf.
pub(crate) fn leaf(crossing: u64, point: u64, process: u64) -> Item
    ensures is { result ≡ of_item.Leaf crossing point process }
    ensures writable { IsWritable result }
{
    Item::Leaf {
        crossing,
        point,
        process,
    }
}

/// Returns the line of a split of a region.
fn split_item(region: &Region, axis: Axis, at: u128) -> Item
    requires inside { IsStrictlyInside region.now (axis_index axis) at }
    ensures is { result ≡ of_item.Split axis at }
    ensures writable { IsWritable result }
{
    // The prover needs this call: it shows that the bounds of a region lie within their axes.
    let _greatest = region.far_corner();
    Item::Split { axis, at }
}

impl<'a> Growth<'a> {
    /// Returns a certificate before the line of its first target.
    pub(crate) fn new(alloc: Global, version: Version) -> Result<Growth<'a>, AllocError>
        ensures ahead { IfOk result (λ g. g.ahead.items ≡ []) }
        ensures items { IfOk result (λ g. g.items.items ≡ of_item.Header version ∷ []) }
        ensures lines { IfOk result (λ g. g.lines ≡ 0) }
    {
        let mut items: Vec<Item> = Vec::new(alloc);
        items.push(Item::Header(version))?;
        Ok(Growth {
            ahead: Vec::new(alloc),
            items,
            lines: 0,
        })
    }

    /// Makes a target the next region, whose path meets `active` selection processes.
    pub(crate) fn open(&mut self, target: &'a Target<'a>, active: usize) -> Result<(), AllocError>
        ensures ahead { OnOk result (self.new.ahead.items
            ≡ self.old.ahead.items ++ record { ahead = root target.now; active = active } ∷ []) }
        ensures items { self.new.items ≡ self.old.items }
        ensures lines { self.new.lines ≡ self.old.lines }
    {
        self.ahead.push(Waiting {
            ahead: Ahead {
                target,
                region: target.region,
                depth: 0,
            },
            active,
        })?;
        Ok(())
    }

    /// Appends the first line of a region's tree, preceded by the line of its target if the tree is that of the whole
    /// target.
    pub(crate) fn add(&mut self, here: &Ahead<'a>, item: Item) -> Result<(), AllocError>
        requires few { self.old.lines < line_limit }
        requires writable { IsWritable item }
        ensures items { OnOk result (self.new.items.items
            ≡ self.old.items.items ++ (opening_items here.now ++ item ∷ [])) }
        ensures written { OnOk result (AllByRecursion IsWritable self.old.items.items
            → AllByRecursion IsWritable self.new.items.items) }
        ensures lines { OnOk result (self.new.lines ≡ self.old.lines + 1) }
        ensures ahead { OnOk result (self.new.ahead ≡ self.old.ahead) }
    {
        if here.depth == 0 {
            let target = here.target;
            self.items.push(class_line(target.class, target.path))?;
        }
        self.items.push(item)?;
        self.lines += 1;
        Ok(())
    }

    /// Makes a split the region's tree. The tree of the lower part is next, then that of the upper part. The first
    /// `active` selection processes may count packets of the region.
    pub(crate) fn split(
        &mut self,
        here: &Ahead<'a>,
        active: usize,
        axis: Axis,
        at: u128,
    ) -> Result<(), AllocError>
        requires few { self.old.lines < line_limit }
        requires shallow { here.now.depth < depth_limit }
        requires inside { IsStrictlyInside here.now.region (axis_index axis) at }
        ensures items { OnOk result (self.new.items.items
            ≡ self.old.items.items ++ (opening_items here.now ++ of_item.Split axis at ∷ [])) }
        ensures written { OnOk result (AllByRecursion IsWritable self.old.items.items
            → AllByRecursion IsWritable self.new.items.items) }
        ensures lines { OnOk result (self.new.lines ≡ self.old.lines + 1) }
        ensures ahead { OnOk result (self.new.ahead.items
            ≡ self.old.ahead.items ++ (record { ahead = upper here.now axis at; active = active }
            ∷ record { ahead = lower here.now axis at; active = active } ∷ [])) }
    {
        let Some((below, above)) = here.region.split(axis, at) else {
            unreachable!();
        };
        self.add(here, split_item(&here.region, axis, at))?;
        let depth = here.depth + 1;
        let target = here.target;
        self.ahead.push(Waiting {
            ahead: Ahead {
                target,
                region: above,
                depth,
            },
            active,
        })?;
        self.ahead.push(Waiting {
            ahead: Ahead {
                target,
                region: below,
                depth,
            },
            active,
        })?;
        Ok(())
    }
}
