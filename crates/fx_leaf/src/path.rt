//! The fate of the packets of a region that take a path, or what cuts the region.
ghost use Rattle.std.specs.Prelude.{◌≡◌, true, List, [], ◌∷◌, if◌then◌else◌, Contains, Some, IfOk, IfErr};
ghost use Rattle.fx_boxes.specs.Boxes as boxes;
ghost use Rattle.fx_tables.specs.Network as network;
ghost use Rattle.fx_tables.specs.Occurrences as met;
ghost use Rattle.fx_tables.specs.declared.observation.Selection as of_selection;
ghost use Rattle.fx_tables.specs.declared.traffic.Crossing as of_crossing;
ghost use Rattle.fx_leaf.specs.Leaves as leaves;
ghost use Rattle.fx_leaf.specs.PathSelections as of_path;
ghost use Rattle.fx_leaf.specs.Reach as reach;
ghost use Rattle.fx_leaf.specs.Splits as splits;
ghost use Rattle.fx_leaf.specs.Tables as by_table;
ghost use Rattle.fx_leaf.specs.Verdicts as verdicts;

use crate::leaf::Counted;
use crate::path_selections::PathSelection;
use crate::regions::{Overlap, selection_overlap};
use crate::table::Verdicts;
use crate::verdict::{Fate, overlap_verdict};
use fx_elements::Axis;
use fx_tables::{Crossing, Point, Selection};

/// What is known of the packets from the selection processes met so far. None of them cuts the region.
#[derive(Clone, Copy)]
pub(crate) struct PathFate {
    /// How often all of them together count a packet.
    pub(crate) fate: Fate,
    /// The last of them by which a packet is counted once.
    pub(crate) counted: Option<Counted>,
}

impl PathFate {
    /// Returns what is known with one more selection process: how often it counts a packet, and its numbers.
    fn with(self, fate: Fate, numbers: Counted) -> PathFate
        ensures { leaves.AddsVerdicts self result
            (record {
              crossing = numbers.crossing;
              point = numbers.point;
              process = numbers.process;
              verdict = Some fate;
            } ∷ []) }
    {
        let counted = if matches!(fate, Fate::Once) {
            Some(numbers)
        } else {
            self.counted
        };
        PathFate {
            fate: self.fate.both(fate),
            counted,
        }
    }
}

/// A reader of paths: the verdicts on a region's packets in a table whose marked entries are filled.
#[derive(Drop)]
pub(crate) struct PathReader<'a, 't> {
    pub(crate) verdicts: Verdicts<'a, 't>,
    pub(crate) marks: &'a [u64],
    ghost bounded: { boxes.IsRegion verdicts.region.now },
    ghost filled: { reach.IsFilled verdicts.tables.now.net verdicts.tables.now.numbering
        verdicts.region.now marks.now verdicts.rows.now },
}

impl PathReader<'_, '_> {
    /// Returns the verdict on records of the holder at this index.
    fn holder_verdict(&self, holder: usize) -> Option<Fate>
        requires tables { by_table.AreTables self.now.verdicts.tables.now }
        requires along { let t = self.now.verdicts.tables.now in
            reach.HoldsBehindHolder t.net t.numbering (reach.IsMarked self.now.marks.now) holder }
        ensures { let net = self.now.verdicts.tables.now.net in
            let region = self.now.verdicts.region.now in
            result ≡ verdicts.holder_verdict (verdicts.verdict net region) net holder }
    {
        self.verdicts.holder_verdict(holder)
    }

    /// Returns what is known with a selection process with these numbers, if it has a cache. Fails with a bound if it,
    /// or what is downstream of its cache, cuts the region.
    fn selection(
        &self,
        known: PathFate,
        numbers: Counted,
        selection: &Selection,
    ) -> Result<PathFate, (Axis, u128)>
        requires tables { by_table.AreTables self.now.verdicts.tables.now }
        requires along { let t = self.now.verdicts.tables.now in
            reach.HoldsBehindSelection t.net t.numbering (reach.IsMarked self.now.marks.now)
            selection.now }
        ensures ok { let net = self.now.verdicts.tables.now.net in
            let region = self.now.verdicts.region.now in
            IfOk result (λ after.
            leaves.AddsVerdicts known after (verdicts.selection_verdicts
            (verdicts.verdict net region) net region numbers.crossing numbers.point
            numbers.process selection.now.region selection.now.holder)) }
        ensures err { let net = self.now.verdicts.tables.now.net in
            let region = self.now.verdicts.region.now in
            IfErr result (λ s. (path : List of_crossing.Crossing)
            → splits.Meets net path selection.now → splits.IsSplit net path region s.0 s.1) }
    {
        let Some(holder) = selection.holder else {
            return Ok(known);
        };
        let overlap = selection_overlap(self.verdicts.region, &selection.region);
        if let Overlap::Nothing = overlap {
            return Ok(known.with(Fate::Never, numbers));
        }
        match overlap_verdict(overlap, self.holder_verdict(holder)) {
            Some(fate) => Ok(known.with(fate, numbers)),
            None => Err(self.bound_at(selection)),
        }
    }

    /// Returns what is known with the selection processes of a point, up to the first that cuts the region.
    fn selections(
        &self,
        known: PathFate,
        crossing: u64,
        point: u64,
        selections: &[Selection],
    ) -> Result<PathFate, (Axis, u128)>
        requires tables { by_table.AreTables self.now.verdicts.tables.now }
        requires along { let t = self.now.verdicts.tables.now in
            reach.HoldsBehindSelections t.net t.numbering (reach.IsMarked self.now.marks.now)
            selections.now }
        ensures ok { let net = self.now.verdicts.tables.now.net in
            let region = self.now.verdicts.region.now in
            IfOk result (λ after.
            leaves.AddsVerdicts known after (verdicts.point_verdicts
            (verdicts.verdict net region) net region crossing point 1 selections.now)) }
        ensures err { let net = self.now.verdicts.tables.now.net in
            let region = self.now.verdicts.region.now in
            IfErr result (λ s. (path : List of_crossing.Crossing)
            → ((selection : of_selection.Selection) → Contains selections.now selection
            → splits.Meets net path selection) → splits.IsSplit net path region s.0 s.1) }
    {
        let mut known = known;
        for index in 0..selections.len() {
            let numbers = Counted {
                crossing,
                point,
                process: (index + 1) as u64,
            };
            known = self.selection(known, numbers, &selections[index])?;
        }
        Ok(known)
    }

    /// Returns what is known with these selection processes, up to the first that cuts the region.
    pub(crate) fn known_of(
        &self,
        selections: &[PathSelection<'_>],
    ) -> Result<PathFate, (Axis, u128)>
        requires tables { by_table.AreTables self.now.verdicts.tables.now }
        requires along { let t = self.now.verdicts.tables.now in
            (s : of_path.PathSelection) → Contains selections.now s
            → reach.HoldsBehindSelection t.net t.numbering (reach.IsMarked self.now.marks.now)
            s.selection }
        ensures ok { let net = self.now.verdicts.tables.now.net in
            let region = self.now.verdicts.region.now in
            IfOk result (λ after. leaves.AddsVerdicts leaves.nothing_known after
            (verdicts.verdicts_of (verdicts.verdict net region) net region selections.now)) }
        ensures err { let net = self.now.verdicts.tables.now.net in
            let region = self.now.verdicts.region.now in
            IfErr result (λ s. (path : List of_crossing.Crossing)
            → ((each : of_path.PathSelection) → Contains selections.now each
            → splits.Meets net path each.selection) → splits.IsSplit net path region s.0 s.1) }
    {
        let mut known = PathFate {
            fate: Fate::Never,
            counted: None,
        };
        for index in 0..selections.len() {
            let met = &selections[index];
            known = self.selection(known, met.numbers, met.selection)?;
        }
        Ok(known)
    }

    /// Returns what is known with a point, if it watches the crossing.
    fn point(
        &self,
        known: PathFate,
        number: u64,
        crossing: &Crossing,
        place: u64,
        point: &Point,
    ) -> Result<PathFate, (Axis, u128)>
        requires tables { by_table.AreTables self.now.verdicts.tables.now }
        requires along { let t = self.now.verdicts.tables.now in
            met.watches point.now crossing.now ≡ true
            → reach.HoldsBehindSelections t.net t.numbering
            (reach.IsMarked self.now.marks.now) point.now.selections }
        ensures ok { let net = self.now.verdicts.tables.now.net in
            let region = self.now.verdicts.region.now in
            IfOk result (λ after. leaves.AddsVerdicts known after
            (if met.watches point.now crossing.now then verdicts.point_verdicts
            (verdicts.verdict net region) net region number place 1 point.now.selections else [])) }
        ensures err { let net = self.now.verdicts.tables.now.net in
            let region = self.now.verdicts.region.now in
            IfErr result (λ s. (path : List of_crossing.Crossing)
            → ((selection : of_selection.Selection) → met.watches point.now crossing.now ≡ true
            → Contains point.now.selections selection → splits.Meets net path selection)
            → splits.IsSplit net path region s.0 s.1) }
    {
        if point.watches(crossing) {
            self.selections(known, number, place, point.selections())
        } else {
            Ok(known)
        }
    }

    /// Returns what is known with these points of the crossing's device.
    fn points(
        &self,
        known: PathFate,
        number: u64,
        crossing: &Crossing,
        points: &[Point],
    ) -> Result<PathFate, (Axis, u128)>
        requires tables { by_table.AreTables self.now.verdicts.tables.now }
        requires along { let t = self.now.verdicts.tables.now in
            reach.HoldsBehindPoints t.net t.numbering
            (reach.IsMarked self.now.marks.now) points.now crossing.now }
        ensures ok { let net = self.now.verdicts.tables.now.net in
            let region = self.now.verdicts.region.now in
            IfOk result (λ after.
            leaves.AddsVerdicts known after (verdicts.crossing_verdicts
            (verdicts.verdict net region) net region number 1 points.now crossing.now)) }
        ensures err { let net = self.now.verdicts.tables.now.net in
            let region = self.now.verdicts.region.now in
            IfErr result (λ s. (path : List of_crossing.Crossing)
            → ((point : network.Point) (selection : of_selection.Selection)
            → Contains points.now point → met.watches point crossing.now ≡ true
            → Contains point.selections selection → splits.Meets net path selection)
            → splits.IsSplit net path region s.0 s.1) }
    {
        let mut known = known;
        for index in 0..points.len() {
            known = self.point(known, number, crossing, (index + 1) as u64, &points[index])?;
        }
        Ok(known)
    }

    /// Returns what is known with the points at a crossing with this number.
    fn crossing(
        &self,
        known: PathFate,
        number: u64,
        crossing: &Crossing,
    ) -> Result<PathFate, (Axis, u128)>
        requires tables { by_table.AreTables self.now.verdicts.tables.now }
        requires along { let t = self.now.verdicts.tables.now in
            reach.HoldsBehindPoints t.net t.numbering (reach.IsMarked self.now.marks.now)
            (network.points_of (network.entry_numbered t.net.devices crossing.now.device))
            crossing.now }
        ensures ok { let net = self.now.verdicts.tables.now.net in
            let region = self.now.verdicts.region.now in
            IfOk result (λ after.
            leaves.AddsVerdicts known after (verdicts.crossing_verdicts
            (verdicts.verdict net region) net region number 1 (network.points_of
            (network.entry_numbered net.devices crossing.now.device)) crossing.now)) }
        ensures err { let net = self.now.verdicts.tables.now.net in
            let region = self.now.verdicts.region.now in
            IfErr result (λ s. (path : List of_crossing.Crossing) → Contains path crossing.now
            → splits.IsSplit net path region s.0 s.1) }
    {
        let points = self.verdicts.tables.net().points_of(crossing.device);
        self.points(known, number, crossing, points)
    }

    /// Returns what is known with the points along a path.
    fn along(&self, known: PathFate, path: &[Crossing]) -> Result<PathFate, (Axis, u128)>
        requires tables { by_table.AreTables self.now.verdicts.tables.now }
        requires along { let t = self.now.verdicts.tables.now in
            reach.HoldsAlongPath t.net t.numbering (reach.IsMarked self.now.marks.now) path.now }
        ensures ok { let net = self.now.verdicts.tables.now.net in
            let region = self.now.verdicts.region.now in
            IfOk result (λ after.
            leaves.AddsVerdicts known after (verdicts.path_verdicts
            (verdicts.verdict net region) net region 1 path.now)) }
        ensures err { let net = self.now.verdicts.tables.now.net in
            let region = self.now.verdicts.region.now in
            IfErr result (λ s. splits.IsSplit net path.now region s.0 s.1) }
    {
        let mut known = known;
        for index in 0..path.len() {
            known = self.crossing(known, (index + 1) as u64, &path[index])?;
        }
        Ok(known)
    }

    /// Returns what is known of the packets that take a path. Fails with a bound of what cuts the region, if something
    /// does.
    pub(crate) fn path(&self, path: &[Crossing]) -> Result<PathFate, (Axis, u128)>
        requires tables { by_table.AreTables self.now.verdicts.tables.now }
        requires along { let t = self.now.verdicts.tables.now in
            reach.HoldsAlongPath t.net t.numbering (reach.IsMarked self.now.marks.now) path.now }
        ensures ok { let net = self.now.verdicts.tables.now.net in
            let region = self.now.verdicts.region.now in
            IfOk result (leaves.IsPathFate net path.now region) }
        ensures err { let net = self.now.verdicts.tables.now.net in
            let region = self.now.verdicts.region.now in
            IfErr result (λ s. splits.IsSplit net path.now region s.0 s.1) }
    {
        let nothing = PathFate {
            fate: Fate::Never,
            counted: None,
        };
        self.along(nothing, path)
    }
}
