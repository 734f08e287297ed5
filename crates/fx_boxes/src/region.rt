ghost use Rattle.std.specs.Prelude.{◌≡◌, ◌≤◌, ◌<◌, ◌↔◌, ◌⊎◌, ℕ, List, slice_index, IfSome, IsSome, IsNone, IsTrue, MatchOption};
ghost use Rattle.fx_elements.specs.Axes.{axis_count, axis_index};
ghost use Rattle.fx_boxes.specs.Boxes.{IsFields, IsRegion, Holds, holds, IsInside, IsDisjoint, IsStrictlyInside, below_part, above_part};

use crate::fields::Fields;
use fx_elements::{AXES, Axis, TOPS};
use std::marker::Model;

/// The fields whose value on each axis is between a low and a high one, inclusive.
#[derive(Clone, Copy, Debug, PartialEq, Eq)]
pub struct Region {
    low: Fields,
    high: Fields,
}

impl Model for Region {
    ghost use Rattle.fx_boxes.specs.Boxes.{Bounds, IsRegion};

    ghost Value = { Bounds };

    ghost view = { λ r. record { low = r.low; high = r.high } };

    ghost invariant = { λ r. IsRegion (record { low = r.low; high = r.high }) };

    ghost inverse = { λ b. record { low = b.low; high = b.high } };
}

impl Region {
    /// Returns the region of all fields.
    pub fn whole() -> Region
        ensures { (f : List ℕ) → IsFields f → Holds result f }
    {
        Region {
            low: Fields::of([0; AXES]),
            high: Fields::of(TOPS),
        }
    }

    /// Returns the region from the least fields to the greatest, if no low is above its high.
    pub fn between(low: &Fields, high: &Fields) -> Option<Region>
        ensures exact { IsSome result ↔ ((k : ℕ) → k < axis_count
            → slice_index low.now k ≤ slice_index high.now k) }
        ensures value { IfSome result (λ region. (region.low ≡ low.now)
            × (region.high ≡ high.now)) }
    {
        let least = low.array();
        let greatest = high.array();
        for k in 0..AXES {
            if greatest[k] < least[k] {
                return None;
            }
        }
        Some(Region {
            low: *low,
            high: *high,
        })
    }

    /// Returns whether the fields are in the region.
    pub fn holds(&self, fields: &Fields) -> bool
        ensures test { result ≡ holds self.now fields.now }
        ensures fact { IsTrue result ↔ Holds self.now fields.now }
    {
        self.has(fields)
    }

    fn has(&self, fields: &Fields) -> bool
        ensures { IsTrue result ↔ Holds self.now fields.now }
    {
        for k in 0..AXES {
            let value = fields.value_at(k);
            if value < self.low.value_at(k) || self.high.value_at(k) < value {
                return false;
            }
        }
        true
    }

    /// Splits the region in two: values on the axis below `at`, and those from `at` on.
    pub fn split(&self, axis: Axis, at: u128) -> Option<(Region, Region)>
        ensures exact { IsSome result ↔ IsStrictlyInside self.now (axis_index axis) at }
        ensures parts { IfSome result (λ parts. (parts.0 ≡ below_part self.now (axis_index axis) at)
            × (parts.1 ≡ above_part self.now (axis_index axis) at)) }
        ensures below { IfSome result (λ parts. (f : List ℕ)
            → Holds parts.0 f ↔ (Holds self.now f × (slice_index f (axis_index axis) < at))) }
        ensures above { IfSome result (λ parts. (f : List ℕ)
            → Holds parts.1 f ↔ (Holds self.now f × (at ≤ slice_index f (axis_index axis)))) }
    {
        if !self.can_split(axis, at) {
            return None;
        }
        // Only for the prover: there is a low and a high on each axis.
        let _low = self.low.array();
        let _high = self.high.array();
        let mut below = *self;
        let above = below.split_off(axis, at);
        Some((below, above))
    }

    /// Returns whether a split at this value of the axis leaves fields on both sides.
    pub fn can_split(&self, axis: Axis, at: u128) -> bool
        ensures { IsTrue result ↔ IsStrictlyInside self.now (axis_index axis) at }
    {
        let k = axis.index();
        self.low.value_at(k) < at && at <= self.high.value_at(k)
    }

    /// Keeps the fields whose value on the axis is below `at`, and returns those whose value is `at` or more.
    pub fn split_off(&mut self, axis: Axis, at: u128) -> Region
        requires { IsStrictlyInside self.old (axis_index axis) at }
        ensures kept { self.new ≡ below_part self.old (axis_index axis) at }
        ensures rest { result ≡ above_part self.old (axis_index axis) at }
    {
        let k = axis.index();
        let mut above = *self;
        above.low.set_at(k, at);
        self.high.set_at(k, at - 1);
        above
    }

    /// Returns whether all fields of this region are in the other.
    pub fn inside(&self, other: &Region) -> bool
        ensures { IsTrue result ↔ IsInside self.now other.now }
    {
        for k in 0..AXES {
            if self.low.value_at(k) < other.low.value_at(k)
                || other.high.value_at(k) < self.high.value_at(k)
            {
                return false;
            }
        }
        true
    }

    /// Returns whether no fields are in both regions.
    pub fn disjoint(&self, other: &Region) -> bool
        ensures { IsTrue result ↔ IsDisjoint self.now other.now }
    {
        for k in 0..AXES {
            if self.high.value_at(k) < other.low.value_at(k)
                || other.high.value_at(k) < self.low.value_at(k)
            {
                return true;
            }
        }
        false
    }

    /// Returns the fields that are in both regions, if there are any.
    pub fn meet(&self, other: &Region) -> Option<Region>
        ensures none { IsNone result ↔ IsDisjoint self.now other.now }
        ensures both { IfSome result (λ both. (f : List ℕ)
            → Holds both f ↔ (Holds self.now f × Holds other.now f)) }
    {
        let mut low = self.low.array();
        let mut high = self.high.array();
        for k in 0..AXES {
            low[k] = low[k].max(other.low.value_at(k));
            high[k] = high[k].min(other.high.value_at(k));
            if high[k] < low[k] {
                return None;
            }
        }
        Some(Region {
            low: Fields::of(low),
            high: Fields::of(high),
        })
    }

    /// Returns the least fields of the region.
    pub fn corner(&self) -> Fields
        ensures least { result ≡ self.now.low }
        ensures held { Holds self.now result }
    {
        self.low
    }

    /// Returns the greatest fields of the region.
    pub fn far_corner(&self) -> Fields
        ensures greatest { result ≡ self.now.high }
        ensures held { Holds self.now result }
        ensures region { IsRegion self.now }
    {
        self.high
    }
}
