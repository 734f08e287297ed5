ghost use Rattle.std.specs.Prelude.{◌≡◌, ◌≤◌, ◌<◌, slice_index, slice_set, length, IfSome, ◌↔◌, IsSome, nat_eq};
ghost use Rattle.std.specs.Cmp.{partial_equiv_from_equiv};
ghost use Rattle.std.specs.Cmp.Lexicographic.{pointwise, nat_list_eq_equiv};
ghost use Rattle.fx_elements.specs.Axes.{axis_index, tops};
ghost use Rattle.fx_boxes.specs.Boxes.{IsFields};

use fx_elements::{AXES, Axis, TOPS};
use std::marker::Model;

/// The number of axes with values of at most 32 bits, which come first.
const NARROW: usize = 7;
/// The number of axes with wider values.
const WIDE: usize = 2;

/// A value for each axis.
#[derive(Clone, Copy, Debug)]
pub struct Fields {
    // Runs keep many packets, so no value takes more room than it needs.
    narrow: [u32; NARROW],
    wide: [u128; WIDE],
}

impl Model for Fields {
    ghost use Rattle.std.specs.Prelude.{◌≡◌, List, ℕ, ◌++◌, length, take, drop};
    ghost use Rattle.std.proofs.Common.{sym, ap, ◌∙◌};
    ghost use Rattle.std.proofs.Math.Seq.{take-append_seam, drop-append_seam};

    ghost Value = { List ℕ };

    ghost use Rattle.fx_boxes.specs.Boxes.{IsFields};

    ghost view = { λ f. f.narrow ++ f.wide };

    ghost invariant = { λ f. (length f.narrow ≡ 7) × (length f.wide ≡ 2)
        × IsFields (f.narrow ++ f.wide) };

    ghost inverse = { λ v. record { narrow = take 7 v; wide = drop 7 v } };

    ghost inverse_ok = { λ f h i. record {
      narrow = (ap (λ n. take n (f.narrow ++ f.wide)) (sym h.0) ∙ take-append_seam f.narrow f.wide)
          i;
      wide = (ap (λ n. drop n (f.narrow ++ f.wide)) (sym h.0) ∙ drop-append_seam f.narrow f.wide) i;
    } };
}

impl Fields {
    /// Returns the fields with these values, if each is within its axis.
    pub fn new(values: [u128; AXES]) -> Option<Fields>
        ensures some { IfSome result (λ f. f ≡ values) }
        ensures exact { IsSome result ↔ IsFields values }
    {
        for k in 0..AXES {
            if values[k] > TOPS[k] {
                return None;
            }
        }
        Some(Fields::of(values))
    }

    /// Returns the value on an axis.
    #[inline(always)]
    pub fn get(&self, axis: Axis) -> u128
        ensures { result ≡ slice_index self.now (axis_index axis) }
    {
        self.value_at(axis.index())
    }

    /// Returns the values as an array.
    pub fn array(&self) -> [u128; AXES]
        ensures value { result ≡ self.now }
        ensures kept { IsFields result }
        ensures count { length result ≡ AXES }
    {
        [
            u128::from(self.narrow[0]),
            u128::from(self.narrow[1]),
            u128::from(self.narrow[2]),
            u128::from(self.narrow[3]),
            u128::from(self.narrow[4]),
            u128::from(self.narrow[5]),
            u128::from(self.narrow[6]),
            self.wide[0],
            self.wide[1],
        ]
    }

    /// Returns the value at an index in the order of the axes.
    #[inline(always)]
    pub fn value_at(&self, k: usize) -> u128
        requires { k < AXES }
        ensures value { result ≡ slice_index self.now k }
        ensures kept { IsFields self.now }
    {
        if k < NARROW {
            u128::from(self.narrow[k])
        } else {
            self.wide[k - NARROW]
        }
    }

    /// Sets the value at an index in the order of the axes.
    pub(crate) fn set_at(&mut self, k: usize, value: u128)
        requires place { k < AXES }
        requires bound { value ≤ slice_index tops k }
        ensures { self.new ≡ slice_set self.old k value }
    {
        if k < NARROW {
            self.narrow[k] = value as u32;
        } else {
            self.wide[k - NARROW] = value;
        }
    }

    /// Returns the fields with these values.
    pub fn of(values: [u128; AXES]) -> Fields
        requires { IsFields values }
        ensures { result ≡ values }
    {
        Fields {
            narrow: [
                values[0] as u32,
                values[1] as u32,
                values[2] as u32,
                values[3] as u32,
                values[4] as u32,
                values[5] as u32,
                values[6] as u32,
            ],
            wide: [values[7], values[8]],
        }
    }
}

impl PartialEq for Fields {
    ghost eq = { λ s t. pointwise nat_eq s t };

    ghost laws = { partial_equiv_from_equiv nat_list_eq_equiv };

    fn eq(&self, other: &Self) -> bool {
        self.array() == other.array()
    }
}

impl Eq for Fields {
    ghost laws = { nat_list_eq_equiv };
}
