//! The region of the packets that a selection process selects.
ghost use Rattle.std.specs.Prelude.{◌≡◌, ℕ, List, false, length, IfSome, IfNone};
ghost use Rattle.fx_boxes.specs.Boxes as boxes;
ghost use Rattle.fx_selectors.specs.Selection as selection;

use fx_boxes::{Fields, Region};
use fx_config::{Method, PropertyMatch, SelectionProcess, Selector};
use fx_elements::{AXES, TOPS};
use std::marker::Model;

/// The least and the greatest value on each axis.
#[derive(Drop)]
struct Bounds {
    low: [u128; AXES],
    high: [u128; AXES],
}

impl Model for Bounds {
    ghost use Rattle.fx_boxes.specs.Boxes as boxes;

    ghost Value = { boxes.Bounds };

    ghost view = { λ b. record { low = b.low; high = b.high } };
}

/// Returns the part of these bounds that a match leaves.
fn bounds_within(within: Bounds, fixed: &PropertyMatch) -> Bounds
    ensures { result ≡ selection.bounds_within within fixed.now }
{
    let Bounds { mut low, mut high } = within;
    let k = fixed.axis.index();
    low[k] = low[k].max(fixed.range.low);
    high[k] = high[k].min(fixed.range.high);
    Bounds { low, high }
}

/// Returns the bounds that all selectors leave.
fn bounds_of(selectors: &[Selector]) -> Bounds
    ensures { result ≡ selection.bounds_of selectors.now }
{
    let mut bounds = Bounds {
        low: [0; AXES],
        high: TOPS,
    };
    for selector in selectors {
        match &selector.method {
            Method::SelectAll => {}
            Method::FilterMatch(fixed) => bounds = bounds_within(bounds, fixed),
        }
    }
    bounds
}

/// Returns the region within these bounds, if they are not empty.
fn region_within(low: [u128; AXES], high: [u128; AXES]) -> Option<Region>
    ensures { result ≡ selection.region_within (record { low = low; high = high }) }
{
    let low = Fields::new(low)?;
    let high = Fields::new(high)?;
    Region::between(&low, &high)
}

/// Returns the region of the packets that a selection process selects, or `None` if no packet can pass it.
pub fn region_of(process: &SelectionProcess) -> Option<Region>
    ensures bounds { result ≡ selection.region_of process.now }
    // The process selects exactly the packets whose fields the region holds, and none if there is no region.
    ensures some { IfSome result (λ region. (fields : List ℕ) → boxes.IsFields fields
        → boxes.holds region fields ≡ selection.selects process.now fields) }
    ensures none { IfNone result ((fields : List ℕ) → boxes.IsFields fields
        → selection.selects process.now fields ≡ false) }
{
    let Bounds { low, high } = bounds_of(process.selectors.as_slice());
    region_within(low, high)
}
