//! The layouts of a network, by number.
ghost use Rattle.std.specs.Prelude.{◌≡◌, ◌⊎◌, ℕ, ◌<◌, ◌≤◌, Some, IfErr, IfOk, length, position, slice_get};
ghost use Rattle.fx_base.specs.Fault.{fault_at, IsMemory};
ghost use Rattle.fx_base.specs.declared.fault.Place.TheVariants as places;
ghost use Rattle.fx_base.specs.Refusals.{too_many_layouts};
ghost use Rattle.fx_layout.specs.Keys.{Fits, same_layout};
ghost use Rattle.fx_tables.specs.Limits.{layout_limit};
ghost use Rattle.fx_tables.specs.Network.{layout_of};
ghost use Rattle.fx_plan.specs.Layouts as layouts;

use fx_base::{Fault, refusals};
use fx_layout::Layout;
use fx_tables::{Holder, LAYOUTS, Net};
use std::alloc::Global;

fn position_of(known: &[Layout], layout: &Layout) -> Option<usize>
    ensures { result ≡ position (λ other. same_layout other layout.now) known.now }
{
    known.iter().position(|other| other.same(layout))
}

/// Returns the 0-based number of a layout, which is appended if it is not known yet.
///
/// Fails with 207 if there would be too many layouts, and with 900 if out of memory.
fn number_in(known: &mut Vec<Layout>, layout: &Layout) -> Result<usize, Fault>
    requires { length known.old.items ≤ layout_limit }
    ensures known { IfOk result (λ n. (known.new.items
        ≡ layouts.with_layout known.old.items layout.now)
        × (slice_get known.new.items n ≡ Some layout.now)) }
    ensures few { IfOk result (λ n. length known.new.items ≤ layout_limit) }
    ensures err { IfErr result (λ e. IsMemory e
        ⊎ ((e ≡ fault_at too_many_layouts places.None) × (layout_limit
        < length (layouts.with_layout known.old.items layout.now)))) }
{
    if let Some(number) = position_of(known.as_slice(), layout) {
        return Ok(number);
    }
    let number = known.len();
    if number == LAYOUTS {
        return Err(Fault::bare(refusals::TOO_MANY_LAYOUTS));
    }
    known.push(layout.copy())?;
    Ok(number)
}

/// Proves that no part of a layout has more bits than its axis.
fn fits(layout: &Layout)
    ensures { Fits layout.now }
{
    // The prover needs this call: it shows that the parts of a layout fit their axes.
    let _parts = layout.parts();
}

/// Returns the numbers of the layouts of the holders. Layouts that are not known yet are appended.
fn numbers_of(
    alloc: Global,
    known: &mut Vec<Layout>,
    holders: &[Holder],
) -> Result<Vec<usize>, Fault>
    requires { length known.old.items ≤ layout_limit }
    ensures known { IfOk result (λ v. known.new.items
        ≡ layouts.with_layouts known.old.items (layouts.held_layouts holders.now)) }
    ensures numbers { IfOk result (λ v. layouts.AreNumbers known.new.items holders.now v.items) }
    ensures fits { IfOk result (λ v. (k : ℕ) → Fits (layout_of (slice_get holders.now k))) }
    ensures few { IfOk result (λ v. length known.new.items ≤ layout_limit) }
    ensures err { IfErr result (λ e. IsMemory e
        ⊎ ((e ≡ fault_at too_many_layouts places.None) × (layout_limit
        < length (layouts.with_layouts known.old.items (layouts.held_layouts holders.now))))) }
{
    let mut numbers = Vec::new(alloc);
    for holder in holders {
        let layout = holder.layout();
        fits(layout);
        let number = number_in(known, layout)?;
        numbers.push(number)?;
    }
    Ok(numbers)
}

/// The layouts of a network, and the 0-based number of each holder's layout.
#[derive(Debug, Drop)]
pub struct Numbering {
    /// The layouts, each once.
    pub layouts: Vec<Layout>,
    /// For each cache and aggregation, the number of its layout.
    pub numbers: Vec<usize>,
}

/// Numbers the layouts of a network.
///
/// Fails with 207 if there are too many layouts, and with 900 if out of memory.
pub fn numbering_of(alloc: Global, net: &Net) -> Result<Numbering, Fault>
    ensures layouts { IfOk result (λ n. n.layouts.items ≡ layouts.layouts_of net.now) }
    ensures numbers { IfOk result (λ n. layouts.AreNumbers n.layouts.items net.now.holders
        n.numbers.items) }
    ensures fits { IfOk result (λ n. (k : ℕ) → Fits (layout_of (slice_get net.now.holders k))) }
    ensures few { IfOk result (λ n. length n.layouts.items ≤ layout_limit) }
    ensures err { IfErr result (λ e. IsMemory e
        ⊎ ((e ≡ fault_at too_many_layouts places.None)
        × (layout_limit < length (layouts.layouts_of net.now)))) }
{
    let mut layouts = Vec::new(alloc);
    let numbers = numbers_of(alloc, &mut layouts, net.holders())?;
    let _report = number_in(&mut layouts, net.report_layout())?;
    Ok(Numbering { layouts, numbers })
}
