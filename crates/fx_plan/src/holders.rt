//! Holders of records: caches and aggregations.
ghost use Rattle.std.specs.Prelude.{◌≡◌, ◌++◌, OnOk, IfOk, map};
ghost use Rattle.std.specs.List.{flat_map};
ghost use Rattle.fx_plan.specs.Tables as tables;

use crate::labels::{Labels, places};
use fx_base::Name;
use fx_config::Cache;
use fx_layout::Layout;
use fx_tables::Holder;
use fx_topology::NetworkDevice;
use std::alloc::{AllocError, Global};

/// Returns a holder of records of the layout, which are sent to the exporting processes of these names.
pub fn holder_with(
    alloc: Global,
    exporting: &Labels<'_>,
    device: &Name,
    layout: &Layout,
    names: &[Name],
) -> Result<Holder, AllocError>
    ensures { let holder = tables.holder_with exporting.now device.now layout.now names.now in
        IfOk result (λ h. h ≡ holder) }
{
    let exporters = places(alloc, exporting, device, names)?;
    Ok(Holder::new(layout.copy(), exporters))
}

/// Appends the caches of a device.
fn push_caches(
    alloc: Global,
    holders: &mut Vec<Holder>,
    exporting: &Labels<'_>,
    device: &Name,
    caches: &[Cache],
) -> Result<(), AllocError>
    ensures { OnOk result (holders.new.items
        ≡ holders.old.items ++ map (tables.cache_holder exporting.now device.now) caches.now) }
{
    for cache in caches {
        let names = cache.exporting_processes.as_slice();
        holders.push(holder_with(alloc, exporting, device, &cache.layout, names)?)?;
    }
    Ok(())
}

/// Returns the caches of all devices, in document order.
pub fn cache_holders(
    alloc: Global,
    exporting: &Labels<'_>,
    devices: &[NetworkDevice],
) -> Result<Vec<Holder>, AllocError>
    ensures { IfOk result (λ v. v.items ≡ tables.cache_holders exporting.now devices.now) }
{
    let mut holders = Vec::new(alloc);
    for device in devices {
        let caches = device.config.caches.as_slice();
        push_caches(alloc, &mut holders, exporting, &device.name, caches)?;
    }
    Ok(holders)
}
