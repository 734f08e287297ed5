//! The names of a network's holders, by place.
ghost use Rattle.std.specs.Prelude.{◌≡◌, ◌<◌, ℕ, suc, Some, IfOk, length, slice_get};
ghost use Rattle.fx_tables.specs.Network as network;
ghost use Rattle.fx_tables.specs.declared.holder_name.HolderName as of_name;
ghost use Rattle.fx_tables.specs.declared.holder_name.HolderName.TheVariants as variants;
ghost use Rattle.fx_steps.specs.Names as naming;

use fx_tables::{DeviceEntry, HolderName, Net};
use std::alloc::{AllocError, Global};

/// Records the name for its holder, if there is one.
fn note(names: &mut [HolderName], net: &Net, name: HolderName)
    ensures kept { naming.Keep net.now names.old names.new }
    ensures noted { naming.Note net.now names.new name }
{
    if let Some(index) = net.holder_place(name) {
        if index < names.len() {
            names[index] = name;
        }
    }
}

/// Records the names of the first `count` caches of a device, insofar as they exist.
fn note_caches(names: &mut [HolderName], net: &Net, device: u64, count: usize)
    ensures kept { naming.Keep net.now names.old names.new }
    ensures noted { (cache : ℕ) → cache < count → naming.Note net.now names.new (variants.Cache
        device (suc cache)) }
{
    for cache in 0..count {
        let cache = cache as u64 + 1;
        note(names, net, HolderName::Cache { device, cache });
    }
}

/// Records the names of the first `count` aggregations of a collecting process, insofar as they exist.
fn note_aggregations(names: &mut [HolderName], net: &Net, device: u64, process: u64, count: usize)
    ensures kept { naming.Keep net.now names.old names.new }
    ensures noted { (aggregation : ℕ) → aggregation < count
        → naming.Note net.now names.new (variants.Aggregation device process (suc aggregation)) }
{
    for aggregation in 0..count {
        let name = HolderName::Aggregation {
            device,
            process,
            aggregation: aggregation as u64 + 1,
        };
        note(names, net, name);
    }
}

/// Returns the number of aggregations of the collecting process at this place.
fn count_aggregations(net: &Net, index: usize) -> usize
    ensures { result ≡ length (network.aggregations_of (slice_get net.now.processes index)) }
{
    match net.processes().get(index) {
        None => 0,
        Some(process) => process.aggregations().len(),
    }
}

/// Records the names of the aggregations of the collecting processes at these places.
fn note_processes(names: &mut [HolderName], net: &Net, device: u64, places: &[usize])
    ensures kept { naming.Keep net.now names.old names.new }
    ensures noted { (process place aggregation : ℕ) → slice_get places.now process ≡ Some place
        → aggregation < length (network.aggregations_of (slice_get net.now.processes place))
        → naming.Note net.now names.new (variants.Aggregation device (suc process) (suc
        aggregation)) }
{
    for process in 0..places.len() {
        let count = count_aggregations(net, places[process]);
        note_aggregations(names, net, device, process as u64 + 1, count);
    }
}

/// Records the names of the holders of the device of this number.
fn note_device(names: &mut [HolderName], net: &Net, number: u64, device: &DeviceEntry)
    requires { network.entry_numbered net.now.devices number ≡ Some device.now }
    ensures kept { naming.Keep net.now names.old names.new }
    ensures noted { (name : of_name.HolderName) → naming.device_of name ≡ number
        → naming.Note net.now names.new name }
{
    note_caches(names, net, number, device.caches().len());
    note_processes(names, net, number, device.processes());
}

/// Returns the given number of names that name nothing.
fn no_names(alloc: Global, count: usize) -> Result<Vec<HolderName>, AllocError>
    ensures { IfOk result (λ names. length names.items ≡ count) }
{
    let mut names: Vec<HolderName> = Vec::with_capacity(alloc, count)?;
    for _holder in 0..count {
        names.push(HolderName::Cache {
            device: 0,
            cache: 0,
        })?;
    }
    Ok(names)
}

/// Records the names of the holders of all devices of the network.
fn note_devices(names: &mut [HolderName], net: &Net)
    requires { length names.old ≡ length net.now.holders }
    ensures { naming.NameAll net.now names.new }
{
    let devices = net.devices();
    for number in 0..devices.len() {
        note_device(names, net, number as u64 + 1, &devices[number]);
    }
}

/// Returns the names of a network's holders, by place.
pub(crate) fn names_of(alloc: Global, net: &Net) -> Result<Vec<HolderName>, AllocError>
    ensures { IfOk result (λ names. naming.NameAll net.now names.items) }
{
    let mut names = no_names(alloc, net.holders().len())?;
    note_devices(names.as_mut_slice(), net);
    Ok(names)
}
