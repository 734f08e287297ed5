//! How the entries of a network's devices are named.
ghost use Rattle.std.specs.Prelude.{◌≡◌, ◌++◌, List, OnOk, IfOk, length, map};
ghost use Rattle.std.specs.List.{position};
ghost use Rattle.fx_plan.specs.Labels as naming;

use fx_base::Name;
use fx_config::{Cache, CollectingProcess, ExportingProcess};
use fx_topology::NetworkDevice;
use fx_walk::Named;
use std::alloc::{AllocError, Global};
use std::marker::Model;

/// A kind of entry that a device has a list of.
pub trait Thing: Named {
    ghost use Rattle.fx_topology.specs.declared.network_device.NetworkDevice.{NetworkDevice};

    /// The entries of this kind of a device, in document order.
    ghost things: { NetworkDevice → List Self };

    /// Returns the entries of this kind of a device, in document order.
    fn things(device: &NetworkDevice) -> &[Self]
        ensures { result.now ≡ things device.now };
}

impl Thing for ExportingProcess {
    ghost things = { λ device. device.config.exporting_processes };

    fn things(device: &NetworkDevice) -> &[ExportingProcess] {
        device.config.exporting_processes.as_slice()
    }
}

impl Thing for Cache {
    ghost things = { λ device. device.config.caches };

    fn things(device: &NetworkDevice) -> &[Cache] {
        device.config.caches.as_slice()
    }
}

impl Thing for CollectingProcess {
    ghost things = { λ device. device.config.collecting_processes };

    fn things(device: &NetworkDevice) -> &[CollectingProcess] {
        device.config.collecting_processes.as_slice()
    }
}

/// The device of an entry, and its own name.
#[derive(Drop)]
pub struct Label<'n> {
    device: &'n Name,
    name: &'n Name,
}

impl<'n> Model for Label<'n> {
    ghost use Rattle.fx_plan.specs.Labels as naming;

    ghost Value = { naming.Label };

    ghost view = { λ l. record { device = l.device.now; name = l.name.now } };
}

impl<'n> Label<'n> {
    /// Returns whether this is the label with the device and the name.
    fn is(&self, device: &Name, name: &Name) -> bool
        ensures { result ≡ naming.is_label device.now name.now self.now }
    {
        self.device == device && self.name == name
    }
}

/// Appends the labels of a device's entries.
fn push_labels<'n, T: Named>(
    labels: &mut Vec<Label<'n>>,
    device: &'n Name,
    things: &'n [T],
) -> Result<(), AllocError>
    ensures { OnOk result (labels.new.items
        ≡ labels.old.items ++ naming.device_labels T.name device.now things.now) }
{
    for thing in things {
        let name = thing.name();
        labels.push(Label { device, name })?;
    }
    Ok(())
}

/// Consecutive labels of one device.
#[derive(Drop)]
struct Group<'n> {
    device: &'n Name,
    start: usize,
    end: usize,
}

impl<'n> Model for Group<'n> {
    ghost use Rattle.fx_plan.specs.Labels as naming;

    ghost Value = { naming.Group };

    ghost view = { λ g. record { device = g.device.now; start = g.start; end = g.end } };
}

/// The labels of all entries of a kind, in document order. Contracts see them as the list of labels. The labels of a
/// device are found without searching those of the others.
#[derive(Drop)]
pub struct Labels<'n> {
    labels: Vec<Label<'n>>,
    groups: Vec<Group<'n>>,
}

impl<'n> Model for Labels<'n> {
    ghost use Rattle.std.specs.Prelude.{List, length};
    ghost use Rattle.fx_plan.specs.Labels as naming;

    ghost Value = { List naming.Label };

    ghost view = { λ l. l.labels.items };

    ghost invariant = { λ l. naming.AreGrouped 0 l.labels.items l.groups.items
        (length l.labels.items) };
}

/// Appends the labels of a device's entries, as a group.
fn push_group<'n, T: Named>(
    labels: &mut Vec<Label<'n>>,
    groups: &mut Vec<Group<'n>>,
    device: &'n Name,
    things: &'n [T],
) -> Result<(), AllocError>
    ensures labels { OnOk result (labels.new.items
        ≡ labels.old.items ++ naming.device_labels T.name device.now things.now) }
    ensures groups { OnOk result (naming.AreGrouped 0 labels.old.items groups.old.items
        (length labels.old.items) → naming.AreGrouped 0 labels.new.items groups.new.items
        (length labels.new.items)) }
{
    let start = labels.len();
    push_labels(labels, device, things)?;
    let end = labels.len();
    groups.push(Group { device, start, end })?;
    Ok(())
}

/// Returns the labels of the entries of this kind of all devices, in document order.
pub fn labels_of<'n, T: Thing + 'n>(
    alloc: Global,
    devices: &'n [NetworkDevice],
) -> Result<Labels<'n>, AllocError>
    ensures { IfOk result (λ v. v ≡ naming.labels_of T.things T.name devices.now) }
{
    let mut labels = Vec::new(alloc);
    let mut groups = Vec::new(alloc);
    for device in devices {
        let things = T::things(device);
        push_group(&mut labels, &mut groups, &device.name, things)?;
    }
    Ok(Labels { labels, groups })
}

fn position_of(labels: &[Label<'_>], device: &Name, name: &Name) -> Option<usize>
    ensures { result ≡ position (naming.is_label device.now name.now) labels.now }
{
    labels.iter().position(|label| label.is(device, name))
}

/// Returns the 0-based place of an entry in a table whose entries have these labels, or the length of the table if
/// there is no such entry.
pub fn place(labels: &Labels<'_>, device: &Name, name: &Name) -> usize
    ensures { result ≡ naming.place labels.now device.now name.now }
{
    let all = labels.labels.as_slice();
    for group in labels.groups.as_slice() {
        if group.device == device {
            let own = &all[group.start..group.end];
            if let Some(n) = position_of(own, device, name) {
                return group.start + n;
            }
        }
    }
    all.len()
}

/// Returns the places of a device's entries.
pub fn places<T: Named>(
    alloc: Global,
    labels: &Labels<'_>,
    device: &Name,
    things: &[T],
) -> Result<Vec<usize>, AllocError>
    ensures { IfOk result (λ v. v.items ≡ map (λ t. naming.place labels.now device.now (T.name t))
        things.now) }
{
    let mut places = Vec::new(alloc);
    for thing in things {
        places.push(place(labels, device, thing.name()))?;
    }
    Ok(places)
}
