//! Parts of a network that lead nowhere, and parts that nothing feeds.
use fx_base::Name;
use fx_config::{Cache, CollectingProcess, ExportingProcess, SelectionProcess};
use fx_explanation::{Explanation, link_from};
use fx_plan::Plan;
use fx_topology::{NamedLink, NetworkDevice};

/// Writes the destinations of an exporting process that have no link.
fn write_destinations(
    out: &mut Explanation,
    links: &[NamedLink],
    device: &Name,
    process: &ExportingProcess,
) {
    for destination in process.destinations.as_slice() {
        if link_from(links, device, &process.name, &destination.name).is_none() {
            write_lost(
                out,
                device.as_str(),
                process.name.as_str(),
                destination.name.as_str(),
            );
        }
    }
}

/// Writes that a destination has no link.
fn write_lost<'x>(out: &mut Explanation, device: &'x str, process: &'x str, destination: &'x str) {
    out.text_quoted("destination ", destination);
    out.text_quoted(" of exporting process ", process);
    out.text(" of ");
    out.text(device);
    out.sentence(" has no link: what it is sent is lost");
}

/// Returns whether a selection process passes packets to the cache with this name.
fn feeds(process: &SelectionProcess, name: &Name) -> bool {
    match &process.cache {
        Some(cache) => cache == name,
        None => false,
    }
}

/// Returns whether one of these selection processes passes packets to the cache with this name.
fn is_fed(processes: &[SelectionProcess], name: &Name) -> bool {
    for process in processes {
        if feeds(process, name) {
            return true;
        }
    }
    false
}

/// Writes that nothing feeds a cache.
fn write_empty<'x>(out: &mut Explanation, device: &'x Name, cache: &'x Cache) {
    out.text_quoted("no selection process feeds cache ", cache.name.as_str());
    out.text(" of ");
    out.sentence(device.as_str());
}

/// Writes the caches of a device that no selection process feeds.
fn write_caches(out: &mut Explanation, device: &NetworkDevice) {
    let processes = device.config.selection_processes.as_slice();
    for cache in device.config.caches.as_slice() {
        if !is_fed(processes, &cache.name) {
            write_empty(out, &device.name, cache);
        }
    }
}

/// Writes an entry by its kind and name, and what of it leads nowhere.
fn write_end<'x>(
    out: &mut Explanation,
    kind: &'static str,
    name: &'x Name,
    device: &'x Name,
    words: &'static str,
) {
    out.text(kind);
    out.text_quoted(" ", name.as_str());
    out.text(" of ");
    out.text(device.as_str());
    out.sentence(words);
}

/// Writes the observation points and selection processes of a device by which no packet is metered.
fn write_unmetered(out: &mut Explanation, device: &NetworkDevice) {
    for point in device.config.observation_points.as_slice() {
        if point.selection_processes.as_slice().is_empty() {
            let words = " has no selection process, so nothing there is metered";
            write_end(out, "observation point", &point.name, &device.name, words);
        }
    }
    for process in device.config.selection_processes.as_slice() {
        if process.cache.is_none() {
            let words = " has no cache, so what it selects isn't metered";
            write_end(out, "selection process", &process.name, &device.name, words);
        }
    }
}

/// Writes the caches of a device whose records go nowhere.
fn write_unexported(out: &mut Explanation, device: &NetworkDevice) {
    for cache in device.config.caches.as_slice() {
        if cache.exporting_processes.as_slice().is_empty() {
            let words = " has no exporting process, so its records are lost";
            write_end(out, "cache", &cache.name, &device.name, words);
        }
    }
}

/// Writes the caches of a device that have no flow key.
fn write_keyless(out: &mut Explanation, device: &NetworkDevice) {
    for cache in device.config.caches.as_slice() {
        if cache.layout.parts().is_empty() {
            let words = " has no flow key (isFlowKey), so its records don't distinguish packets";
            write_end(out, "cache", &cache.name, &device.name, words);
        }
    }
}

/// Writes the aggregations of a collecting process whose records go nowhere.
fn write_unsent(out: &mut Explanation, device: &NetworkDevice, process: &CollectingProcess) {
    for aggregation in process.aggregations.as_slice() {
        if aggregation.exporting_processes.as_slice().is_empty() {
            let words = " has no exporting process, so its records are lost";
            write_end(out, "aggregation", &aggregation.name, &device.name, words);
        }
    }
}

/// Returns whether a link leads to a collecting process of a device.
fn is_linked(links: &[NamedLink], device: &Name, process: &Name) -> bool {
    for link in links {
        if link.to_device == *device && link.to_process == *process {
            return true;
        }
    }
    false
}

/// Writes the collecting processes of a device to which no link leads, and their aggregations whose records go nowhere.
fn write_collecting(out: &mut Explanation, links: &[NamedLink], device: &NetworkDevice) {
    for process in device.config.collecting_processes.as_slice() {
        if !is_linked(links, &device.name, &process.name) {
            let words = " has no link that leads to it";
            write_end(
                out,
                "collecting process",
                &process.name,
                &device.name,
                words,
            );
        }
        write_unsent(out, device, process);
    }
}

/// Writes which parts of a device lead nowhere, and which nothing feeds.
fn write_device(out: &mut Explanation, links: &[NamedLink], device: &NetworkDevice) {
    write_unmetered(out, device);
    write_caches(out, device);
    write_unexported(out, device);
    write_keyless(out, device);
    for process in device.config.exporting_processes.as_slice() {
        write_destinations(out, links, &device.name, process);
    }
    write_collecting(out, links, device);
}

/// Writes the observation points, selection processes, caches, destinations and aggregations of a network that lead
/// nowhere, and the caches and collecting processes that nothing feeds.
pub(crate) fn write_unused(out: &mut Explanation, plan: &Plan) {
    let network = plan.network();
    for device in network.devices.as_slice() {
        write_device(out, network.links.as_slice(), device);
    }
}
