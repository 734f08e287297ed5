//! The fate of records downstream of the devices at which a path's packets are metered.
use crate::holders::leads_to_report;
use crate::matches::{ArrivingRecords, write_untaken};
use crate::missing_fields::Arriving;
use fx_base::{Name, entry_at, entry_numbered};
use fx_boxes::Region;
use fx_config::{Aggregation, CollectingProcess};
use fx_explanation::{Explanation, write_end, write_sending};
use fx_leaf::{Overlap, selection_overlap};
use fx_plan::Plan;
use fx_tables::{AggregationEntry, Crossing, HolderName, Point};
use fx_topology::{NamedLink, NetworkDevice};
use fx_walk::place_of;

/// The maximum number of ways to collecting processes that are written.
const SHOWN: usize = 64;

/// The ways by which records reach different collecting processes, or reach them with different keys, up to the maximum
/// that is written.
#[derive(Drop)]
struct Ways<'a> {
    plan: &'a Plan,
    /// The indices of their links.
    places: [usize; SHOWN],
    /// For each way, the cache or the aggregation that its records left last.
    holders: [HolderName; SHOWN],
    count: usize,
}

/// Returns whether two links lead to the same collecting process.
fn is_same_end(one: &NamedLink, other: &NamedLink) -> bool {
    one.to_device == other.to_device && one.to_process == other.to_process
}

/// Returns whether the records of two caches or aggregations have the same key.
fn is_same_key(plan: &Plan, one: HolderName, other: HolderName) -> bool {
    let net = plan.net();
    match (net.holder_place(one), net.holder_place(other)) {
        (Some(one), Some(other)) => net.layout_at(one).same(&net.layout_at(other)),
        _ => false,
    }
}

impl Ways<'_> {
    /// Returns whether the way at an index leads to the collecting process of a link.
    fn ends_at(&self, index: usize, link: &NamedLink) -> bool {
        let links = self.plan.network().links.as_slice();
        match entry_at(links, index) {
            Some(other) => is_same_end(other, link),
            None => false,
        }
    }

    /// Returns whether one of the first `before` ways leads to the collecting process of a link.
    fn has_end(&self, link: &NamedLink, before: usize) -> bool {
        for index in self.places.iter().take(before) {
            if self.ends_at(*index, link) {
                return true;
            }
        }
        false
    }

    /// Returns whether there is a way by which records with the same key reach the collecting process of a link.
    fn has(&self, link: &NamedLink, holder: HolderName) -> bool {
        for known in 0..SHOWN {
            if known < self.count
                && self.ends_at(self.places[known], link)
                && is_same_key(self.plan, self.holders[known], holder)
            {
                return true;
            }
        }
        false
    }

    /// Adds the link at an index, by which records of a cache or an aggregation arrive.
    fn add(&mut self, index: usize, link: &NamedLink, holder: HolderName) {
        if self.count < SHOWN && !self.has(link, holder) {
            self.places[self.count] = index;
            self.holders[self.count] = holder;
            self.count += 1;
        }
    }
}

/// Adds the links by which exporting processes of a device send the records of a cache or an aggregation.
fn add_links(found: &mut Ways<'_>, device: &NetworkDevice, exporters: &[Name], holder: HolderName) {
    let links = found.plan.network().links.as_slice();
    for index in 0..links.len() {
        let link = &links[index];
        if link.device == device.name && exporters.contains(&link.exporting_process) {
            found.add(index, link, holder);
        }
    }
}

/// Returns whether a point passes packets of a region to the cache at an index of the network's table.
fn is_selected(point: &Point, region: &Region, holder: Option<usize>) -> bool {
    for selection in point.selections() {
        if selection.holder == holder
            && !matches!(
                selection_overlap(region, &selection.region),
                Overlap::Nothing
            )
        {
            return true;
        }
    }
    false
}

/// Returns whether a cache meters packets of a region that cross an interface.
fn is_metered(plan: &Plan, region: &Region, crossing: &Crossing, cache: HolderName) -> bool {
    let holder = plan.net().holder_place(cache);
    for point in plan.net().points_of(crossing.device) {
        if point.watches(crossing) && is_selected(point, region, holder) {
            return holder.is_some();
        }
    }
    false
}

/// Adds the links by which the caches of a crossing's device that meter packets of a region there send records.
fn add_first(found: &mut Ways<'_>, region: &Region, crossing: &Crossing) {
    let plan = found.plan;
    let devices = plan.network().devices.as_slice();
    let Some(device) = entry_numbered(devices, crossing.device) else {
        return;
    };
    let caches = device.config.caches.as_slice();
    for index in 0..caches.len() {
        let cache = HolderName::Cache {
            device: crossing.device,
            cache: index as u64 + 1,
        };
        if is_metered(plan, region, crossing, cache) {
            let exporters = caches[index].exporting_processes.as_slice();
            add_links(found, device, exporters, cache);
        }
    }
}

/// Returns the aggregations of the collecting process to which the link at an index leads.
fn aggregations_at(plan: &Plan, link: usize) -> &[AggregationEntry] {
    let Some(end) = entry_at(plan.net().links(), link).copied() else {
        return &[];
    };
    match entry_at(plan.net().processes(), end) {
        Some(handled) => handled.aggregations(),
        None => &[],
    }
}

/// Adds the links by which a collecting process forwards records that arrive by the link at an index, including those
/// by which the aggregations that take them in send theirs. The indices of its device and of itself count from 0.
fn add_onward(
    found: &mut Ways<'_>,
    taken: &ArrivingRecords<'_>,
    link: usize,
    places: (usize, usize),
) {
    let process = taken.process;
    let exporters = process.exporting_processes.as_slice();
    add_links(found, taken.device, exporters, taken.holder);
    let entries = aggregations_at(found.plan, link);
    let aggregations = process.aggregations.as_slice();
    for index in 0..aggregations.len() {
        let aggregation = HolderName::Aggregation {
            device: (places.0 as u64).saturating_add(1),
            process: (places.1 as u64).saturating_add(1),
            aggregation: index as u64 + 1,
        };
        if index < entries.len() && taken.are_taken_by(&aggregations[index], &entries[index]) {
            let exporters = aggregations[index].exporting_processes.as_slice();
            add_links(found, taken.device, exporters, aggregation);
        }
    }
}

/// Writes where an aggregation's records go.
fn write_aggregation(
    out: &mut Explanation,
    plan: &Plan,
    device: &NetworkDevice,
    aggregation: &Aggregation,
) {
    let exporters = aggregation.exporting_processes.as_slice();
    out.text_quoted("; aggregation ", aggregation.name.as_str());
    out.text(if exporters.is_empty() {
        ": it has no exporting process, so its records are lost"
    } else {
        ": "
    });
    let _choices = write_sending(out, plan, device, exporters, &[]);
}

/// Writes the collecting process to which a link leads, and where it forwards records.
fn write_process(
    out: &mut Explanation,
    plan: &Plan,
    link: &NamedLink,
    device: &NetworkDevice,
    process: &CollectingProcess,
) {
    let exporters = process.exporting_processes.as_slice();
    write_end(out, link);
    if leads_to_report(&plan.network().report, link) {
        out.text(" is the report's");
    }
    if !exporters.is_empty() {
        out.text("; it forwards: ");
        let _choices = write_sending(out, plan, device, exporters, &[]);
    }
    for aggregation in process.aggregations.as_slice() {
        write_aggregation(out, plan, device, aggregation);
    }
    out.end_line();
}

/// Writes why records that arrive by the link at an index remain unassigned, or aren't accepted by aggregations of a
/// collecting process.
fn write_lacking(out: &mut Explanation, taken: &ArrivingRecords<'_>, link: usize) {
    let net = taken.arriving.plan.net();
    if entry_at(net.links(), link).copied() == Some(net.report()) {
        taken.arriving.write_unassigned_of(out, taken.holder);
    }
    write_untaken(out, taken, aggregations_at(taken.arriving.plan, link));
}

/// Writes what happens to records that arrive by the link at an index, and adds the ways by which they are forwarded.
/// The indices of the device and of the collecting process count from 0.
fn write_arriving<'x>(
    out: &mut Explanation,
    found: &mut Ways<'_>,
    plan: &'x Plan,
    region: &'x Region,
    link: usize,
    holder: HolderName,
    device: &'x NetworkDevice,
    process: &'x CollectingProcess,
    places: (usize, usize),
) {
    let fields = region.corner();
    let arriving = Arriving {
        plan,
        origin: plan.net().holder_place(holder).unwrap_or(usize::MAX),
        fields: &fields,
    };
    let taken = ArrivingRecords {
        region,
        arriving,
        holder,
        device,
        process,
    };
    write_lacking(out, &taken, link);
    add_onward(found, &taken, link, places);
}

/// Writes what happens to records at the end of the way with this 0-based number, if no earlier way leads there, and
/// adds the ways by which they are forwarded.
fn write_way(
    out: &mut Explanation,
    found: &mut Ways<'_>,
    region: &Region,
    index: usize,
    next: usize,
    holder: HolderName,
) -> Option<()> {
    let plan = found.plan;
    let link = entry_at(plan.network().links.as_slice(), index)?;
    let devices = plan.network().devices.as_slice();
    let at = place_of(devices, &link.to_device)?;
    let device = entry_at(devices, at)?;
    let processes = device.config.collecting_processes.as_slice();
    let of = place_of(processes, &link.to_process)?;
    let process = entry_at(processes, of)?;
    if !found.has_end(link, next) {
        write_process(out, plan, link, device, process);
    }
    write_arriving(
        out,
        found,
        plan,
        region,
        index,
        holder,
        device,
        process,
        (at, of),
    );
    Some(())
}

/// Writes the collecting processes that the records of a region's packets on a path may reach, each once and at most
/// 64: where each forwards them, what their key lacks for the report, and which aggregations don't accept all of them,
/// and why.
pub(crate) fn write_following(
    out: &mut Explanation,
    plan: &Plan,
    region: &Region,
    crossings: &[Crossing],
) {
    let nothing = HolderName::Cache {
        device: 0,
        cache: 0,
    };
    let mut found = Ways {
        plan,
        places: [0; SHOWN],
        holders: [nothing; SHOWN],
        count: 0,
    };
    for crossing in crossings {
        add_first(&mut found, region, crossing);
    }
    for next in 0..SHOWN {
        if next < found.count {
            let (place, holder) = (found.places[next], found.holders[next]);
            let _followed = write_way(out, &mut found, region, place, next, holder);
        }
    }
}
