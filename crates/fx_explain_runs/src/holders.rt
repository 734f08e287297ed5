//! Records that leave a cache or an aggregation, and records that reach a collecting process.
use crate::choosing::aggregation_at;
use crate::packets::write_missing;
use fx_base::{Name, entry_numbered};
use fx_config::{Aggregation, CollectingProcess};
use fx_explanation::{Explanation, entry_named, write_end, write_sending};
use fx_plan::Plan;
use fx_tables::HolderName;
use fx_topology::{NamedLink, NetworkDevice, Report};

/// Writes where a record goes that leaves a cache or an aggregation of a device.
fn write_leaving(
    out: &mut Explanation,
    plan: &Plan,
    device: &NetworkDevice,
    exporters: &[Name],
    choices: &[Option<u64>],
) {
    out.text(" of ");
    out.text(device.name.as_str());
    out.text(": ");
    write_sending(out, plan, device, exporters, choices);
    if exporters.is_empty() {
        out.text("it has no exporting process, so the record is lost");
    }
    out.end_line();
}

/// Writes that a record leaves the cache with this number.
fn write_cache(
    out: &mut Explanation,
    plan: &Plan,
    device: &NetworkDevice,
    number: u64,
    choices: &[Option<u64>],
) {
    let caches = device.config.caches.as_slice();
    let Some(cache) = entry_numbered(caches, number) else {
        write_missing(out, "its device has no cache ", number, caches.len());
        return;
    };
    out.text_quoted("a record leaves cache ", cache.name.as_str());
    write_leaving(
        out,
        plan,
        device,
        cache.exporting_processes.as_slice(),
        choices,
    );
}

/// Writes that a record leaves the aggregation with this number of a collecting process.
fn write_aggregation(
    out: &mut Explanation,
    plan: &Plan,
    device: &NetworkDevice,
    process: u64,
    number: u64,
    choices: &[Option<u64>],
) {
    let processes = device.config.collecting_processes.as_slice();
    let Some(found) = entry_numbered(processes, process) else {
        let words = "its device has no collecting process ";
        write_missing(out, words, process, processes.len());
        return;
    };
    let aggregations = found.aggregations.as_slice();
    let Some(aggregation) = entry_numbered(aggregations, number) else {
        let words = "its collecting process has no aggregation ";
        write_missing(out, words, number, aggregations.len());
        return;
    };
    out.text_quoted("a record leaves aggregation ", aggregation.name.as_str());
    out.text_quoted(" of collecting process ", found.name.as_str());
    write_leaving(
        out,
        plan,
        device,
        aggregation.exporting_processes.as_slice(),
        choices,
    );
}

/// Writes the cache with this number of a device.
fn write_cache_name(out: &mut Explanation, device: &NetworkDevice, number: u64) {
    if let Some(cache) = entry_numbered(device.config.caches.as_slice(), number) {
        out.text_quoted("cache ", cache.name.as_str());
    }
}

/// Writes the aggregation with this number of a collecting process of a device.
fn write_aggregation_name(
    out: &mut Explanation,
    device: &NetworkDevice,
    process: u64,
    number: u64,
) {
    if let Some(aggregation) = aggregation_at(device, process, number) {
        out.text_quoted("aggregation ", aggregation.name.as_str());
    }
}

/// Writes a cache or an aggregation by its name and that of its device.
pub(crate) fn write_holder(out: &mut Explanation, plan: &Plan, holder: HolderName) {
    let number = match holder {
        HolderName::Cache { device, .. } => device,
        HolderName::Aggregation { device, .. } => device,
    };
    let Some(device) = entry_numbered(plan.network().devices.as_slice(), number) else {
        return;
    };
    match holder {
        HolderName::Cache { cache, .. } => write_cache_name(out, device, cache),
        HolderName::Aggregation {
            process,
            aggregation,
            ..
        } => write_aggregation_name(out, device, process, aggregation),
    }
    out.text(" of ");
    out.text(device.name.as_str());
}

/// Writes that a record leaves its holder, and where it goes by the choices of the step.
pub(crate) fn write_expiry(
    out: &mut Explanation,
    plan: &Plan,
    holder: HolderName,
    choices: &[Option<u64>],
) {
    let number = match holder {
        HolderName::Cache { device, .. } => device,
        HolderName::Aggregation { device, .. } => device,
    };
    let devices = plan.network().devices.as_slice();
    let Some(device) = entry_numbered(devices, number) else {
        write_missing(out, "there is no device ", number, devices.len());
        return;
    };
    match holder {
        HolderName::Cache { cache, .. } => write_cache(out, plan, device, cache, choices),
        HolderName::Aggregation {
            process,
            aggregation,
            ..
        } => write_aggregation(out, plan, device, process, aggregation, choices),
    }
}

/// Returns whether a link leads to the collecting process of the report.
pub(crate) fn leads_to_report(report: &Report, link: &NamedLink) -> bool {
    report.device == link.to_device && report.collecting_process == link.to_process
}

/// Writes which of these aggregations accept a record, given how many of them do.
fn write_taking(out: &mut Explanation, aggregations: &[Aggregation], taken: usize) {
    let words = if taken >= aggregations.len() {
        " takes it in"
    } else {
        " may take it in"
    };
    if taken == 0 {
        return;
    }
    for aggregation in aggregations {
        out.text_quoted("; aggregation ", aggregation.name.as_str());
        out.text(words);
    }
}

/// Writes what a collecting process does with a record, by the choices of the step.
fn write_handling(
    out: &mut Explanation,
    plan: &Plan,
    device: &NetworkDevice,
    process: &CollectingProcess,
    choices: &[Option<u64>],
) {
    let exporters = process.exporting_processes.as_slice();
    if !exporters.is_empty() {
        out.text("; ");
    }
    let made = write_sending(out, plan, device, exporters, choices);
    let taken = choices.len().saturating_sub(made);
    write_taking(out, process.aggregations.as_slice(), taken);
}

/// Writes that a record reaches the collecting process at the end of a link.
fn write_reaching(out: &mut Explanation, plan: &Plan, link: &NamedLink, choices: &[Option<u64>]) {
    out.text_quoted(
        "a record on the link from destination ",
        link.destination.as_str(),
    );
    out.text_quoted(" of exporting process ", link.exporting_process.as_str());
    out.text(" of ");
    out.text(link.device.as_str());
    out.text(" reaches ");
    write_end(out, link);
    if leads_to_report(&plan.network().report, link) {
        out.text("; it is counted, or unassigned where it lacks the report's key");
    }
    let devices = plan.network().devices.as_slice();
    if let Some(device) = entry_named(devices, &link.to_device) {
        let processes = device.config.collecting_processes.as_slice();
        if let Some(process) = entry_named(processes, &link.to_process) {
            write_handling(out, plan, device, process, choices);
        }
    }
    out.end_line();
}

/// Writes that a record on the link with this number reaches its end.
pub(crate) fn write_arrival(
    out: &mut Explanation,
    plan: &Plan,
    number: u64,
    choices: &[Option<u64>],
) {
    let links = plan.network().links.as_slice();
    match entry_numbered(links, number) {
        Some(link) => write_reaching(out, plan, link, choices),
        None => write_missing(out, "there is no link ", number, links.len()),
    }
}
