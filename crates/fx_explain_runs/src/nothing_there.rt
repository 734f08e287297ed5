//! Explaining why something that a line of a schedule refers to doesn't exist.

use fx_base::entry_numbered;
use fx_config::{CacheKind, CollectingProcess};
use fx_elements::{Words, is_word};
use fx_explanation::{Explanation, between, write_end};
use fx_plan::Plan;
use fx_topology::{NamedLink, NetworkDevice};
use fx_walk::Named;

/// The maximum number of names or links that are written.
const SHOWN: usize = 20;

/// Returns the first three numbers of these words, with 0 for each missing one.
fn first_numbers(words: Words<'_>) -> [u64; 3] {
    let mut numbers = [0; 3];
    let mut left = words;
    for index in 0..3 {
        let Some((number, rest)) = left.number() else {
            return numbers;
        };
        numbers[index] = number;
        left = rest;
    }
    numbers
}

/// Writes that a number refers to nothing, and the range of the existing numbers.
fn write_count(out: &mut Explanation, words: &'static str, number: u64, there: usize) {
    out.text_number(words, number);
    if there == 0 {
        out.text(", nor any other one");
    } else {
        out.text_number("; they count from 1 to ", there as u64);
        out.text(", in document order: ");
    }
}

/// Writes that a number refers to none of these entries, and the numbers and names of the existing ones.
fn write_absent<T: Named>(out: &mut Explanation, words: &'static str, number: u64, entries: &[T]) {
    write_count(out, words, number, entries.len());
    for index in 0..entries.len().min(SHOWN) {
        out.text(between(index > 0, ", "));
        out.number(index as u64 + 1);
        out.text_quoted(" ", entries[index].name().as_str());
    }
    out.sentence(if entries.len() > SHOWN { ", .." } else { "" });
}

/// Writes which processes a link connects.
fn write_link(out: &mut Explanation, link: &NamedLink) {
    out.text_quoted("from exporting process ", link.exporting_process.as_str());
    out.text(" of ");
    out.text(link.device.as_str());
    out.text(" to ");
    write_end(out, link);
}

/// Writes that there is no link with this number, and the existing links.
fn write_no_link(out: &mut Explanation, number: u64, links: &[NamedLink]) {
    write_count(out, "there is no link ", number, links.len());
    for index in 0..links.len().min(SHOWN) {
        out.text(between(index > 0, "; "));
        out.number(index as u64 + 1);
        out.text(" ");
        write_link(out, &links[index]);
    }
    out.sentence(if links.len() > SHOWN { "; .." } else { "" });
}

/// Writes that fewer octets wait on a link, or that there is none with this number.
fn write_few_octets(out: &mut Explanation, plan: &Plan, number: u64, octets: u64) {
    let links = plan.network().links.as_slice();
    let Some(link) = entry_numbered(links, number) else {
        write_no_link(out, number, links);
        return;
    };
    out.text_number("fewer octets than ", octets);
    out.text_number(" wait on link ", number);
    out.text(", ");
    write_link(out, link);
    out.sentence(
        ": a record that is exported there puts its octets on it, and each line carry takes off what it carries",
    );
    out.text(if octets > 1 {
        "carry fewer, put"
    } else {
        "put"
    });
    out.text_number(
        " the line after those that export there, or remove it; --links PREFIX keeps in the file PREFIX",
        number,
    );
    out.sentence(" all octets that were put on it");
}

/// Writes why no record leaves the cache with this number of a device.
fn write_no_cached(out: &mut Explanation, device: &NetworkDevice, number: u64) {
    let caches = device.config.caches.as_slice();
    let Some(cache) = entry_numbered(caches, number) else {
        write_absent(out, " has no cache ", number, caches);
        return;
    };
    out.text_quoted(": cache ", cache.name.as_str());
    out.sentence(match cache.kind {
        CacheKind::Immediate => {
            " is an immediateCache, which exports each packet's record at once and holds none; remove the line"
        }
        _ => {
            " holds no record before this line: a line next adds one if the cache meters the packet, and each line expire removes one; move the line after such a next, or remove it"
        }
    });
}

/// Writes why no record leaves the aggregation with this number of a collecting process.
fn write_no_aggregated(out: &mut Explanation, process: &CollectingProcess, number: u64) {
    out.text_quoted(": collecting process ", process.name.as_str());
    let aggregations = process.aggregations.as_slice();
    let Some(aggregation) = entry_numbered(aggregations, number) else {
        write_absent(out, " has no aggregation ", number, aggregations);
        return;
    };
    out.text_quoted(": aggregation ", aggregation.name.as_str());
    out.sentence(
        " holds no record before this line: a line carry over a link to its collecting process adds those that it takes in, and each line emit removes one; move the line after such a carry, or remove it",
    );
}

/// Writes which of an exporting process and a destination of a device don't exist.
fn write_no_destination(
    out: &mut Explanation,
    device: &NetworkDevice,
    number: u64,
    destination: u64,
) {
    let processes = device.config.exporting_processes.as_slice();
    let Some(process) = entry_numbered(processes, number) else {
        write_absent(out, " has no exporting process ", number, processes);
        return;
    };
    out.text_quoted(": exporting process ", process.name.as_str());
    let destinations = process.destinations.as_slice();
    write_absent(out, " has no destination ", destination, destinations);
}

/// Writes what doesn't exist at a device, for a line of this kind with these numbers.
fn write_at_device(out: &mut Explanation, plan: &Plan, kind: &[u8], numbers: [u64; 3]) {
    let devices = plan.network().devices.as_slice();
    let [number, second, third] = numbers;
    let Some(device) = entry_numbered(devices, number) else {
        write_absent(out, "there is no device ", number, devices);
        return;
    };
    out.text_number("device ", number);
    out.text_quoted(" ", device.name.as_str());
    if is_word(kind, b"expire") {
        write_no_cached(out, device, second);
    } else if is_word(kind, b"use") {
        write_no_destination(out, device, second, third);
    } else {
        let processes = device.config.collecting_processes.as_slice();
        match entry_numbered(processes, second) {
            Some(process) => write_no_aggregated(out, process, third),
            None => write_absent(out, " has no collecting process ", second, processes),
        }
    }
}

/// Explains why something that a line of a schedule refers to doesn't exist: which of its numbers refers to nothing, or
/// else what is missing at that line, given the number of packets that were read before.
pub(crate) fn write_nothing_there(out: &mut Explanation, plan: &Plan, line: &[u8], read: u64) {
    let Some((kind, words)) = Words::new(line).word() else {
        return;
    };
    let numbers = first_numbers(words);
    if is_word(kind, b"next") {
        out.text_number(
            "the capture has no packet left: the lines next above have read ",
            read,
        );
        out.sentence("; frames that aren't IP, or are malformed, are skipped; remove this line");
    } else if is_word(kind, b"carry") {
        let [link, octets, _] = numbers;
        write_few_octets(out, plan, link, octets);
    } else {
        write_at_device(out, plan, kind, numbers);
    }
}
