//! Sending of records on links.
ghost use Rattle.std.specs.Prelude.{◌≡◌, ◌⊎◌, ◌≤◌, ◌++◌, List, [], ◌∷◌, length, drop, Some, None, IfOk, IfErr, OnOk, OnErr, slice_get};
ghost use Rattle.fx_base.specs.Fault.{fault_at, IsMemory};
ghost use Rattle.fx_base.specs.declared.fault.Place.TheVariants as faults;
ghost use Rattle.fx_base.specs.Refusals.{wrong_choices};
ghost use Rattle.fx_tables.specs.Network as network;
ghost use Rattle.fx_machine.specs.Sends as sends;
ghost use Rattle.fx_machine.specs.States as states;
ghost use Rattle.fx_tables.specs.declared.record.Record as of_record;

use crate::records::Records;
use fx_base::{Fault, entry_numbered, refusals};
use fx_tables::{Exporter, Record};
use std::alloc::{AllocError, Global};

/// Appends the link of a destination, if it has one.
fn push_link(links: &mut Vec<usize>, destination: Option<usize>) -> Result<(), AllocError>
    ensures { OnOk result (links.new.items ≡ links.old.items ++ sends.link_list destination) }
{
    if let Some(link) = destination {
        links.push(link)?;
    }
    Ok(())
}

/// Appends the links of these destinations.
fn push_links(links: &mut Vec<usize>, destinations: &[Option<usize>]) -> Result<(), AllocError>
    ensures { OnOk result (links.new.items ≡ links.old.items ++ sends.links_of destinations.now) }
{
    for destination in destinations {
        push_link(links, *destination)?;
    }
    Ok(())
}

/// Returns the destination that the next choice names.
fn next_destination(
    destinations: &[Option<usize>],
    choices: &[Option<u64>],
) -> Option<Option<usize>>
    ensures { result ≡ sends.next_destination destinations.now choices.now }
{
    match choices {
        [] => None,
        [choice, ..] => match choice {
            None => None,
            Some(number) => entry_numbered(destinations, *number).copied(),
        },
    }
}

/// Appends the links of one exporting process, and returns the number of choices that it takes.
fn choose(
    links: &mut Vec<usize>,
    exporter: &Exporter,
    choices: &[Option<u64>],
) -> Result<usize, Fault>
    ensures ok { IfOk result (λ n. (n ≤ length choices.now) × ((rest : List network.Exporter) →
        sends.chosen_from links.old.items (exporter.now ∷ rest) choices.now
        ≡ sends.chosen_from links.new.items rest (drop n choices.now))) }
    ensures err { IfErr result (λ e. IsMemory e
        ⊎ ((e ≡ fault_at wrong_choices faults.None) × ((rest : List network.Exporter) →
        sends.chosen_from links.old.items (exporter.now ∷ rest) choices.now ≡ None))) }
{
    if exporter.parallel() {
        if push_links(links, exporter.destinations()).is_err() {
            return Err(Fault::bare(refusals::WANT_OF_MEMORY));
        }
        return Ok(0);
    }
    let Some(destination) = next_destination(exporter.destinations(), choices) else {
        return Err(Fault::bare(refusals::WRONG_CHOICES));
    };
    if push_link(links, destination).is_err() {
        return Err(Fault::bare(refusals::WANT_OF_MEMORY));
    }
    Ok(1)
}

/// Appends the links of the exporting process at an index of the table, and returns the number of its choices.
fn choose_at(
    links: &mut Vec<usize>,
    exporters: &[Exporter],
    index: usize,
    choices: &[Option<u64>],
) -> Result<usize, Fault>
    ensures ok { IfOk result (λ n. (n ≤ length choices.now) × ((rest : List network.Exporter) →
        sends.chosen_from links.old.items (network.before (slice_get exporters.now index) rest)
        choices.now
        ≡ sends.chosen_from links.new.items rest (drop n choices.now))) }
    ensures err { IfErr result (λ e. IsMemory e
        ⊎ ((e ≡ fault_at wrong_choices faults.None) × ((rest : List network.Exporter) →
        sends.chosen_from links.old.items (network.before (slice_get exporters.now index) rest)
        choices.now ≡ None))) }
{
    match exporters.get(index) {
        None => Ok(0),
        Some(exporter) => choose(links, exporter, choices),
    }
}

/// Returns the links on which the exporting processes at these indices send a record, each in turn, and the number of
/// choices that they take.
///
/// Fails with 852 if a choice is missing or names no destination, and with 900 if out of memory.
pub fn chosen_links(
    alloc: Global,
    exporters: &[Exporter],
    places: &[usize],
    choices: &[Option<u64>],
) -> Result<(Vec<usize>, usize), Fault>
    ensures ok { IfOk result (λ x. (x.1 ≤ length choices.now)
        × (sends.chosen_from [] (network.at_places exporters.now places.now) choices.now
        ≡ Some (record { links = x.0.items; rest = drop x.1 choices.now }))) }
    ensures err { IfErr result (λ e. IsMemory e
        ⊎ ((e ≡ fault_at wrong_choices faults.None) × (sends.chosen_from []
        (network.at_places exporters.now places.now) choices.now ≡ None))) }
{
    let mut links: Vec<usize> = Vec::new(alloc);
    let mut used: usize = 0;
    for index in places {
        match choose_at(&mut links, exporters, *index, &choices[used..]) {
            Ok(taken) => used += taken,
            Err(fault) => return Err(fault),
        }
    }
    Ok((links, used))
}

/// Returns the choices after the first `used`.
pub fn choices_from(choices: &[Option<u64>], used: usize) -> &[Option<u64>]
    ensures { result.now ≡ drop used choices.now }
{
    if used > choices.len() {
        return &[];
    }
    &choices[used..]
}

/// Appends a record to a link, if the link exists.
fn put_on(carried: &mut Vec<Records>, link: usize, entry: Record) -> Result<(), AllocError>
    ensures ok { OnOk result (carried.new.items ≡ states.put_last carried.old.items link entry) }
    ensures err { OnErr result (carried.new.items ≡ carried.old.items) }
{
    if link < carried.len() {
        let records = &mut carried[link];
        records.push(entry)?;
    }
    Ok(())
}

/// Removes the last record of a link, if there is one.
fn take_back(carried: &mut Vec<Records>, link: usize)
    ensures { (rss : List (List of_record.Record)) (r : of_record.Record)
        → carried.old.items ≡ states.put_last rss link r → carried.new.items ≡ rss }
{
    if link < carried.len() {
        let records = &mut carried[link];
        records.drop_last();
    }
}

/// Appends a record to each of these links, or to none.
pub fn put_all(
    carried: &mut Vec<Records>,
    links: &[usize],
    entry: &Record,
) -> Result<(), AllocError>
    ensures ok { OnOk result (carried.new.items
        ≡ sends.put_all links.now entry.now carried.old.items) }
    ensures err { OnErr result (carried.new.items ≡ carried.old.items) }
{
    for done in 0..links.len() {
        if let Err(error) = put_on(carried, links[done], entry.copy()) {
            take_all_back(carried, &links[..done], entry);
            return Err(error);
        }
    }
    Ok(())
}

/// Removes the last record of each of these links, the last link first.
pub fn take_all_back(carried: &mut Vec<Records>, links: &[usize], entry: &Record)
    ensures { (rss : List (List of_record.Record))
        → carried.old.items ≡ sends.put_all links.now entry.now rss → carried.new.items ≡ rss }
{
    for back in 0..links.len() {
        take_back(carried, links[links.len() - 1 - back]);
    }
}
