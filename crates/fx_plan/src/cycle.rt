//! Cycles: collecting processes that feed themselves through others, and all processes that those feed.
ghost use Rattle.std.specs.Prelude.{◌≡◌, ◌⊎◌, ◌++◌, not, OnOk, IfOk, filter, length, false, slice_get, slice_index_or, string_bytes};
ghost use Rattle.std.specs.List.{range_with_len};
ghost use Rattle.fx_base.specs.Fault.{fault_at};
ghost use Rattle.fx_base.specs.declared.fault.Place.TheVariants as places;
ghost use Rattle.fx_base.specs.Refusals.{link_cycle, want_of_memory};
ghost use Rattle.fx_tables.specs.Network as machine;
ghost use Rattle.fx_plan.specs.Cycles as cycles;

use fx_base::{Fault, Place, refusals};
use fx_topology::NetworkDevice;
use std::alloc::{AllocError, Global};

/// The 1-based number of a device, and that of a collecting process on it.
#[derive(Clone, Copy)]
pub struct ProcessNumber {
    /// The number of the device.
    pub device: usize,
    /// The number of the process on that device.
    pub process: usize,
}

/// Appends the numbers of the first `count` processes of a device.
fn push_numbers(
    numbers: &mut Vec<ProcessNumber>,
    device: usize,
    count: usize,
) -> Result<(), AllocError>
    ensures { OnOk result (numbers.new.items
        ≡ numbers.old.items ++ cycles.numbers_on device count) }
{
    for n in 0..count {
        numbers.push(ProcessNumber {
            device,
            process: n + 1,
        })?;
    }
    Ok(())
}

/// Returns the numbers of all processes, in document order.
fn process_numbers(
    alloc: Global,
    devices: &[NetworkDevice],
) -> Result<Vec<ProcessNumber>, AllocError>
    ensures { IfOk result (λ v. v.items ≡ cycles.process_numbers devices.now) }
{
    let mut numbers = Vec::new(alloc);
    for (index, device) in devices.iter().enumerate() {
        let count = device.config.collecting_processes.as_slice().len();
        push_numbers(&mut numbers, index + 1, count)?;
    }
    Ok(numbers)
}

/// Returns the places of the processes that are not in the rank order.
fn places_left(alloc: Global, come: &[bool]) -> Result<Vec<usize>, AllocError>
    ensures { IfOk result (λ v. v.items ≡ filter
        (λ index. not (slice_index_or come.now index false)) (range_with_len 0 (length come.now))) }
{
    let mut places = Vec::new(alloc);
    for (index, there) in come.iter().enumerate() {
        if !*there {
            places.push(index)?;
        }
    }
    Ok(places)
}

fn number_at(numbers: &[ProcessNumber], index: usize) -> Option<ProcessNumber>
    ensures { result ≡ slice_get numbers.now index }
{
    numbers.get(index).copied()
}

fn numbers_at(
    alloc: Global,
    numbers: &[ProcessNumber],
    places: &[usize],
) -> Result<Vec<ProcessNumber>, AllocError>
    ensures { IfOk result (λ v. v.items ≡ machine.at_places numbers.now places.now) }
{
    let mut found = Vec::new(alloc);
    for index in places {
        if let Some(number) = number_at(numbers, *index) {
            found.push(number)?;
        }
    }
    Ok(found)
}

fn push_number(text: &mut String, number: ProcessNumber) -> Result<(), AllocError>
    ensures { OnOk result (string_bytes text.new
        ≡ string_bytes text.old ++ cycles.number_text number) }
{
    write!(text, "{}.{}", number.device, number.process)
}

/// Returns the text of the numbers, separated by single spaces.
fn numbers_text(alloc: Global, numbers: &[ProcessNumber]) -> Result<String, AllocError>
    ensures { IfOk result (λ s. string_bytes s ≡ cycles.numbers_text numbers.now) }
{
    let mut text = String::new(alloc);
    if let [first, rest @ ..] = numbers {
        push_number(&mut text, *first)?;
        for number in rest {
            text.push_str(" ")?;
            push_number(&mut text, *number)?;
        }
    }
    Ok(text)
}

/// Returns the text of the numbers of the processes that are not in the rank order, separated by single spaces.
fn cycle_text(alloc: Global, devices: &[NetworkDevice], come: &[bool]) -> Result<String, AllocError>
    ensures { IfOk result (λ s. string_bytes s
        ≡ cycles.stuck_text devices.now (filter (λ place. not (slice_index_or come.now place false))
        (range_with_len 0 (length come.now)))) }
{
    let places = places_left(alloc, come)?;
    let numbers = process_numbers(alloc, devices)?;
    let left = numbers_at(alloc, numbers.as_slice(), places.as_slice())?;
    numbers_text(alloc, left.as_slice())
}

/// Returns the refusal (204) of a network of these devices whose processes are not all in the rank order, or 900 if
/// there is no memory for its text.
pub fn cycle(alloc: Global, devices: &[NetworkDevice], come: &[bool]) -> Fault
    ensures { (result ≡ fault_at want_of_memory places.None)
        ⊎ ((result.number ≡ link_cycle) × cycles.IsTextPlace result.place
        (cycles.stuck_text devices.now (filter (λ place. not (slice_index_or come.now place false))
        (range_with_len 0 (length come.now))))) }
{
    match cycle_text(alloc, devices, come) {
        Ok(text) => Fault {
            number: refusals::LINK_CYCLE,
            place: Place::Text(text),
        },
        Err(error) => Fault::from(error),
    }
}
