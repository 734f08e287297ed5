//! Selection processes that select nothing because two of their filters exclude each other.
use fx_config::{Method, PropertyMatch, SelectionProcess, Selector};
use fx_explanation::{Explanation, axis_word, write_values};
use fx_plan::Plan;
use fx_topology::NetworkDevice;

/// Returns whether no packet passes both of two selectors.
fn exclude(one: &Selector, other: &Selector) -> bool {
    match (&one.method, &other.method) {
        (Method::FilterMatch(one), Method::FilterMatch(other)) => one.axis == other.axis
            && (one.range.high < other.range.low || other.range.high < one.range.low),
        _ => false,
    }
}

/// Returns the first of these selectors that excludes another.
fn excluding<'a>(selectors: &'a [Selector], other: &Selector) -> Option<&'a Selector> {
    for selector in selectors {
        if exclude(selector, other) {
            return Some(selector);
        }
    }
    None
}

/// Writes the values that a filter selects.
fn write_passing(out: &mut Explanation, filter: PropertyMatch) {
    out.text(" (");
    out.text(axis_word(filter.axis));
    out.text(" ");
    write_values(out, filter.axis, filter.range.low, filter.range.high);
    out.text(")");
}

/// Writes a selector, and the values that it selects.
fn write_selector(out: &mut Explanation, selector: &Selector) {
    out.quoted(selector.name.as_str());
    match selector.method {
        Method::FilterMatch(filter) => write_passing(out, filter),
        Method::SelectAll => {},
    }
}

/// Writes that two selectors of a selection process exclude each other.
fn write_both<'x>(
    out: &mut Explanation,
    device: &'x NetworkDevice,
    process: &'x SelectionProcess,
    one: &Selector,
    other: &Selector,
) {
    out.text_quoted("selection process ", process.name.as_str());
    out.text(" of ");
    out.text(device.name.as_str());
    out.text(" selects nothing: no packet passes both filters ");
    write_selector(out, one);
    out.text(" and ");
    write_selector(out, other);
    out.end_line();
}

/// Writes the first two selectors of a selection process that exclude each other.
fn write_process(out: &mut Explanation, device: &NetworkDevice, process: &SelectionProcess) {
    let selectors = process.selectors.as_slice();
    for index in 0..selectors.len() {
        let selector = &selectors[index];
        if let Some(other) = excluding(&selectors[..index], selector) {
            write_both(out, device, process, other, selector);
            return;
        }
    }
}

/// Writes the selection processes of a device that select nothing.
fn write_device(out: &mut Explanation, device: &NetworkDevice) {
    for process in device.config.selection_processes.as_slice() {
        write_process(out, device, process);
    }
}

/// Writes the selection processes of a network that select nothing because two of their filters exclude each other.
pub(crate) fn write_excluding(out: &mut Explanation, plan: &Plan) {
    for device in plan.network().devices.as_slice() {
        write_device(out, device);
    }
}
