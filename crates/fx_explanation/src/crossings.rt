//! Crossings as text.
use crate::explanation::Explanation;
use crate::names::device_name;
use fx_plan::Plan;
use fx_tables::Crossing;

/// Writes a crossing: its device, its interface and its direction.
pub fn write_crossing<'x>(out: &mut Explanation, plan: &'x Plan, crossing: &'x Crossing) {
    let Some(device) = device_name(plan, crossing.device) else {
        return;
    };
    let direction = if crossing.inwards {
        " ingress"
    } else {
        " egress"
    };
    out.text(device);
    out.text(" ");
    out.text(crossing.interface.as_str());
    out.text(direction);
}

/// Writes the crossings of a path in order.
pub(crate) fn write_crossings(out: &mut Explanation, plan: &Plan, crossings: &[Crossing]) {
    let mut separator = "";
    for crossing in crossings {
        out.text(separator);
        write_crossing(out, plan, crossing);
        separator = ", then ";
    }
    if separator.is_empty() {
        out.text("no crossing");
    }
}

/// Writes a number, and the crossing after it.
pub fn write_numbered(out: &mut Explanation, plan: &Plan, number: u64, crossing: &Crossing) {
    out.text_number("crossing ", number);
    out.text(" (");
    write_crossing(out, plan, crossing);
    out.text(")");
}
