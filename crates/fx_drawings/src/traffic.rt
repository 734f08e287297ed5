//! Drawing the packets of each class, and what observes them on their paths.
use crate::documents::{DrawnDocuments, class_name};
use crate::dot::Dot;
use crate::nodes::{self, Node};
use fx_plan::Plan;
use fx_tables::Crossing;
use fx_traffic::Target;

/// Draws the packets of a class that take a path.
fn draw_packets(dot: &mut Dot, documents: &DrawnDocuments, target: &Target<'_>) {
    let exempt = if target.exempt {
        "\\nexempt: never to be counted"
    } else {
        ""
    };
    dot.code_node("  ", nodes::packets(target.class, target.path));
    dot.code_quoted(
        " [shape=ellipse, color=blue, label=\"",
        class_name(documents, target.class),
    );
    dot.code_number("\\npath ", target.path);
    add_unseen(dot, &documents.plan, target.crossings);
    dot.code(exempt);
    dot.line("\"];")
}

/// Draws an edge from packets to what observes them at a crossing.
fn draw_sight(dot: &mut Dot, from: Node, to: Node, crossing: u64) {
    dot.code_node("  ", from);
    dot.code_node(" -> ", to);
    dot.code_number(
        " [color=blue, fontcolor=blue, style=dashed, label=\"crossing ",
        crossing,
    );
    dot.line("\"];");
}

/// Returns whether an observation point observes a crossing.
fn is_seen(plan: &Plan, crossing: &Crossing) -> bool {
    for point in plan.net().points_of(crossing.device) {
        if point.watches(crossing) {
            return true;
        }
    }
    false
}

/// Returns whether a path has a crossing at this 0-based index that no observation point observes.
fn is_unseen(plan: &Plan, crossings: &[Crossing], index: usize) -> bool {
    match crossings.get(index) {
        Some(crossing) => !is_seen(plan, crossing),
        None => false,
    }
}

/// Adds a line to a label with the crossings of a path that no observation point observes, if there are any: numbers
/// and ranges of numbers.
fn add_unseen(dot: &mut Dot, plan: &Plan, crossings: &[Crossing]) {
    let mut separator = "\\nunobserved crossings: ";
    let mut was_unseen = false;
    for index in 0..crossings.len() {
        let number = index as u64 + 1;
        let is_here = is_unseen(plan, crossings, index);
        if is_here && !was_unseen {
            dot.code_number(separator, number);
            separator = ", ";
        }
        if is_here && was_unseen && !is_unseen(plan, crossings, index + 1) {
            dot.code_number(" to ", number);
        }
        was_unseen = is_here;
    }
}

/// Draws what observes a crossing.
fn draw_seeing(dot: &mut Dot, plan: &Plan, from: Node, number: u64, crossing: &Crossing) {
    let points = plan.net().points_of(crossing.device);
    for index in 0..points.len() {
        if points[index].watches(crossing) {
            let to = nodes::point(crossing.device, index as u64 + 1);
            draw_sight(dot, from, to, number);
        }
    }
}

/// Draws a path of a class: its packets, with the crossings that nothing observes, and each crossing with what observes
/// it.
fn draw_path(dot: &mut Dot, documents: &DrawnDocuments, target: &Target<'_>) {
    draw_packets(dot, documents, target);
    let from = nodes::packets(target.class, target.path);
    for index in 0..target.crossings.len() {
        let crossing = &target.crossings[index];
        draw_seeing(dot, &documents.plan, from, index as u64 + 1, crossing);
    }
}

/// The classes whose paths are drawn.
#[derive(Clone, Copy, Drop)]
pub(crate) enum Classes {
    /// All.
    All,
    /// The class of this number. Numbers count from 1.
    One(u64),
    /// The class of the first number, and that of the second, whose packet a run has.
    OneAndRun(u64, u64),
}

impl Classes {
    /// Returns whether the paths of the class with this number are drawn.
    pub(crate) fn has(&self, class: u64) -> bool {
        match self {
            Classes::All => true,
            Classes::One(number) => *number == class,
            Classes::OneAndRun(number, run) => *number == class || *run == class,
        }
    }

    /// Returns the same classes and that of a run's packet.
    pub(crate) fn with_run(&self, run: u64) -> Classes {
        match self {
            Classes::One(number) => Classes::OneAndRun(*number, run),
            Classes::All | Classes::OneAndRun(_, _) => *self,
        }
    }
}

/// Draws all paths of these classes.
pub(crate) fn draw_traffic(
    dot: &mut Dot,
    documents: &DrawnDocuments,
    targets: &[Target<'_>],
    classes: Classes,
) {
    for target in targets {
        if classes.has(target.class) {
            draw_path(dot, documents, target);
        }
    }
}
