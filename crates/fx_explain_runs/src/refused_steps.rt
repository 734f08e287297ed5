//! Explaining why a step of a run can't be made.
use crate::choosing::Choosers;
use crate::lines::write_line;
use crate::steps::write_step;
use fx_base::{Fault, Line, Room, entry_at, entry_numbered, refusals};
use fx_explanation::{Documents, Explanation, unless_refused};
use fx_machine::{State, StepActs};
use fx_run_text::{Step, put_step_line};
use fx_tables::{HolderName, Net};

/// The maximum number of choices that are written.
const FEW: usize = 20;

/// A place where records wait.
#[derive(Clone, Copy, PartialEq, Eq)]
enum RecordPlace {
    /// A cache or an aggregation.
    Holder(HolderName),
    /// The link with this 1-based number.
    Link(u64),
}

impl RecordPlace {
    /// Returns where a step takes a record from, and its position there.
    fn of(step: &Step) -> Option<(RecordPlace, u64)> {
        match step {
            Step::Cross { .. } => None,
            Step::Expire {
                holder,
                position,
                ..
            } => Some((RecordPlace::Holder(*holder), *position)),
            Step::Arrive { link, position, .. } => Some((RecordPlace::Link(*link), *position)),
        }
    }

    /// Returns how many records wait there.
    fn count(self, state: &State<'_>) -> u64 {
        match self {
            RecordPlace::Holder(holder) => {
                let index = state.net().holder_place(holder);
                state.records_held(index.unwrap_or(usize::MAX))
            }
            RecordPlace::Link(link) => state.records_on(link.saturating_sub(1) as usize),
        }
    }
}

/// A step that can't be made, and the state before it.
#[derive(Drop)]
pub(crate) struct Unmade<'a, 'b> {
    pub(crate) documents: &'a Documents<'a>,
    pub(crate) state: &'a State<'b>,
    /// The last steps before it, insofar as they are known.
    pub(crate) before: &'a [Step],
    /// The 1-based number of its line.
    pub(crate) line: u64,
    pub(crate) step: &'a Step,
    /// Why it is refused.
    pub(crate) fault: &'a Fault,
}

/// Returns whether a step makes this crossing of this packet.
fn makes(step: &Step, packet: u64, crossing: u64) -> bool {
    match step {
        Step::Cross {
            packet: made,
            crossing: there,
            ..
        } => *made == packet && *there == crossing,
        _ => false,
    }
}

/// Returns whether a step takes a record from there.
fn takes(step: &Step, waiting: RecordPlace) -> bool {
    match RecordPlace::of(step) {
        Some((taken, _)) => taken == waiting,
        None => false,
    }
}

/// Returns the choices of a step.
fn choices_of(step: &Step) -> &[Option<u64>] {
    match step {
        Step::Cross { choices, .. } | Step::Expire { choices, .. } | Step::Arrive { choices, .. } =>
            { choices.as_slice() }
    }
}

/// Returns a description of the choices that a step has.
fn rule_words(step: &Step) -> &'static str {
    match step {
        Step::Cross { .. } => {
            "; one for each selection process with a cache that meters the packet there"
        }
        Step::Expire { .. } => "; one for each exporting process that isn't parallel",
        Step::Arrive { .. } => {
            "; one for each exporting process of the collecting process that isn't parallel, then one for each of its \
aggregations that takes the record in"
        }
    }
}

/// The choices that holders take for records, one for each holding.
#[derive(Drop)]
struct HolderChoices<'a, 'b> {
    state: &'a State<'b>,
    acts: &'a StepActs<'a>,
    choices: &'a [Option<u64>],
}

impl HolderChoices<'_, '_> {
    /// Returns whether the holding at a 0-based index has the key of the record at a 1-based position of its holder,
    /// which was held before the step or is new by an earlier choice.
    fn has_key_at(&self, index: usize, position: u64) -> bool {
        let holdings = self.acts.holdings.as_slice();
        let Some(holding) = entry_at(holdings, index) else {
            return false;
        };
        if let Some(record) = self.state.record_held(holding.holder, position) {
            return record.key.same(&holding.key);
        }
        let mut last = self.state.records_held(holding.holder);
        for at in 0..index.min(holdings.len()) {
            let is_new = matches!(entry_at(self.choices, at), Some(None));
            if is_new && holdings[at].holder == holding.holder {
                last = last.saturating_add(1);
                if last == position {
                    return holdings[at].key.same(&holding.key);
                }
            }
        }
        false
    }

    /// Returns the first position of a record with the key of the holding at a 0-based index, if there is one.
    fn same_key(&self, index: usize) -> Option<u64> {
        let holding = entry_at(self.acts.holdings.as_slice(), index)?;
        let most = self
            .state
            .records_held(holding.holder)
            .saturating_add(index as u64);
        for position in 1..=most {
            if self.has_key_at(index, position) {
                return Some(position);
            }
        }
        None
    }

    /// Returns the 0-based index of the first choice that its holder can't take, if there is one.
    fn wrong(&self) -> Option<usize> {
        for index in 0..self.choices.len() {
            if let Some(position) = self.choices[index] {
                if !self.has_key_at(index, position) {
                    return Some(index);
                }
            }
        }
        None
    }
}

/// Returns the index of the first choice that names no destination of the exporting process to which it applies, if
/// any, and the number of choices that exporting processes take.
fn wrong_destination(
    net: &Net,
    acts: &StepActs<'_>,
    choices: &[Option<u64>],
) -> (Option<usize>, usize) {
    let mut used: usize = 0;
    let mut wrong = None;
    for at in acts.exporters {
        if let Some(exporter) = entry_at(net.exporters(), *at) {
            if !exporter.parallel() {
                let chosen = entry_at(choices, used).copied().flatten().unwrap_or(0);
                if wrong.is_none() && entry_numbered(exporter.destinations(), chosen).is_none() {
                    wrong = Some(used);
                }
                used = used.saturating_add(1);
            }
        }
    }
    (wrong, used)
}

impl Unmade<'_, '_> {
    /// Returns the number of the line of the step at an index among the earlier ones.
    fn line_of(&self, index: usize) -> u64 {
        self.line
            .saturating_sub(self.before.len() as u64)
            .saturating_add(index as u64)
    }

    /// Returns whether the packet with this number has a crossing with this number on its path, both 1-based.
    fn has_crossing(&self, packet: u64, crossing: u64) -> bool {
        match entry_numbered(self.state.packets(), packet) {
            Some(packet) => {
                let crossings = self.state.classes().path_of(packet);
                entry_numbered(crossings, crossing).is_some()
            }
            None => false,
        }
    }

    /// Writes that an earlier step makes this crossing, and its line, if known.
    fn write_made(&self, out: &mut Explanation, packet: u64, crossing: u64) {
        for index in 0..self.before.len() {
            if makes(&self.before[index], packet, crossing) {
                out.text_number("line ", self.line_of(index));
                out.sentence(" makes this crossing of it already; each crossing is made once");
                return;
            }
        }
        if self.has_crossing(packet, crossing) {
            out.sentence(
                "a line before makes this crossing of it already; each crossing is made once",
            );
        }
    }

    /// Writes the line of the last earlier step that takes a record from there, if known.
    fn write_taken(&self, out: &mut Explanation, waiting: RecordPlace) {
        for after in 0..self.before.len() {
            let index = self.before.len() - 1 - after;
            if takes(&self.before[index], waiting) {
                out.text_number("; line ", self.line_of(index));
                out.text(" took the last one that was there");
                return;
            }
        }
    }

    /// Writes at which positions records are.
    fn write_positions(&self, out: &mut Explanation, waiting: RecordPlace, position: u64) {
        let count = waiting.count(self.state);
        if count == 0 {
            out.text("before this step no record is there");
            self.write_taken(out, waiting);
        } else {
            out.text_number("before this step the number of records there is ", count);
            out.text_number("; positions count from 1, and none is at ", position);
        }
        out.end_line();
    }

    /// Writes the number of choices that a step has, and the expected number.
    fn write_count(&self, out: &mut Explanation, choosers: &Choosers<'_>, written: usize) {
        let wanted = choosers.count();
        out.text_number("choices of the step: ", written as u64);
        out.text_number("; it takes ", wanted as u64);
        out.sentence(rule_words(self.step));
        write_choices_due(out, choosers, written, wanted);
    }

    /// Writes which choice is wrong, or how many the step should have.
    fn write_wrong(&self, out: &mut Explanation, choosers: &Choosers<'_>) {
        let choices = choices_of(self.step);
        if choices.len() != choosers.count() {
            self.write_count(out, choosers, choices.len());
            return;
        }
        let (destination, used) = wrong_destination(self.state.net(), choosers.acts, choices);
        if let Some(index) = destination {
            write_wrong_choice(out, choosers, index, choices);
            return;
        }
        let taking = HolderChoices {
            state: self.state,
            acts: choosers.acts,
            choices: choices.get(used..).unwrap_or(&[]),
        };
        if let Some(index) = taking.wrong() {
            write_wrong_choice(out, choosers, used.saturating_add(index), choices);
            write_same_key(out, taking.same_key(index));
        }
    }

    /// Writes which choice of the step is wrong, or how many it should have.
    fn write_choices(&self, out: &mut Explanation) {
        let asked = self.state.acts(self.step);
        if let Some(acts) = unless_refused(out, asked) {
            let choosers = Choosers {
                documents: self.documents,
                acts: &acts,
                step: self.step,
            };
            self.write_wrong(out, &choosers);
        }
    }

    /// Writes why the step can't be made.
    fn write_why(&self, out: &mut Explanation) {
        match (self.step, self.fault.number) {
            (
                Step::Cross {
                    packet,
                    crossing,
                    ..
                },
                refusals::STEP_NOT_ENABLED,
            ) => self.write_made(out, *packet, *crossing),
            (_, refusals::WRONG_CHOICES) => self.write_choices(out),
            (step, refusals::NO_RECORD_THERE) => {
                if let Some((waiting, position)) = RecordPlace::of(step) {
                    self.write_positions(out, waiting, position);
                }
            }
            _ => {}
        }
    }

    /// Writes the step's line, what the step does, and why it can't be made.
    pub(crate) fn write(&self, out: &mut Explanation) {
        write_step_line(out, self.line, self.step);
        out.text("this step is impossible; it asks for: ");
        write_step(out, self.documents, self.state.packets(), self.step);
        self.write_why(out);
    }
}

/// Writes a step with this number as it is in its line.
fn write_step_line(out: &mut Explanation, number: u64, step: &Step) {
    let mut octets = [0; 200];
    let mut room = Room::new(&mut octets);
    // What doesn't fit in the buffer is left out.
    let _written = put_step_line(&mut room, step);
    let shown = room.octets();
    let end = shown.len().saturating_sub(1);
    let line = Line {
        bytes: &shown[..end],
        number,
        ended: true,
    };
    write_line(out, &line);
}

/// Writes what is wrong with the choice at a 0-based index.
fn write_wrong_choice(
    out: &mut Explanation,
    choosers: &Choosers<'_>,
    index: usize,
    choices: &[Option<u64>],
) {
    out.text_number("choice ", (index as u64).saturating_add(1));
    match entry_at(choices, index).copied().flatten() {
        Some(number) => out.text_number(" is ", number),
        None => out.text(" is n"),
    }
    out.text("; ");
    choosers.write_due(out, index);
}

/// Writes at which position the first record with the same key is.
fn write_same_key(out: &mut Explanation, position: Option<u64>) {
    if let Some(position) = position {
        out.text_number(
            "the first record there with the same key is at position ",
            position,
        );
        out.end_line();
    }
}

/// Writes what is expected as each of the choices, and which exporting processes take none.
fn write_choices_due(
    out: &mut Explanation,
    choosers: &Choosers<'_>,
    written: usize,
    wanted: usize,
) {
    for index in 0..wanted.min(FEW) {
        out.text_number("choice ", index as u64 + 1);
        out.text(": ");
        choosers.write_due(out, index);
    }
    if written > wanted {
        choosers.write_parallel(out);
        out.text_number("choices to remove: ", (written - wanted) as u64);
        out.end_line();
    }
}
