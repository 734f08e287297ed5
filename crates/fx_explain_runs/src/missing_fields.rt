//! What the key of a record lacks: for the report, where it remains unassigned, and for aggregations that don't accept
//! it.
use crate::holders::write_holder;
use fx_base::{entry_at, entry_numbered};
use fx_boxes::Fields;
use fx_config::{Aggregation, CollectingProcess, PropertyMatch};
use fx_elements::{Axis, width};
use fx_explanation::{Explanation, axis_word, element_name, entry_named, write_values};
use fx_layout::Part;
use fx_plan::Plan;
use fx_tables::{AggregationEntry, HolderName, Process};

/// A record that arrives: the index in the network's table of the cache or the aggregation that it comes from, and the
/// fields of its packet.
#[derive(Drop)]
pub(crate) struct Arriving<'a> {
    pub(crate) plan: &'a Plan,
    pub(crate) origin: usize,
    pub(crate) fields: &'a Fields,
}

/// Writes a field of a key by its information element, with the number of its leading bits if not all are meant.
pub(crate) fn write_part(out: &mut Explanation, axis: Axis, bits: u32) {
    if bits < width(axis) {
        out.text(element_name(axis.prefix_number()));
        out.text_number(" of prefixLength ", u64::from(bits));
    } else {
        out.text(element_name(axis.element_number()));
    }
}

impl Arriving<'_> {
    /// Returns whether the given number of leading bits of an axis can be read from the record.
    fn reads(&self, axis: Axis, bits: u32) -> bool {
        self.plan.net().layout_at(self.origin).reads(axis, bits)
    }

    /// Returns the first of these parts of a key that the record's key lacks, if any.
    fn missing(&self, parts: &[Part]) -> Option<Part> {
        for part in parts {
            if !self.reads(part.axis, part.bits) {
                return Some(*part);
            }
        }
        None
    }

    /// Returns the first field of the report's key that packets of the packet's IP version don't have, if any.
    pub(crate) fn part_of_other_version(&self) -> Option<Part> {
        let version = self.fields.get(Axis::Version);
        for part in self.plan.net().report_layout().parts() {
            let is_of_other = match part.axis {
                Axis::Source | Axis::Destination => version == 6,
                Axis::Source6 | Axis::Destination6 => version == 4,
                _ => false,
            };
            if is_of_other && !self.reads(part.axis, part.bits) {
                return Some(*part);
            }
        }
        None
    }

    /// Writes a field that the record's key lacks, with the shorter prefix that it has instead.
    fn write_lacked(&self, out: &mut Explanation, missing: Part) {
        write_part(out, missing.axis, missing.bits);
        for part in self.plan.net().layout_at(self.origin).parts() {
            if part.axis == missing.axis {
                out.text_number(" (the record's key has prefixLength ", u64::from(part.bits));
                out.text(")");
            }
        }
    }

    /// Writes the first field of the report's key that the record's key lacks, between two texts. Returns whether it
    /// lacks one.
    pub(crate) fn write_unassigned(
        &self,
        out: &mut Explanation,
        before: &'static str,
        after: &'static str,
    ) -> bool {
        match self.missing(self.plan.net().report_layout().parts()) {
            Some(part) => {
                out.text(before);
                self.write_lacked(out, part);
                out.text(after);
                true
            }
            None => false,
        }
    }

    /// Writes that records of a cache or an aggregation remain unassigned at the report, if they do, and why.
    pub(crate) fn write_unassigned_of(&self, out: &mut Explanation, holder: HolderName) {
        if let Some(part) = self.missing(self.plan.net().report_layout().parts()) {
            out.text("the records of ");
            write_holder(out, self.plan, holder);
            out.text(" stay unassigned there: the record's key lacks ");
            self.write_lacked(out, part);
            out.sentence(", which the report's key has");
        }
    }

    /// Returns the first part of an aggregation's key that the record's key lacks, if any.
    fn missing_part(&self, entry: &AggregationEntry) -> Option<Part> {
        self.missing(self.plan.net().layout_at(entry.holder()).parts())
    }

    /// Returns the first match of an aggregation that can't be read from the record's key, if any.
    fn unread_match<'b>(&self, aggregation: &'b Aggregation) -> Option<&'b PropertyMatch> {
        for property in aggregation.matches.as_slice() {
            if !self.reads(property.axis, property.range.bits) {
                return Some(property);
            }
        }
        None
    }

    /// Returns whether the key and the matches of an aggregation can be read from the record's key.
    pub(crate) fn reads_all(&self, aggregation: &Aggregation, entry: &AggregationEntry) -> bool {
        self.missing_part(entry).is_none() && self.unread_match(aggregation).is_none()
    }

    /// Writes which parts of the key or the matches of an aggregation can't be read from the record's key.
    pub(crate) fn write_unread(
        &self,
        out: &mut Explanation,
        aggregation: &Aggregation,
        entry: &AggregationEntry,
    ) {
        if let Some(part) = self.missing_part(entry) {
            out.text("the record's key lacks ");
            self.write_lacked(out, part);
            out.text(", which its key has");
        } else if let Some(property) = self.unread_match(aggregation) {
            self.write_match(out, property);
        }
    }

    /// Returns the first match of an aggregation that doesn't hold for the packet, if any.
    fn failing_match<'b>(&self, aggregation: &'b Aggregation) -> Option<&'b PropertyMatch> {
        for property in aggregation.matches.as_slice() {
            let value = self.fields.get(property.axis);
            if value < property.range.low || property.range.high < value {
                return Some(property);
            }
        }
        None
    }

    /// Writes why an aggregation doesn't accept the record, if it doesn't, with a text after it.
    fn write_passed_over(
        &self,
        out: &mut Explanation,
        aggregation: &Aggregation,
        entry: &AggregationEntry,
        after: &'static str,
    ) {
        if !self.reads_all(aggregation, entry) {
            write_aggregation(out, aggregation);
            self.write_unread(out, aggregation, entry);
            out.lines_of(after.as_bytes());
        } else if let Some(property) = self.failing_match(aggregation) {
            write_aggregation(out, aggregation);
            self.write_match(out, property);
            out.lines_of(after.as_bytes());
        }
    }

    /// Writes why a match doesn't hold for the record.
    fn write_match(&self, out: &mut Explanation, property: &PropertyMatch) {
        out.text("its match is on ");
        out.text(axis_word(property.axis));
        out.text(" ");
        write_values(out, property.axis, property.range.low, property.range.high);
        if !self.reads(property.axis, property.range.bits) {
            out.text(", which can't be read from the record's key");
            return;
        }
        out.text(", and the packet has there ");
        out.value(property.axis, self.fields.get(property.axis));
    }

    /// Writes which aggregations of a collecting process don't accept the record, and why, with a text after each.
    fn write_aggregations(
        &self,
        out: &mut Explanation,
        named: &CollectingProcess,
        process: &Process,
        after: &'static str,
    ) {
        let aggregations = named.aggregations.as_slice();
        for index in 0..aggregations.len() {
            if let Some(entry) = entry_at(process.aggregations(), index) {
                self.write_passed_over(out, &aggregations[index], entry, after);
            }
        }
    }

    /// Writes which aggregations at the end of the link with this number don't accept the record, and why, with a text
    /// after each.
    pub(crate) fn write_untaken(&self, out: &mut Explanation, link: u64, after: &'static str) {
        let net = self.plan.net();
        let index = entry_numbered(net.links(), link).copied();
        if let (Some(named), Some(process)) = (
            process_at_end(self.plan, link),
            entry_at(net.processes(), index.unwrap_or(usize::MAX)),
        ) {
            self.write_aggregations(out, named, process, after);
        }
    }

    /// Writes what happens to the record at the end of the link with this number if it is neither tallied nor
    /// aggregated.
    pub(crate) fn write(&self, out: &mut Explanation, link: u64) {
        let net = self.plan.net();
        let before = "the record stays unassigned: its key lacks ";
        let after = ", which the report's key has";
        if entry_numbered(net.links(), link).copied() == Some(net.report())
            && self.write_unassigned(out, before, after)
        {
            out.end_line();
        }
        self.write_untaken(out, link, "\n");
    }
}

/// Returns the collecting process to which the link with this 1-based number leads.
pub(crate) fn process_at_end(plan: &Plan, link: u64) -> Option<&CollectingProcess> {
    let network = plan.network();
    let link = entry_numbered(network.links.as_slice(), link)?;
    let device = entry_named(network.devices.as_slice(), &link.to_device)?;
    entry_named(
        device.config.collecting_processes.as_slice(),
        &link.to_process,
    )
}

/// Writes that an aggregation doesn't accept a record.
fn write_aggregation(out: &mut Explanation, aggregation: &Aggregation) {
    out.text_quoted("aggregation ", aggregation.name.as_str());
    out.text(" doesn't take it in: ");
}
