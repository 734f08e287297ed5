//! Aggregations that don't accept all records of a region's packets.
use crate::holders::write_holder;
use crate::missing_fields::Arriving;
use fx_boxes::Region;
use fx_config::{Aggregation, CollectingProcess, PropertyMatch};
use fx_explanation::{Explanation, axis_word, write_values};
use fx_tables::{AggregationEntry, HolderName};
use fx_topology::NetworkDevice;

/// Records of a region's packets that reach a collecting process.
#[derive(Drop)]
pub(crate) struct ArrivingRecords<'a> {
    pub(crate) region: &'a Region,
    pub(crate) arriving: Arriving<'a>,
    /// The cache or the aggregation that they left last.
    pub(crate) holder: HolderName,
    pub(crate) device: &'a NetworkDevice,
    pub(crate) process: &'a CollectingProcess,
}

/// Returns whether a match holds for none of a region's packets.
fn is_outside(region: &Region, property: &PropertyMatch) -> bool {
    region.far_corner().get(property.axis) < property.range.low
        || property.range.high < region.corner().get(property.axis)
}

/// Returns for how many of a region's packets a match holds, if it doesn't hold for all.
fn hold_words(region: &Region, property: &PropertyMatch) -> Option<&'static str> {
    let low = region.corner().get(property.axis);
    let high = region.far_corner().get(property.axis);
    if property.range.low <= low && high <= property.range.high {
        None
    } else if is_outside(region, property) {
        Some(" holds for none of these packets")
    } else {
        Some(" holds for some of these packets and not all")
    }
}

impl ArrivingRecords<'_> {
    /// Returns whether an aggregation takes in some of the records.
    pub(crate) fn are_taken_by(&self, aggregation: &Aggregation, entry: &AggregationEntry) -> bool {
        for property in aggregation.matches.as_slice() {
            if is_outside(self.region, property) {
                return false;
            }
        }
        self.arriving.reads_all(aggregation, entry)
    }

    /// Writes an aggregation of the collecting process.
    fn write_name(&self, out: &mut Explanation, aggregation: &Aggregation) {
        out.text_quoted("aggregation ", aggregation.name.as_str());
        out.text_quoted(" of collecting process ", self.process.name.as_str());
        out.text(" of ");
        out.text(self.device.name.as_str());
    }

    /// Writes for how many of a region's packets a match of an aggregation holds.
    fn write_match(
        &self,
        out: &mut Explanation,
        aggregation: &Aggregation,
        property: &PropertyMatch,
        words: &'static str,
    ) {
        self.write_name(out, aggregation);
        out.text(": its match on ");
        out.text(axis_word(property.axis));
        out.text(" ");
        write_values(out, property.axis, property.range.low, property.range.high);
        out.sentence(words);
    }

    /// Writes why an aggregation accepts no records with this key, or which of its matches don't hold for all packets.
    fn write_aggregation(
        &self,
        out: &mut Explanation,
        aggregation: &Aggregation,
        entry: &AggregationEntry,
    ) {
        if !self.arriving.reads_all(aggregation, entry) {
            self.write_name(out, aggregation);
            out.text(" doesn't take in the records of ");
            write_holder(out, self.arriving.plan, self.holder);
            out.text(": ");
            self.arriving.write_unread(out, aggregation, entry);
            out.end_line();
            return;
        }
        for property in aggregation.matches.as_slice() {
            if let Some(words) = hold_words(self.region, property) {
                self.write_match(out, aggregation, property, words);
            }
        }
    }
}

/// Writes which aggregations of a collecting process don't accept all records that arrive there, and why.
pub(crate) fn write_untaken(
    out: &mut Explanation,
    taken: &ArrivingRecords<'_>,
    entries: &[AggregationEntry],
) {
    let aggregations = taken.process.aggregations.as_slice();
    for index in 0..aggregations.len() {
        if index < entries.len() {
            taken.write_aggregation(out, &aggregations[index], &entries[index]);
        }
    }
}
