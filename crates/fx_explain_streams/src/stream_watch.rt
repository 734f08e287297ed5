//! What explanations record of a stream while it is read.
use crate::declarations::{Declarations, Declared, DeclaredAt};
use crate::doubts::{Doubts, values_of};
use crate::key_fields::{Reading, lacks_bits};
use fx_explanation::{Explanation, number16, number32, part};
use fx_layout::{Layout, Part};
use fx_session::{SessionWatch, StreamFault, Template};
use fx_wire::{FieldSpecifier, Malformed, Message, Set, TemplateKind, cut_record};
use std::alloc::{AllocError, Global};

/// The maximum length of a message in octets.
const LONGEST: usize = 65_535;

/// The maximum number of gaps that are kept.
const GAPS: usize = 3;

/// A message of a stream.
#[derive(Clone, Copy, Drop)]
pub(crate) struct MessageAt {
    /// Its 1-based number.
    pub(crate) number: u64,
    /// The 0-based index of its first octet in the stream.
    pub(crate) place: u64,
    /// Its length in octets, as given in its header.
    pub(crate) length: u64,
    /// Its observation domain.
    pub(crate) domain: u32,
    /// Its sequence number.
    pub(crate) sequence: u32,
}

/// A set of a message.
#[derive(Clone, Copy, Drop)]
pub(crate) struct SetAt {
    /// Its id.
    pub(crate) id: u16,
    /// The 0-based index of its first octet in the stream.
    pub(crate) place: u64,
    /// Its length in octets, including its header.
    pub(crate) length: u64,
}

/// A message whose sequence number isn't the one expected in its observation domain.
#[derive(Clone, Copy, Drop)]
pub(crate) struct Gap {
    /// The message.
    pub(crate) message: MessageAt,
    /// The expected sequence number.
    pub(crate) due: u32,
}

/// The message at which a stream is refused.
#[derive(Drop)]
pub(crate) struct RefusedMessage {
    /// The reason.
    pub(crate) fault: StreamFault,
    /// The message.
    pub(crate) message: MessageAt,
    /// The refused set; meaningless if the message is malformed or truncated.
    pub(crate) set: SetAt,
    /// The octets from the first one that the refusal is about: of the message if it is malformed or truncated, of the
    /// template record, or of the data set's content.
    pub(crate) octets: Vec<u8>,
    /// The fields of the data set's template, if it has one.
    pub(crate) fields: Option<Vec<FieldSpecifier>>,
}

impl RefusedMessage {
    /// Returns the index in the stream of the octet from which on `left` octets of the set remain.
    pub(crate) fn place_before_end(&self, left: usize) -> u64 {
        self.set
            .place
            .saturating_add(self.set.length)
            .saturating_sub(left as u64)
    }
}

/// An observer of a stream for [`put_refused_message`](crate::put_refused_message) and
/// [`put_left_out`](crate::put_left_out).
///
/// It keeps the first 4,096 declared templates with at most 65,536 fields in total, the first 3 gaps, and at most
/// 65,535 octets of a refused message. If it runs out of memory it keeps less, and the explanations that use it fail
/// with 900.
pub struct StreamWatch {
    alloc: Global,
    /// Whether anything should be kept.
    is_wanted: bool,
    /// The current message, or the last one.
    pub(crate) message: MessageAt,
    /// Its current set.
    set: SetAt,
    /// The index in the stream after that set, or after the message's header.
    after: u64,
    pub(crate) declarations: Declarations,
    /// The report's key.
    pub(crate) key: Vec<Part>,
    /// The first gaps.
    pub(crate) first_gaps: Vec<Gap>,
    /// The number of gaps.
    pub(crate) gaps: u64,
    /// Whether there are data records of flows.
    pub(crate) has_flows: bool,
    /// What is doubtful in the records.
    pub(crate) doubts: Doubts,
    /// The export times of the first and the last message, in seconds since 1970.
    pub(crate) export_times: Option<(u32, u32)>,
    pub(crate) refused: Option<RefusedMessage>,
    is_short: bool,
}

impl Drop for StreamWatch {
    /// Drops its parts here, so that each drop elsewhere is one call.
    fn drop(self) {
        let Self {
            alloc: _,
            is_wanted: _,
            message: _,
            set: _,
            after: _,
            declarations: _,
            key: _,
            first_gaps: _,
            gaps: _,
            has_flows: _,
            doubts: _,
            export_times: _,
            refused: _,
            is_short: _,
        } = self;
    }
}

impl StreamWatch {
    /// Returns an observer of a stream that hasn't begun. It keeps nothing unless `is_wanted` is true, and hasn't
    /// allocated yet.
    pub fn new(alloc: Global, is_wanted: bool) -> StreamWatch {
        StreamWatch {
            alloc,
            is_wanted,
            message: MessageAt {
                number: 0,
                place: 0,
                length: 0,
                domain: 0,
                sequence: 0,
            },
            set: SetAt {
                id: 0,
                place: 0,
                length: 0,
            },
            after: 0,
            declarations: Declarations::new(alloc),
            key: Vec::new(alloc),
            first_gaps: Vec::new(alloc),
            gaps: 0,
            has_flows: false,
            doubts: Doubts::new(Vec::new(alloc), Vec::new(alloc)),
            export_times: None,
            refused: None,
            is_short: false,
        }
    }

    /// Returns an explanation without text, which notes if an allocation failed while the stream was read.
    pub(crate) fn begin_explanation(&self) -> Explanation {
        let mut out = Explanation::new(self.alloc);
        if self.is_short {
            out.fall_short();
        }
        out
    }

    /// Notes whether an allocation failed.
    fn note(&mut self, kept: Result<(), AllocError>) {
        if kept.is_err() {
            self.is_short = true;
        }
    }

    /// Notes the export time of a message, in seconds since 1970.
    fn note_time(&mut self, time: u32) {
        let (first, last) = self.export_times.unwrap_or((time, time));
        self.export_times = Some((first.min(time), last.max(time)));
    }

    /// Keeps what the refusal of `message` is about.
    fn refuse(
        &mut self,
        message: MessageAt,
        fault: StreamFault,
        octets: &[u8],
        fields: Option<&[FieldSpecifier]>,
    ) -> Result<(), AllocError> {
        let octets = Vec::from_slice(self.alloc, part(octets, 0, octets.len().min(LONGEST)))?;
        let fields = match fields {
            Some(fields) => Some(Vec::from_slice(self.alloc, fields)?),
            None => None,
        };
        self.refused = Some(RefusedMessage {
            fault,
            message,
            set: self.set,
            octets,
            fields,
        });
        Ok(())
    }

    /// Keeps octets that aren't a complete message of well-formed sets.
    fn refuse_octets(&mut self, place: u64, octets: &[u8], why: Malformed) {
        if !self.is_wanted {
            return;
        }
        self.message = MessageAt {
            number: self.message.number.saturating_add(1),
            place,
            length: u64::from(number16(octets, 2)),
            domain: number32(octets, 12),
            sequence: number32(octets, 8),
        };
        let kept = self.refuse(self.message, StreamFault::Malformed(why), octets, None);
        self.note(kept);
    }
}

/// Notes the content of the first `records` data records in a set of a template.
fn note_records(
    declared: &mut Declared,
    key: &[Part],
    content: &[u8],
    records: u32,
    doubts: &mut Doubts,
) -> Result<(), AllocError> {
    let is_plain = declared.kind == TemplateKind::Plain;
    let mut rest = content;
    for _ in 0..records {
        let fields = declared.fields.as_slice();
        let values = values_of(fields, rest);
        let is_left_out = declared.lacks_counter
            || match declared.reading {
                Reading::Each => false,
                Reading::Never => true,
                Reading::ByPrefixes => lacks_bits(fields, key, rest),
            };
        let Some(after) = cut_record(fields, rest) else {
            return Ok(());
        };
        rest = after;
        doubts.note_sampling(declared.at.domain, declared.id, &values)?;
        if is_plain && is_left_out {
            declared.left_out.add(&values);
        } else if is_plain {
            doubts.add(declared.at.domain, &values)?;
        }
    }
    Ok(())
}

impl SessionWatch for StreamWatch {
    fn on_message(&mut self, place: u64, message: &Message<'_>) {
        let header = message.header();
        self.message = MessageAt {
            number: self.message.number.saturating_add(1),
            place,
            length: message.octets() as u64,
            domain: header.observation_domain,
            sequence: header.sequence_number,
        };
        self.note_time(header.export_time);
        self.after = place.saturating_add(16);
    }

    fn on_set(&mut self, set: &Set<'_>) {
        self.set = SetAt {
            id: set.id,
            place: self.after,
            length: (set.content.len() as u64).saturating_add(4),
        };
        self.after = self.after.saturating_add(self.set.length);
    }

    fn on_template(&mut self, kind: TemplateKind, id: u16, template: &Template, octets: &[u8]) {
        if !self.is_wanted {
            return;
        }
        let at = DeclaredAt {
            domain: self.message.domain,
            message: self.message.number,
            place: self.after.saturating_sub(octets.len() as u64),
        };
        let key = self.key.as_slice();
        let kept = self
            .declarations
            .declare(self.alloc, at, kind, id, template, key);
        self.note(kept);
    }

    fn on_withdrawal(&mut self, id: u16) {
        self.declarations
            .withdraw(self.message.domain, id, self.message.number);
    }

    fn on_withdrawal_of_all(&mut self, kind: TemplateKind) {
        self.declarations
            .withdraw_all(self.message.domain, kind, self.message.number);
    }

    fn on_data(&mut self, kind: TemplateKind, _template: &Template, content: &[u8], records: u32) {
        if !self.is_wanted {
            return;
        }
        let is_plain = kind == TemplateKind::Plain;
        self.has_flows = self.has_flows || (is_plain && records > 0);
        let (domain, id) = (self.message.domain, self.set.id);
        let key = self.key.as_slice();
        let Some(declared) = self.declarations.live_mut(domain, id) else {
            return;
        };
        declared.records = declared.records.saturating_add(u64::from(records));
        if declared.is_in_totals() && !declared.has_doubtful {
            return;
        }
        let kept = note_records(declared, key, content, records, &mut self.doubts);
        self.note(kept);
    }

    fn on_gap(&mut self, due: u32) {
        self.gaps = self.gaps.saturating_add(1);
        if self.is_wanted && self.first_gaps.len() < GAPS {
            let gap = Gap {
                message: self.message,
                due,
            };
            if self.first_gaps.push(gap).is_err() {
                self.is_short = true;
            }
        }
    }

    fn on_refused_set(&mut self, template: Option<&Template>, octets: &[u8], fault: StreamFault) {
        if !self.is_wanted {
            return;
        }
        let fields = match template {
            Some(template) => Some(template.fields()),
            None => None,
        };
        let kept = self.refuse(self.message, fault, octets, fields);
        self.note(kept);
    }

    fn on_malformed(&mut self, place: u64, octets: &[u8], why: Malformed) {
        self.refuse_octets(place, octets, why);
    }

    fn on_layout(&mut self, layout: &Layout) {
        if !self.is_wanted {
            return;
        }
        let copy = Vec::from_slice(self.alloc, layout.parts());
        match copy {
            Ok(key) => self.key = key,
            Err(_) => self.is_short = true,
        }
    }

    fn on_unfinished(&mut self, place: u64, octets: &[u8]) {
        self.refuse_octets(place, octets, Malformed::MessageLength);
    }
}
