//! What is doubtful in the data records of a stream: that they cover both directions at one observation point, and that
//! packets were sampled.
use fx_explanation::number_in;
use fx_wire::{FieldSpecifier, cut_value};
use std::alloc::AllocError;

/// The maximum number of observation points that are kept.
const POINTS: usize = 64;

/// The maximum number of templates that are kept whose records say that packets were sampled.
const SAMPLED: usize = 20;

/// Elements of the IANA registry (RFC 5477, RFC 7270 and RFC 5102).
const SAMPLING_INTERVAL: u16 = 34;

const SAMPLER_RANDOM_INTERVAL: u16 = 50;

const FLOW_DIRECTION: u16 = 61;

const OBSERVATION_POINT: u16 = 138;

const SAMPLING_PACKET_SPACE: u16 = 306;

pub(crate) const SAMPLING_PROBABILITY: u16 = 311;

const OCTETS: u16 = 1;

const PACKETS: u16 = 2;

/// A samplingProbability of 1, as the octets of a floating-point number of 8 or of 4 octets (IEEE 754).
const CERTAIN: [u64; 2] = [0x3ff0_0000_0000_0000, 0x3f80_0000];

/// A number of data records, and the sums of their counters.
#[derive(Clone, Copy, Drop)]
pub(crate) struct Amount {
    pub(crate) records: u64,
    pub(crate) packets: u64,
    pub(crate) octets: u64,
}

impl Amount {
    /// No records.
    pub(crate) const NOTHING: Amount = Amount {
        records: 0,
        packets: 0,
        octets: 0,
    };

    /// Adds a record.
    pub(crate) fn add(&mut self, record: &RecordValues) {
        self.records = self.records.saturating_add(1);
        self.packets = self.packets.saturating_add(record.packets);
        self.octets = self.octets.saturating_add(record.octets);
    }
}

/// The values that explanations read from a data record.
#[derive(Clone, Copy, Drop)]
pub(crate) struct RecordValues {
    /// Its packetDeltaCount, or 0.
    packets: u64,
    /// Its octetDeltaCount, or 0.
    octets: u64,
    /// Its observationPointId, or 0.
    point: u64,
    /// Its flowDirection: 0 is ingress, 1 is egress.
    direction: Option<u64>,
    /// The number of its last element that says that packets were sampled, or 0.
    sampling: u16,
    /// The value of that element.
    interval: u64,
}

impl RecordValues {
    /// Notes the value of a field.
    fn note(&mut self, element: u16, value: u64) {
        match element {
            OCTETS => self.octets = value,
            PACKETS => self.packets = value,
            OBSERVATION_POINT => self.point = value,
            FLOW_DIRECTION => self.direction = Some(value),
            _ => {
                if says_sampled(element, value) {
                    self.sampling = element;
                    self.interval = value;
                }
            }
        }
    }
}

/// Returns whether a value of an element says that not every packet was observed.
fn says_sampled(element: u16, value: u64) -> bool {
    match element {
        SAMPLING_INTERVAL | SAMPLER_RANDOM_INTERVAL => value > 1,
        SAMPLING_PACKET_SPACE => value > 0,
        SAMPLING_PROBABILITY => value != CERTAIN[0] && value != CERTAIN[1],
        _ => false,
    }
}

/// Returns whether explanations read values of each record of a template: directions, or how packets were sampled.
pub(crate) fn has_doubtful(fields: &[FieldSpecifier]) -> bool {
    for field in fields {
        let is_one = matches!(
            field.element,
            FLOW_DIRECTION
                | SAMPLING_INTERVAL
                | SAMPLER_RANDOM_INTERVAL
                | SAMPLING_PACKET_SPACE
                | SAMPLING_PROBABILITY
        );
        if is_one && field.enterprise.is_none() {
            return true;
        }
    }
    false
}

/// Returns the values that explanations read from the record at the beginning of the octets.
pub(crate) fn values_of(fields: &[FieldSpecifier], octets: &[u8]) -> RecordValues {
    let mut values = RecordValues {
        packets: 0,
        octets: 0,
        point: 0,
        direction: None,
        sampling: 0,
        interval: 0,
    };
    let mut rest = octets;
    for field in fields {
        let Some((value, after)) = cut_value(field.field_length, rest) else {
            return values;
        };
        if field.enterprise.is_none() && value.len() <= 8 {
            values.note(field.element, number_in(value));
        }
        rest = after;
    }
    values
}

/// The records of an observation point, by direction.
#[derive(Clone, Copy, Drop)]
pub(crate) struct PointAmounts {
    /// Its observation domain.
    pub(crate) domain: u32,
    /// Its observationPointId, or 0.
    pub(crate) point: u64,
    pub(crate) ingress: Amount,
    pub(crate) egress: Amount,
}

/// A template whose records say that packets were sampled.
#[derive(Clone, Copy, Drop)]
pub(crate) struct Sampled {
    /// Its observation domain.
    pub(crate) domain: u32,
    /// Its id.
    pub(crate) id: u16,
    /// The element that says so.
    pub(crate) element: u16,
    /// The value of that element.
    pub(crate) value: u64,
}

/// The doubtful content of a stream's records, for the first 64 observation points and the first 20 templates.
#[derive(Drop)]
pub(crate) struct Doubts {
    points: Vec<PointAmounts>,
    sampled: Vec<Sampled>,
}

impl Doubts {
    /// Returns no doubts.
    pub(crate) fn new(points: Vec<PointAmounts>, sampled: Vec<Sampled>) -> Doubts {
        Doubts { points, sampled }
    }

    /// Returns the observation points whose records have a direction.
    pub(crate) fn points(&self) -> &[PointAmounts] {
        self.points.as_slice()
    }

    /// Returns the templates whose records say that packets were sampled.
    pub(crate) fn sampled(&self) -> &[Sampled] {
        self.sampled.as_slice()
    }

    /// Returns the index of an observation point, which is added if it is new and there is room, or else an index past
    /// the end.
    fn place_of(&mut self, domain: u32, point: u64) -> Result<usize, AllocError> {
        for index in 0..self.points.len() {
            if self.points[index].domain == domain && self.points[index].point == point {
                return Ok(index);
            }
        }
        let index = self.points.len();
        if index < POINTS {
            self.points.push(PointAmounts {
                domain,
                point,
                ingress: Amount::NOTHING,
                egress: Amount::NOTHING,
            })?;
        }
        Ok(index)
    }

    /// Adds a record of this observation domain that is included in the totals.
    pub(crate) fn add(&mut self, domain: u32, record: &RecordValues) -> Result<(), AllocError> {
        let Some(direction) = record.direction else {
            return Ok(());
        };
        let place = self.place_of(domain, record.point)?;
        if let Some(amounts) = self.points.get_mut(place) {
            if direction == 0 {
                amounts.ingress.add(record);
            } else {
                amounts.egress.add(record);
            }
        }
        Ok(())
    }

    /// Returns whether a template is known whose records say that packets were sampled.
    fn has_sampled(&self, domain: u32, id: u16) -> bool {
        for known in self.sampled.as_slice() {
            if known.domain == domain && known.id == id {
                return true;
            }
        }
        false
    }

    /// Notes what a record of a template says about sampling.
    pub(crate) fn note_sampling(
        &mut self,
        domain: u32,
        id: u16,
        record: &RecordValues,
    ) -> Result<(), AllocError> {
        if record.sampling == 0 || self.sampled.len() >= SAMPLED || self.has_sampled(domain, id) {
            return Ok(());
        }
        self.sampled.push(Sampled {
            domain,
            id,
            element: record.sampling,
            value: record.interval,
        })?;
        Ok(())
    }
}
