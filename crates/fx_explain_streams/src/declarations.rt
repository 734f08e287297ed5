//! The templates that a stream declares.
use crate::doubts::{Amount, has_doubtful};
use crate::key_fields::{Reading, lacks_counter, reading_of};
use fx_layout::Part;
use fx_session::Template;
use fx_wire::{FieldSpecifier, TemplateKind};
use std::alloc::{AllocError, Global};
use std::collections::BTreeMap;

/// The maximum number of declarations that are kept.
const DECLARATIONS: usize = 4096;

/// The maximum number of fields of all declarations that are kept.
const FIELDS: usize = 65_536;

/// The place at which a template is declared.
#[derive(Clone, Copy, Drop)]
pub(crate) struct DeclaredAt {
    /// Its observation domain.
    pub(crate) domain: u32,
    /// The 1-based number of its message.
    pub(crate) message: u64,
    /// The 0-based index of its record's first octet in the stream.
    pub(crate) place: u64,
}

/// A template that a stream declares.
#[derive(Drop)]
pub(crate) struct Declared {
    /// Its id.
    pub(crate) id: u16,
    /// Whether it is a template or an options template.
    pub(crate) kind: TemplateKind,
    /// The number of scope fields among its fields.
    pub(crate) scope: u16,
    /// Its fields.
    pub(crate) fields: Vec<FieldSpecifier>,
    /// Where it is first declared.
    pub(crate) at: DeclaredAt,
    /// The number of the message that withdraws it, if one does.
    pub(crate) withdrawn: Option<u64>,
    /// The number of its data records.
    pub(crate) records: u64,
    /// Those of them that aren't included in the totals, because a counter or a field of the report's key is missing,
    /// or bits of one.
    pub(crate) left_out: Amount,
    /// Whether its records have the report's key.
    pub(crate) reading: Reading,
    /// Whether its records lack a counter.
    pub(crate) lacks_counter: bool,
    /// Whether its records have a direction, or describe how packets were sampled.
    pub(crate) has_doubtful: bool,
}

impl Declared {
    /// Returns whether all of its records are included in the totals.
    pub(crate) fn is_in_totals(&self) -> bool {
        matches!(self.reading, Reading::Each) && !self.lacks_counter
    }
}

/// The templates that a stream declares: those of the first declarations, up to the maximum.
#[derive(Drop)]
pub(crate) struct Declarations {
    items: Vec<Declared>,
    /// The indices in `items` of those that aren't withdrawn, by domain and id.
    live: BTreeMap<(u32, u16), usize>,
    /// The number of fields of all items.
    fields: usize,
    is_full: bool,
}

impl Declarations {
    /// Returns no declarations.
    pub(crate) fn new(alloc: Global) -> Declarations {
        Declarations {
            items: Vec::new(alloc),
            live: BTreeMap::new(alloc),
            fields: 0,
            is_full: false,
        }
    }

    /// Returns whether some declaration wasn't kept because the maximum was reached.
    pub(crate) fn is_full(&self) -> bool {
        self.is_full
    }

    /// Returns the declarations in the order of the stream, including those of withdrawn templates.
    pub(crate) fn as_slice(&self) -> &[Declared] {
        self.items.as_slice()
    }

    /// Returns the index of the domain's template with this id, or an index past the end if there is none.
    fn place_of(&self, domain: u32, id: u16) -> usize {
        match self.live.get(&(domain, id)) {
            Some(index) => *index,
            None => usize::MAX,
        }
    }

    /// Returns the domain's template with this id.
    pub(crate) fn live(&self, domain: u32, id: u16) -> Option<&Declared> {
        self.items.get(self.place_of(domain, id))
    }

    /// Returns the domain's template with this id, to count its records.
    pub(crate) fn live_mut(&mut self, domain: u32, id: u16) -> Option<&mut Declared> {
        let place = self.place_of(domain, id);
        self.items.get_mut(place)
    }

    /// Adds a template, unless it is already declared or the maximum is reached.
    ///
    /// Fails if out of memory.
    pub(crate) fn declare(
        &mut self,
        alloc: Global,
        at: DeclaredAt,
        kind: TemplateKind,
        id: u16,
        template: &Template,
        key: &[Part],
    ) -> Result<(), AllocError> {
        if self.live(at.domain, id).is_some() {
            return Ok(());
        }
        let fields = self.fields.saturating_add(template.fields().len());
        if self.items.len() >= DECLARATIONS || fields > FIELDS {
            self.is_full = true;
            return Ok(());
        }
        let declared = Declared {
            id,
            kind,
            scope: template.scope(),
            fields: Vec::from_slice(alloc, template.fields())?,
            at,
            withdrawn: None,
            records: 0,
            left_out: Amount::NOTHING,
            reading: reading_of(template.fields(), key),
            lacks_counter: lacks_counter(template.fields()),
            has_doubtful: has_doubtful(template.fields()),
        };
        let place = self.items.len();
        self.items.push(declared)?;
        self.live.insert((at.domain, id), place)?;
        self.fields = fields;
        Ok(())
    }

    /// Notes that the message with this number withdraws the domain's template with this id, if there is one.
    pub(crate) fn withdraw(&mut self, domain: u32, id: u16, message: u64) {
        if let Some(index) = self.live.remove(&(domain, id)) {
            if let Some(declared) = self.items.get_mut(index) {
                declared.withdrawn = Some(message);
            }
        }
    }

    /// Notes that the message with this number withdraws all templates of this kind in the domain.
    pub(crate) fn withdraw_all(&mut self, domain: u32, kind: TemplateKind, message: u64) {
        for declared in self.items.iter_mut() {
            let is_meant = declared.at.domain == domain && declared.kind == kind;
            if is_meant && declared.withdrawn.is_none() {
                declared.withdrawn = Some(message);
                self.live.remove(&(domain, declared.id));
            }
        }
    }
}
