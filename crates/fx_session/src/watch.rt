//! Observers of a session.
use crate::stream_fault::StreamFault;
use crate::template::Template;
use fx_layout::Layout;
use fx_wire::{Malformed, Message, Set, TemplateKind};

/// An observer of the messages that a session reads.
///
/// Its methods are called in the order of the stream: per message, per set and per template record, never per data
/// record. They return nothing and borrow what the session itself reads with, and no clause of the session names an
/// observer: the session does the same whoever observes it. Which events come with which arguments is tested, not
/// proved.
pub trait SessionWatch: Drop {
    /// Called when a whole message of well-formed sets begins at octet `place` of the stream, 0-based. Its sets are
    /// read next.
    fn on_message(&mut self, place: u64, message: &Message<'_>);

    /// Called before the next set of the message is read.
    fn on_set(&mut self, set: &Set<'_>);

    /// Called when the record at the front of `octets`, which reach to the end of its template set, declares the
    /// template `id`, or repeats its declaration. `template` is the domain's template of this id from then on.
    fn on_template(&mut self, kind: TemplateKind, id: u16, template: &Template, octets: &[u8]);

    /// Called when the domain's template of this id is withdrawn, of either kind, if there is one.
    fn on_withdrawal(&mut self, id: u16);

    /// Called when all templates of this kind are withdrawn in the domain.
    fn on_withdrawal_of_all(&mut self, kind: TemplateKind);

    /// Called when a data set of `records` data records was read under the domain's template of its id.
    fn on_data(&mut self, kind: TemplateKind, template: &Template, content: &[u8], records: u32);

    /// Called when the message was read and its sequence number isn't `due`, the one expected in its domain.
    fn on_gap(&mut self, due: u32);

    /// Called when the set is refused, and with it the message.
    ///
    /// For a template set, `octets` reach from the refused record to the set's end. For a data set they are its
    /// content, and `template` is the domain's template of its id; `None` with [`StreamFault::NoTemplate`].
    fn on_refused_set(&mut self, template: Option<&Template>, octets: &[u8], fault: StreamFault);

    /// Called when the octets from `place` of the stream on don't begin a message of well-formed sets. They reach to
    /// the end of the piece.
    fn on_malformed(&mut self, place: u64, octets: &[u8], why: Malformed);

    /// Called when the stream's records are tallied under this layout. A session can't know that: whoever tallies them
    /// calls this before the first piece.
    fn on_layout(&mut self, layout: &Layout);

    /// Called when the stream ends inside the message that begins at octet `place`, of which it has these octets. A
    /// session can't know that: whoever reads the stream calls this.
    fn on_unfinished(&mut self, place: u64, octets: &[u8]);
}

/// An observer that ignores everything.
#[derive(Debug, Drop)]
pub struct Unwatched;

impl SessionWatch for Unwatched {
    fn on_message(&mut self, _place: u64, _message: &Message<'_>) {}

    fn on_set(&mut self, _set: &Set<'_>) {}

    fn on_template(
        &mut self,
        _kind: TemplateKind,
        _id: u16,
        _template: &Template,
        _octets: &[u8],
    ) {}

    fn on_withdrawal(&mut self, _id: u16) {}

    fn on_withdrawal_of_all(&mut self, _kind: TemplateKind) {}

    fn on_data(
        &mut self,
        _kind: TemplateKind,
        _template: &Template,
        _content: &[u8],
        _records: u32,
    ) {}

    fn on_gap(&mut self, _due: u32) {}

    fn on_refused_set(
        &mut self,
        _template: Option<&Template>,
        _octets: &[u8],
        _fault: StreamFault,
    ) {}

    fn on_malformed(&mut self, _place: u64, _octets: &[u8], _why: Malformed) {}

    fn on_layout(&mut self, _layout: &Layout) {}

    fn on_unfinished(&mut self, _place: u64, _octets: &[u8]) {}
}
