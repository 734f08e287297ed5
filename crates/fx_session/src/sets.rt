//! Reading of the sets of a message.
ghost use Rattle.std.specs.Prelude.{◌≡◌, ◌≢◌, Ok, Err};
ghost use Rattle.fx_wire.specs.Sets as wire;
ghost use Rattle.fx_session.specs.Calls.{Does, Grows};
ghost use Rattle.fx_session.specs.Messages as messages;
ghost use Rattle.fx_session.specs.Templates as tables;

use crate::data_set::{pass_records, take_flows};
use crate::stream_fault::StreamFault;
use crate::taken_records::TakenRecords;
use crate::template::Template;
use crate::template_set::take_templates;
use crate::templates::Templates;
use crate::watch::SessionWatch;
use fx_wire::{Set, Sets, TemplateKind};
use std::alloc::Global;

/// Reports that a data set was read under its template, or refused.
fn report_data<W: SessionWatch>(
    watch: &mut W,
    kind: TemplateKind,
    template: &Template,
    content: &[u8],
    records: u32,
    read: &Result<(), StreamFault>,
) {
    match read {
        Ok(()) => watch.on_data(kind, template, content, records),
        Err(fault) => watch.on_refused_set(Some(template), content, *fault),
    }
}

/// Takes the records of a data set, under the template of its id.
///
/// Fails if there is no such template, and with the fault of the first record that is refused.
fn take_data<W: SessionWatch>(
    templates: &Templates,
    taken: &mut TakenRecords,
    id: u16,
    content: &[u8],
    watch: &mut W,
) -> Result<(), StreamFault>
    ensures done { Does result (messages.data_by (tables.at_number templates.now.plain id)
        (tables.at_number templates.now.options id) taken.old content.now) taken.new }
    ensures grows { Grows taken.old.waiting taken.new.waiting }
{
    let before = taken.count();
    if let Some(template) = templates.plain(id) {
        let read = take_flows(template, taken, content);
        let records = taken.count().wrapping_sub(before);
        report_data(
            watch,
            TemplateKind::Plain,
            template,
            content,
            records,
            &read,
        );
        return read;
    }
    if let Some(template) = templates.options(id) {
        let read = pass_records(template, taken, content);
        let records = taken.count().wrapping_sub(before);
        report_data(
            watch,
            TemplateKind::Options,
            template,
            content,
            records,
            &read,
        );
        return read;
    }
    watch.on_refused_set(None, content, StreamFault::NoTemplate);
    Err(StreamFault::NoTemplate)
}

/// Reads a set.
///
/// Fails with the fault of its first record that is refused, if a data set has no template, and if out of memory.
#[tactic(auto, unfolding(crate::specs::Messages::set_read))]
fn take_set<W: SessionWatch>(
    alloc: Global,
    templates: &mut Templates,
    taken: &mut TakenRecords,
    set: &Set<'_>,
    watch: &mut W,
) -> Result<(), StreamFault>
    ensures done { Does result (messages.set_read
        (record { templates = templates.old; taken = taken.old }) (wire.set_parts set.now))
        (record { templates = templates.new; taken = taken.new }) }
    ensures grows { Grows taken.old.waiting taken.new.waiting }
{
    if set.id == 2 {
        return take_templates(alloc, templates, TemplateKind::Plain, set.content, watch);
    }
    if set.id == 3 {
        return take_templates(alloc, templates, TemplateKind::Options, set.content, watch);
    }
    take_data(templates, taken, set.id, set.content, watch)
}

/// Reads the sets of a message, in order.
///
/// Fails with the fault of the first set that is refused.
pub(crate) fn take_sets<W: SessionWatch>(
    alloc: Global,
    templates: &mut Templates,
    taken: &mut TakenRecords,
    sets: Sets<'_>,
    watch: &mut W,
) -> Result<(), StreamFault>
    ensures done { Does result (messages.sets_read
        (record { templates = templates.old; taken = taken.old }) sets.entry)
        (record { templates = templates.new; taken = taken.new }) }
    ensures grows { Grows taken.old.waiting taken.new.waiting }
{
    let mut left = sets;
    while let Some(set) = left.next() {
        watch.on_set(&set);
        take_set(alloc, templates, taken, &set, watch)?;
    }
    Ok(())
}
