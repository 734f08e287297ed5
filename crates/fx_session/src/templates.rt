//! The templates of an observation domain.
ghost use Rattle.std.specs.Prelude.{◌≡◌, ◌≢◌, [], Ok, Err, Option, is_some, option_copied};
ghost use Rattle.fx_session.specs.Calls.{Does};
ghost use Rattle.fx_session.specs.Templates as templates;

use crate::stream_fault::StreamFault;
use crate::template::Template;
use fx_wire::TemplateKind;
use std::alloc::Global;
use std::collections::BTreeMap;
use std::marker::Model;

/// The templates and the options templates of a domain, by id.
#[derive(Drop)]
pub(crate) struct Templates {
    plain: BTreeMap<u16, Template>,
    options: BTreeMap<u16, Template>,
}

impl Model for Templates {
    ghost use Rattle.fx_session.specs.Templates as templates;

    ghost Value = { templates.Templates };

    ghost view = { λ t. record { plain = t.plain.entries; options = t.options.entries } };
}

/// Adds a template to its table, unless the table has the same one under this id already.
///
/// Fails if the id denotes another template, and if out of memory.
fn declare_in(
    table: &mut BTreeMap<u16, Template>,
    other: bool,
    id: u16,
    new: Template,
) -> Result<(), StreamFault>
    ensures { Does result (templates.in_table (templates.at_number table.old.entries id) other
        table.old.entries id new) table.new.entries }
{
    if let Some(old) = table.get(&id) {
        if !old.same(&new) {
            return Err(StreamFault::TemplateIdInUse);
        }
        return Ok(());
    }
    if other {
        return Err(StreamFault::TemplateIdInUse);
    }
    table.insert(id, new)?;
    Ok(())
}

impl Templates {
    /// Creates tables without templates.
    pub fn new(alloc: Global) -> Templates
        ensures { result ≡ templates.no_templates }
    {
        Templates {
            plain: BTreeMap::new(alloc),
            options: BTreeMap::new(alloc),
        }
    }

    /// Returns the template of this id.
    pub fn plain(&self, id: u16) -> Option<&Template>
        ensures { option_copied result ≡ templates.at_number self.now.plain id }
    {
        self.plain.get(&id)
    }

    /// Returns the options template of this id.
    pub fn options(&self, id: u16) -> Option<&Template>
        ensures { option_copied result ≡ templates.at_number self.now.options id }
    {
        self.options.get(&id)
    }

    /// Declares a template.
    ///
    /// Fails if the id denotes another template, and if out of memory.
    pub fn declare(&mut self, kind: TemplateKind, id: u16, new: Template) -> Result<(), StreamFault>
        ensures { Does result (templates.after_declaration self.old kind id new) self.new }
    {
        match kind {
            TemplateKind::Plain => {
                let other = self.options.contains_key(&id);
                declare_in(&mut self.plain, other, id, new)
            }
            TemplateKind::Options => {
                let other = self.plain.contains_key(&id);
                declare_in(&mut self.options, other, id, new)
            }
        }
    }

    /// Withdraws the template of this id, of either kind, if there is one.
    pub fn withdraw(&mut self, id: u16)
        ensures { self.new ≡ templates.after_withdrawal self.old id }
    {
        self.plain.remove(&id);
        self.options.remove(&id);
    }

    /// Withdraws all templates of the kind.
    pub fn withdraw_all(&mut self, kind: TemplateKind)
        ensures { self.new ≡ templates.after_withdrawal_of_all self.old kind }
    {
        match kind {
            TemplateKind::Plain => self.plain.clear(),
            TemplateKind::Options => self.options.clear(),
        }
    }
}
