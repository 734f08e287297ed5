//! Observation domains.
ghost use Rattle.std.specs.Prelude.{◌≡◌, OnOk};
ghost use Rattle.fx_session.specs.Messages as messages;
ghost use Rattle.fx_session.specs.Templates as templates;

use crate::templates::Templates;
use std::alloc::{AllocError, Global};
use std::collections::BTreeMap;

/// An observation domain: its templates, and the next expected sequence number, if the domain had a message.
#[derive(Drop)]
pub(crate) struct Domain {
    pub templates: Templates,
    pub next: Option<u32>,
}

/// Removes and returns the domain of this number; returns a new one if there is none.
pub(crate) fn take_domain(alloc: Global, domains: &mut BTreeMap<u32, Domain>, number: u32) -> Domain
    ensures value { result ≡ messages.domain_of (templates.at_number domains.old.entries number) }
    ensures entries { domains.new.entries ≡ templates.without_entry domains.old.entries number }
{
    match domains.remove(&number) {
        Some(domain) => domain,
        None => Domain {
            templates: Templates::new(alloc),
            next: None,
        },
    }
}

/// Inserts a domain under its number. Fails if out of memory.
pub(crate) fn put_domain(
    domains: &mut BTreeMap<u32, Domain>,
    number: u32,
    domain: Domain,
) -> Result<(), AllocError>
    ensures { OnOk result (domains.new.entries
        ≡ templates.with_entry domains.old.entries number domain) }
{
    domains.insert(number, domain)?;
    Ok(())
}
