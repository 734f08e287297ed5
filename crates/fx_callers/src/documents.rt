//! A document of one's own, read with the walk.
ghost use Rattle.fx_callers.specs.Sites.{site_faults, site_of};

use fx_base::{Fault, Name};
use fx_walk::{
    DocumentPath, FromValue, NameReader, Sequence, items_member, object_of, required_member,
};
use serde_json::Value;
use std::alloc::Global;

/// A site, with the names of its racks.
#[derive(Debug, Drop)]
pub struct Site {
    pub name: Name,
    pub racks: Sequence<Name>,
}

/// The reader of sites.
pub struct SiteReader;

/// Reads a site: its name, which is required (103), and at most 64 racks (115). Other members are refused (102).
impl FromValue for SiteReader {
    type Read = Site;

    ghost faults = { site_faults };

    ghost meaning = { site_of };

    fn from_value(alloc: Global, path: &DocumentPath<'_>, value: &Value) -> Result<Site, Fault> {
        object_of(alloc, path, value, &["name", "rack"])?;
        let name = required_member::<NameReader>(alloc, path, value, "name")?;
        let racks = items_member::<NameReader>(alloc, path, value, "rack", 0, 64)?;
        Ok(Site { name, racks })
    }
}
