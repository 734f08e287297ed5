//! Links, found by where they lead from.
ghost use Rattle.std.specs.Prelude.{◌≡◌, ◌<◌, ◌∷◌, ◌++◌, [], IfErr, IfOk, OnErr, OnOk, if◌then◌else◌, not, vec_len};
ghost use Rattle.std.specs.Vec.{vec_capacity};
ghost use Rattle.std.specs.List.{position};
ghost use Rattle.fx_base.specs.Fault.{IsMemory};
ghost use Rattle.fx_topology.specs.Links.{leads_from, starts_there};
ghost use Rattle.fx_topology.specs.Starts.{ArePlacesOfLinks, IsStartAt};

use crate::link::NamedLink;
use fx_base::{Fault, Name};
use std::alloc::{AllocError, Global};
use std::collections::BTreeMap;
use std::marker::Model;

/// The start of a link: a destination, given by the names of its device, its exporting process and itself.
#[derive(Debug, Drop, PartialEq, Eq, PartialOrd, Ord)]
struct Start {
    device: String,
    exporting_process: String,
    destination: String,
}

impl Start {
    fn new(
        alloc: Global,
        device: &Name,
        exporting_process: &Name,
        destination: &Name,
    ) -> Result<Start, AllocError>
        ensures { IfOk result (λ s. IsStartAt s device.now exporting_process.now destination.now) }
    {
        let device = String::from_str(alloc, device.as_str())?;
        let exporting = String::from_str(alloc, exporting_process.as_str())?;
        let destination = String::from_str(alloc, destination.as_str())?;
        Ok(Start {
            device,
            exporting_process: exporting,
            destination,
        })
    }
}

/// Reserves room for the link after `links` and records its place under its start. Returns `false` if one of `links`
/// has the same start.
fn keep_place(
    alloc: Global,
    links: &mut Vec<NamedLink>,
    places: &mut BTreeMap<Start, usize>,
    link: &NamedLink,
) -> Result<bool, AllocError>
    requires { ArePlacesOfLinks places.old links.old.items }
    ensures links { links.new.items ≡ links.old.items }
    ensures room { OnOk result (vec_len links.new < vec_capacity links.new) }
    ensures answer { IfOk result (λ new. new ≡ not (starts_there links.old.items link.now)) }
    ensures places { OnOk result (ArePlacesOfLinks places.new
        (if starts_there links.old.items link.now then links.old.items
        else links.old.items ++ link.now ∷ [])) }
    ensures same { OnErr result (ArePlacesOfLinks places.new links.old.items) }
{
    links.reserve(1)?;
    let start = Start::new(
        alloc,
        &link.device,
        &link.exporting_process,
        &link.destination,
    )?;
    if places.contains_key(&start) {
        return Ok(false);
    }
    places.insert(start, links.len())?;
    Ok(true)
}

/// Links, no two from the same destination, in the order in which they were added. Contracts see the list of links.
#[derive(Debug, Drop)]
pub struct LinkTable {
    links: Vec<NamedLink>,
    places: BTreeMap<Start, usize>,
    alloc: Global,
}

impl Model for LinkTable {
    ghost use Rattle.std.specs.Prelude.{List};
    ghost use Rattle.fx_topology.specs.declared.link.NamedLink as of_link;
    ghost use Rattle.fx_topology.specs.Starts.{ArePlacesOfLinks};

    ghost Value = { List of_link.NamedLink };

    ghost view = { λ l. l.links.items };

    ghost invariant = { λ l. ArePlacesOfLinks l.places l.links.items };
}

impl LinkTable {
    /// Returns a table without links.
    pub(crate) fn new(alloc: Global) -> LinkTable
        ensures { result ≡ [] }
    {
        LinkTable {
            links: Vec::new(alloc),
            places: BTreeMap::new(alloc),
            alloc,
        }
    }

    /// Returns the links, in order.
    pub fn as_slice(&self) -> &[NamedLink]
        ensures { result.now ≡ self.now }
    {
        self.links.as_slice()
    }

    /// Returns the 0-based place of the link that leads from a destination, if there is one. Fails if out of memory.
    pub fn place_of(
        &self,
        device: &Name,
        exporting_process: &Name,
        destination: &Name,
    ) -> Result<Option<usize>, AllocError>
        ensures { IfOk result (λ place. place
            ≡ position (leads_from device.now exporting_process.now destination.now) self.now) }
    {
        let start = Start::new(self.alloc, device, exporting_process, destination)?;
        Ok(self.places.get(&start).copied())
    }

    /// Appends the link and returns `true`, or returns `false` if an earlier link leads from the same destination.
    ///
    /// Fails with 900, at no place, if out of memory.
    pub(crate) fn add(&mut self, link: NamedLink) -> Result<bool, Fault>
        ensures answer { IfOk result (λ new. new ≡ not (starts_there self.old link)) }
        ensures err { IfErr result IsMemory }
        ensures links { OnOk result (self.new
            ≡ (if starts_there self.old link then self.old else self.old ++ link ∷ [])) }
    {
        if !keep_place(self.alloc, &mut self.links, &mut self.places, &link)? {
            return Ok(false);
        }
        self.links.push(link)?;
        Ok(true)
    }
}
