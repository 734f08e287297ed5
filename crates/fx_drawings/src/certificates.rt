//! Drawing where a certificate says that packets are counted.
ghost use Rattle.std.specs.Prelude.{IfErr};
ghost use Rattle.fx_base.specs.Fault.{IsMemory};

use crate::documents::DrawnDocuments;
use crate::dot::Dot;
use crate::lines::next_line;
use crate::marks::{EdgeMark, draw_metering, metering_cache};
use crate::nodes;
use crate::traffic::Classes;
use crate::ways::Ways;
use fx_base::{Fault, LineReader, Octets, entry_numbered};
use fx_cert::{Item, read_item};
use fx_traffic::Target;
use std::alloc::{AllocError, Global};

/// A place where, by a leaf, the packets of a path are counted.
#[derive(Clone, Copy, PartialEq, Eq, Drop)]
struct CountingPlace {
    class: u64,
    path: u64,
    crossing: u64,
    point: u64,
    process: u64,
}

/// The places in a certificate's leaves, in order, each once per path.
#[derive(Drop)]
struct CountingPlaces {
    class: u64,
    path: u64,
    places: Vec<CountingPlace>,
    /// The index of the current path's first place.
    begun: usize,
}

/// Returns whether a place is among these, from index `begun` on.
fn is_among(places: &[CountingPlace], begun: usize, place: &CountingPlace) -> bool {
    for at in begun..places.len() {
        if places[at] == *place {
            return true;
        }
    }
    false
}

impl CountingPlaces {
    /// Adds the place of a leaf, unless the current path has it.
    fn leaf(&mut self, crossing: u64, point: u64, process: u64) -> Result<(), AllocError> {
        let index = CountingPlace {
            class: self.class,
            path: self.path,
            crossing,
            point,
            process,
        };
        if !is_among(self.places.as_slice(), self.begun, &index) {
            self.places.push(index)?;
        }
        Ok(())
    }

    /// Takes the item of a line.
    fn take(&mut self, item: &Item) -> Result<(), AllocError> {
        match item {
            Item::Class { class, path } => {
                self.class = *class;
                self.path = *path;
                self.begun = self.places.len();
                Ok(())
            }
            Item::Leaf {
                crossing,
                point,
                process,
            } => self.leaf(*crossing, *point, *process),
            _ => Ok(()),
        }
    }
}

/// Returns the places in the leaves of a certificate's text.
fn places_of(alloc: Global, certificate: &[u8]) -> Result<CountingPlaces, Fault>
    ensures { IfErr result IsMemory }
{
    let mut lines = LineReader::new(alloc, Octets::new(certificate))?;
    let mut places = CountingPlaces {
        class: 0,
        path: 0,
        places: Vec::new(alloc),
        begun: 0,
    };
    'lines: while next_line(&mut lines) {
        if let Ok(item) = read_item(&lines.line()) {
            places.take(&item)?;
        }
    }
    Ok(places)
}

/// Draws where the packets of a path are counted, and the ways of their records.
fn draw_place(
    dot: &mut Dot,
    documents: &DrawnDocuments,
    targets: &[Target<'_>],
    place: &CountingPlace,
    ways: &mut Ways,
) -> Result<(), AllocError> {
    for target in targets {
        if target.class == place.class && target.path == place.path {
            if let Some(crossing) = entry_numbered(target.crossings, place.crossing) {
                draw_counted(dot, documents, place, crossing.device);
                return draw_ways(dot, documents, place, crossing.device, ways);
            }
        }
    }
    Ok(())
}

/// Draws the ways of records from the cache at a place.
fn draw_ways(
    dot: &mut Dot,
    documents: &DrawnDocuments,
    place: &CountingPlace,
    number: u64,
    ways: &mut Ways,
) -> Result<(), AllocError> {
    let devices = documents.plan.network().devices.as_slice();
    let Some(device) = entry_numbered(devices, number) else {
        return Ok(());
    };
    let Some(cache) = metering_cache(&device.config, place.point, place.process) else {
        return Ok(());
    };
    let Some(entry) = entry_numbered(device.config.caches.as_slice(), cache) else {
        return Ok(());
    };
    let names = entry.exporting_processes.as_slice();
    let from = nodes::cache(number, cache);
    ways.draw_exports(dot, &documents.plan, number, device, from, names)
}

/// Draws where the packets of a path are counted within a device.
fn draw_counted(dot: &mut Dot, documents: &DrawnDocuments, place: &CountingPlace, device: u64) {
    let Some(config) = documents.plan.device(device) else {
        return;
    };
    let mark = EdgeMark {
        colour: "darkgreen",
        word: "counted at crossing ",
        number: place.crossing,
    };
    let packets = nodes::packets(place.class, place.path);
    draw_metering(
        dot,
        mark,
        packets,
        device,
        config,
        place.point,
        place.process,
    )
}

/// Draws where a certificate says that the packets of each path of these classes are counted, and the ways of their
/// records up to the report.
pub(crate) fn draw_certificate(
    alloc: Global,
    dot: &mut Dot,
    documents: &DrawnDocuments,
    targets: &[Target<'_>],
    classes: Classes,
    certificate: &[u8],
) -> Result<(), Fault>
    ensures { IfErr result IsMemory }
{
    let places = places_of(alloc, certificate)?;
    let mut ways = Ways::new(alloc, &documents.plan)?;
    for index in places.places.as_slice() {
        if classes.has(index.class) {
            draw_place(dot, documents, targets, index, &mut ways)?;
        }
    }
    ways.draw_rest(dot, &documents.plan)?;
    Ok(())
}
