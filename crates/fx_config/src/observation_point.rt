//! Observation points.
ghost use Rattle.serde_json.specs.View.{view};
ghost use Rattle.fx_walk.specs.Pointer.{pointer};
ghost use Rattle.fx_walk.specs.Walk.{Reads, row_faults};
ghost use Rattle.fx_config.specs.ObservationPoints.{direction_named, observation_point_faults, observation_point_of, scope_of, scope_rows};
ghost use Rattle.fx_config.specs.declared.observation_point.Direction.TheVariants.{Both};

use crate::entry_name::entry_name;
use crate::limits::ENTRIES;
use fx_base::{Fault, Name};
use fx_walk::{
    DocumentPath, Entry, NameReader, Named, Names, Sequence, Whole, Word, entries_member,
    required_member, word_member,
};
use serde_json::Value;
use std::alloc::Global;

/// The direction in which observed packets cross an interface.
#[derive(Clone, Copy, Debug, PartialEq, Eq)]
pub enum Direction {
    /// Into the device.
    Ingress,
    /// Out of the device.
    Egress,
    /// Either direction.
    Both,
}

/// Reads a direction by its name. The default is both.
impl Word for Direction {
    ghost meaning_of = { direction_named };

    ghost meaning_unsaid = { Both };

    fn meaning_of(text: &str) -> Option<Direction> {
        match text {
            "ingress" => Some(Direction::Ingress),
            "egress" => Some(Direction::Egress),
            "both" => Some(Direction::Both),
            _ => None,
        }
    }

    fn meaning_unsaid() -> Direction {
        Direction::Both
    }
}

/// The packets that an observation point sees.
#[derive(Drop)]
struct Scope {
    observation_domain_id: u32,
    interfaces: Sequence<Name>,
    direction: Direction,
}

/// Reads which packets the observation point at the path sees.
fn read_scope(alloc: Global, path: &DocumentPath<'_>, value: &Value) -> Result<Scope, Fault>
    ensures { Reads (row_faults scope_rows (pointer path.now) (view value.now))
        (scope_of (view value.now)) result }
{
    let domain = required_member::<Whole<0, 0xffff_ffff>>(
        alloc,
        path,
        value,
        "observationDomainId",
    )?;
    let interfaces = entries_member::<NameReader>(alloc, path, value, "ifName", 1, ENTRIES)?;
    let direction = word_member(alloc, path, value, "direction")?;
    Ok(Scope {
        observation_domain_id: domain.number(),
        interfaces,
        direction,
    })
}

/// A place where packets are observed (RFC 6728, section 4.1).
#[derive(Debug, Drop)]
pub struct ObservationPoint {
    /// Its name, unique among the observation points of the device.
    pub name: Name,
    /// The observation domain that it belongs to.
    pub observation_domain_id: u32,
    /// The names of the interfaces at which it observes packets, at least one and each once.
    pub interfaces: Sequence<Name>,
    /// The direction in which packets must cross to be observed.
    pub direction: Direction,
    /// The names of the selection processes that see its packets, each once.
    pub selection_processes: Sequence<Name>,
}

impl Named for ObservationPoint {
    ghost name = { λ point. point.name };

    fn name(&self) -> &Name {
        &self.name
    }
}

/// A reader of observation points.
pub(crate) struct ObservationPointReader;

impl Entry for ObservationPointReader {
    type Read = ObservationPoint;

    ghost faults = { observation_point_faults };

    ghost meaning = { observation_point_of };

    ghost name = { λ point. point.name };

    fn from_entry(
        alloc: Global,
        path: &DocumentPath<'_>,
        value: &Value,
        earlier: &mut Names,
    ) -> Result<ObservationPoint, Fault> {
        let name = entry_name(
            alloc,
            path,
            value,
            &[
                "name",
                "observationDomainId",
                "ifName",
                "direction",
                "selectionProcess",
            ],
            earlier,
        )?;
        let scope = read_scope(alloc, path, value)?;
        let processes = entries_member::<NameReader>(
            alloc,
            path,
            value,
            "selectionProcess",
            0,
            ENTRIES,
        )?;
        Ok(ObservationPoint {
            name,
            observation_domain_id: scope.observation_domain_id,
            interfaces: scope.interfaces,
            direction: scope.direction,
            selection_processes: processes,
        })
    }
}
