//! Metering of packets where they cross an interface.
ghost use Rattle.std.specs.Prelude.{◌≡◌, ◌++◌, [], OnOk, IfOk, if◌then◌else◌, bytes_eq, slice_get};
ghost use Rattle.std.specs.List.{list_any};
ghost use Rattle.fx_layout.specs.Keys as keys;
ghost use Rattle.fx_tables.specs.Holdings as holdings;
ghost use Rattle.fx_tables.specs.Network as network;
ghost use Rattle.fx_tables.specs.Occurrences as met;

use crate::holder::Holder;
use crate::holding::Holding;
use crate::lookup::points_of;
use crate::net::Net;
use crate::observation::{Occurrence, Point, Selection};
use crate::traffic::Crossing;
use fx_base::{Name, entry_at};
use fx_boxes::{Fields, Region};
use fx_layout::{Key, Layout};
use std::alloc::{AllocError, Global};

/// Returns whether the packets of this region include this one.
fn selects(region: &Option<Region>, fields: &Fields) -> bool
    ensures { result ≡ met.selects region.now fields.now }
{
    match region {
        None => false,
        Some(region) => region.holds(fields),
    }
}

/// Returns whether the name is among these.
fn has_name(names: &[Name], name: &str) -> bool
    ensures { result ≡ list_any (λ own. bytes_eq own name.now) names.now }
{
    for own in names {
        if own.as_str() == name {
            return true;
        }
    }
    false
}

impl Point {
    /// Returns whether the point is at the interface of the crossing and sees packets in its direction.
    pub fn watches(&self, crossing: &Crossing) -> bool
        ensures { result ≡ met.watches self.now crossing.now }
    {
        has_name(self.interfaces.as_slice(), crossing.interface.as_str())
            && if crossing.inwards {
                self.ingress
            } else {
                self.egress
            }
    }
}

/// Appends the occurrence at a selection process, if it selects the packet and has a cache.
fn push_met(
    found: &mut Vec<Occurrence>,
    point: usize,
    process: usize,
    selection: &Selection,
    fields: &Fields,
) -> Result<(), AllocError>
    ensures { OnOk result (found.new.items ≡ found.old.items
        ++ (if met.selects selection.now.region fields.now
        then met.occurrence point process selection.now.holder else [])) }
{
    if selects(&selection.region, fields) {
        if let Some(holder) = selection.holder {
            found.push(Occurrence {
                point,
                process,
                holder,
            })?;
        }
    }
    Ok(())
}

/// Appends the occurrences at a point.
fn push_met_by(
    found: &mut Vec<Occurrence>,
    point: usize,
    selections: &[Selection],
    fields: &Fields,
) -> Result<(), AllocError>
    ensures { OnOk result (found.new.items
        ≡ found.old.items ++ met.met_by point 1 selections.now fields.now) }
{
    for index in 0..selections.len() {
        push_met(found, point, index + 1, &selections[index], fields)?;
    }
    Ok(())
}

/// Appends the occurrences at a point, if it watches the crossing.
fn push_met_at(
    found: &mut Vec<Occurrence>,
    number: usize,
    point: &Point,
    crossing: &Crossing,
    fields: &Fields,
) -> Result<(), AllocError>
    ensures { OnOk result (found.new.items
        ≡ found.old.items ++ (if met.watches point.now crossing.now
        then met.met_by number 1 point.now.selections fields.now else [])) }
{
    if point.watches(crossing) {
        push_met_by(found, number, point.selections.as_slice(), fields)?;
    }
    Ok(())
}

/// Appends the occurrences of a packet at the points of a device.
fn push_met_of(
    found: &mut Vec<Occurrence>,
    points: &[Point],
    crossing: &Crossing,
    fields: &Fields,
) -> Result<(), AllocError>
    ensures { OnOk result (found.new.items
        ≡ found.old.items ++ met.met_at 1 points.now crossing.now fields.now) }
{
    for index in 0..points.len() {
        push_met_at(found, index + 1, &points[index], crossing, fields)?;
    }
    Ok(())
}

/// Returns the key of a packet with these fields in the holder at an index.
fn key_at(holders: &[Holder], index: usize, fields: &Fields) -> Key
    ensures { result ≡ keys.key_of (network.layout_of (slice_get holders.now index)) fields.now }
{
    match entry_at(holders, index) {
        None => Layout::new().key_of(fields),
        Some(holder) => holder.layout.key_of(fields),
    }
}

/// Returns the cache of an occurrence, and the key of a packet with these fields there.
fn holding_of(holders: &[Holder], occurrence: &Occurrence, fields: &Fields) -> Holding
    ensures { result ≡ holdings.holding_of holders.now fields.now occurrence.now }
{
    Holding {
        holder: occurrence.holder,
        key: key_at(holders, occurrence.holder, fields),
    }
}

impl Net {
    /// Returns where a packet with these fields is metered at a crossing: at each observation point of the crossing's
    /// device that is at its interface and sees its direction, by each selection process that selects the packet and
    /// has a cache (RFC 6728, section 4). Fails only if out of memory.
    pub fn occurrences(
        &self,
        alloc: Global,
        crossing: &Crossing,
        fields: &Fields,
    ) -> Result<Vec<Occurrence>, AllocError>
        ensures { IfOk result (λ found. found.items
            ≡ met.occurrences self.now crossing.now fields.now) }
    {
        let mut found: Vec<Occurrence> = Vec::new(alloc);
        self.push_occurrences(&mut found, crossing, fields)?;
        Ok(found)
    }

    /// Appends to the list where a packet with these fields is metered at a crossing, as [`Net::occurrences`] returns
    /// it. Fails only if out of memory; the list may then have some of them.
    pub fn push_occurrences(
        &self,
        found: &mut Vec<Occurrence>,
        crossing: &Crossing,
        fields: &Fields,
    ) -> Result<(), AllocError>
        ensures { OnOk result (found.new.items
            ≡ found.old.items ++ met.occurrences self.now crossing.now fields.now) }
    {
        let points = points_of(self.devices(), crossing.device);
        push_met_of(found, points, crossing, fields)
    }

    /// Returns the cache that meters a packet with these fields at an occurrence, and the packet's key there: under the
    /// cache's layout, or under the empty one if the network has no such cache.
    pub fn holding(&self, occurrence: &Occurrence, fields: &Fields) -> Holding
        ensures { result ≡ holdings.holding_of self.now.holders fields.now occurrence.now }
    {
        holding_of(self.holders(), occurrence, fields)
    }

    /// Returns the caches of these occurrences in order, each with the key of a packet with these fields there. Fails
    /// only if out of memory.
    pub fn holdings(
        &self,
        alloc: Global,
        occurrences: &[Occurrence],
        fields: &Fields,
    ) -> Result<Vec<Holding>, AllocError>
        ensures { IfOk result (λ found. found.items
            ≡ holdings.met_holdings self.now.holders fields.now occurrences.now) }
    {
        let mut holdings: Vec<Holding> = Vec::new(alloc);
        for occurrence in occurrences {
            holdings.push(self.holding(occurrence, fields))?;
        }
        Ok(holdings)
    }
}
