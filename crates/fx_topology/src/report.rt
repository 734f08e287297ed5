//! The report.
ghost use Rattle.std.specs.Prelude.{◌≡◌, ℕ, List, [], ◌∷◌, codes, not, is_some};
ghost use Rattle.serde_json.specs.View.{view};
ghost use Rattle.fx_walk.specs.Pointer.{pointer};
ghost use Rattle.fx_walk.specs.Walk.{Reads, fault_if, member_of, required_row, row_faults};
ghost use Rattle.fx_topology.specs.Reports.{has_place, key_layout, member_rows, report_faults, report_of};
ghost use Rattle.fx_base.specs.Refusals.{report_key, unknown_report_process};

use crate::ends::has_collecting_process;
use crate::key_layout::layout_of;
use crate::limits::KEY_FIELDS;
use crate::network_device::NetworkDevice;
use fx_base::{Fault, Name, refusals};
use fx_config::{KeyField, KeyFieldReader};
use fx_layout::Layout;
use fx_walk::{
    DocumentPath, NameReader, Sequence, object_of, refusal, refuse_if, required_items,
    required_member,
};
use serde_json::Value;
use std::alloc::Global;

/// The collecting process whose totals are requested, and their key.
#[derive(Debug, Drop)]
pub struct Report {
    /// The device.
    pub device: Name,
    /// The collecting process on that device.
    pub collecting_process: Name,
    /// The fields of the key: axes or leading bits of addresses, each axis at most once.
    pub key: Sequence<KeyField>,
}

impl Report {
    /// Returns the layout of the key, or `None` if a field denotes no part of an axis or an axis appears twice.
    pub fn layout(&self) -> Option<Layout>
        ensures { result ≡ key_layout self.now.key }
    {
        layout_of(self.key.as_slice())
    }
}

/// Refuses a report at the path whose collecting process does not exist (205).
fn process_is_there(
    alloc: Global,
    path: &DocumentPath<'_>,
    devices: &[NetworkDevice],
    report: &Report,
) -> Result<(), Fault>
    ensures { Reads (fault_if (not (has_place devices.now report.now)) unknown_report_process
        (pointer path.now)) tt
        result }
{
    let there = has_collecting_process(devices, &report.device, &report.collecting_process);
    refuse_if(alloc, path, refusals::UNKNOWN_REPORT_PROCESS, !there)
}

/// Refuses a report at the path with a key field that denotes no part of an axis, or with an axis twice (206).
fn key_is_axes(alloc: Global, path: &DocumentPath<'_>, report: &Report) -> Result<(), Fault>
    ensures { Reads (fault_if (not (is_some (key_layout report.now.key))) report_key
        (pointer path.now)) tt
        result }
{
    let fails = report.layout().is_none();
    refuse_if(alloc, path, refusals::REPORT_KEY, fails)
}

/// Reads the report given by the members of the object at the path.
fn read_report(alloc: Global, path: &DocumentPath<'_>, value: &Value) -> Result<Report, Fault>
    ensures { Reads (row_faults member_rows (pointer path.now) (view value.now))
        (report_of (view value.now)) result }
{
    let device = required_member::<NameReader>(alloc, path, value, "device")?;
    let collecting = required_member::<NameReader>(alloc, path, value, "collectingProcess")?;
    let key = required_items::<KeyFieldReader>(alloc, path, value, "key", KEY_FIELDS)?;
    Ok(Report {
        device,
        collecting_process: collecting,
        key,
    })
}

/// Reads the report at the path, in a network of these devices.
fn report_at(
    alloc: Global,
    path: &DocumentPath<'_>,
    value: &Value,
    devices: &[NetworkDevice],
) -> Result<Report, Fault>
    ensures { Reads (report_faults devices.now (pointer path.now) (view value.now))
        (report_of (view value.now)) result }
{
    object_of(alloc, path, value, &["device", "collectingProcess", "key"])?;
    let report = read_report(alloc, path, value)?;
    process_is_there(alloc, path, devices, &report)?;
    key_is_axes(alloc, path, &report)?;
    Ok(report)
}

/// Reads the network's report. Fails with 103, at the object, if there is none.
pub fn report_member(
    alloc: Global,
    path: &DocumentPath<'_>,
    object: &Value,
    devices: &[NetworkDevice],
) -> Result<Report, Fault>
    ensures { Reads ((required_row (codes "report") (report_faults devices.now)).faults
        (pointer path.now) (view object.now))
        (report_of (member_of (codes "report") (view object.now))) result }
{
    match object.get("report") {
        Some(value) => report_at(alloc, &DocumentPath::Member(path, "report"), value, devices),
        None => Err(refusal(alloc, refusals::MISSING_MEMBER, path)),
    }
}
