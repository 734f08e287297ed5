//! Caches.
ghost use Rattle.std.specs.Prelude.{◌≡◌, ℕ, option_map};
ghost use Rattle.serde_json.specs.View.{view};
ghost use Rattle.serde_json.specs.Find.{get};
ghost use Rattle.fx_walk.specs.Pointer.{pointer};
ghost use Rattle.fx_walk.specs.Walk.{Reads, optional, row_faults};
ghost use Rattle.fx_config.specs.Caches.{cache_faults, cache_of, kind_given, kind_in, kind_rows, max_flows_given, of_kind, settings_faults, settings_of};

use crate::cache_layout::layout_member;
use crate::entry_name::entry_name;
use crate::limits::ENTRIES;
use fx_base::{Fault, Name};
use fx_layout::Layout;
use fx_walk::{
    DocumentPath, Entry, NameReader, Named, Names, Sequence, Whole, entries_member, object_of,
    one_of, optional_member,
};
use serde_json::Value;
use std::alloc::Global;

/// When records leave a cache (RFC 6728, section 4.3).
#[derive(Clone, Copy, Debug, PartialEq, Eq)]
pub enum CacheKind {
    /// At once, each with one packet.
    Immediate,
    /// After some time.
    Timeout,
    /// At the natural end of their flow, or after some time.
    Natural,
    /// Never: their counts are sent from time to time.
    Permanent,
}

/// A number of flows or of time units.
type Number = Whole<0, 0xffff_ffff>;

/// The settings of one kind of cache. Timeouts and intervals are read, but nothing here depends on them.
#[derive(Drop)]
struct Settings {
    max_flows: u32,
    layout: Layout,
}

/// Returns the given maximum number of flows, or 0 if there is none.
fn max_flows_given(number: Option<Number>) -> u32
    ensures { result ≡ max_flows_given number }
{
    match number {
        Some(number) => number.number(),
        None => 0,
    }
}

/// Reads the settings of a kind of cache, immediate or not.
fn read_settings(
    alloc: Global,
    path: &DocumentPath<'_>,
    value: &Value,
    immediate: bool,
) -> Result<Settings, Fault>
    ensures { Reads (settings_faults immediate (pointer path.now) (view value.now))
        (settings_of immediate (view value.now)) result }
{
    object_of(
        alloc,
        path,
        value,
        &[
            "maxFlows",
            "activeTimeout",
            "idleTimeout",
            "exportInterval",
            "cacheLayout",
        ],
    )?;
    let max_flows = optional_member::<Number>(alloc, path, value, "maxFlows")?;
    let _active = optional_member::<Number>(alloc, path, value, "activeTimeout")?;
    let _idle = optional_member::<Number>(alloc, path, value, "idleTimeout")?;
    let _interval = optional_member::<Number>(alloc, path, value, "exportInterval")?;
    let layout = layout_member(alloc, path, value, immediate)?;
    Ok(Settings {
        max_flows: max_flows_given(max_flows),
        layout,
    })
}

/// Reads the optional member of this name, the settings of a kind of cache, immediate or not.
fn settings_member(
    alloc: Global,
    path: &DocumentPath<'_>,
    object: &Value,
    name: &str,
    immediate: bool,
) -> Result<Option<Settings>, Fault>
    ensures { Reads ((optional name.now (settings_faults immediate)).faults (pointer path.now)
        (view object.now)) (option_map (settings_of immediate) (get name.now (view object.now)))
        result }
{
    match object.get(name) {
        Some(value) => {
            let settings = read_settings(
                alloc,
                &DocumentPath::Member(path, name),
                value,
                immediate,
            )?;
            Ok(Some(settings))
        }
        None => Ok(None),
    }
}

/// A kind of cache with its settings.
#[derive(Drop)]
struct Kind {
    kind: CacheKind,
    max_flows: u32,
    layout: Layout,
}

impl Settings {
    /// Returns a cache of this kind with these settings.
    fn of_kind(self, kind: CacheKind) -> Kind
        ensures { result ≡ of_kind kind self }
    {
        Kind {
            kind,
            max_flows: self.max_flows,
            layout: self.layout,
        }
    }
}

/// Returns the kind that is given, with its settings.
fn kind_given(
    immediate: Option<Settings>,
    timeout: Option<Settings>,
    natural: Option<Settings>,
    permanent: Option<Settings>,
) -> Kind
    ensures { result ≡ kind_given immediate timeout natural permanent }
{
    if let Some(settings) = immediate {
        return settings.of_kind(CacheKind::Immediate);
    }
    if let Some(settings) = timeout {
        return settings.of_kind(CacheKind::Timeout);
    }
    if let Some(settings) = natural {
        return settings.of_kind(CacheKind::Natural);
    }
    match permanent {
        Some(settings) => settings.of_kind(CacheKind::Permanent),
        None => Kind {
            kind: CacheKind::Permanent,
            max_flows: 0,
            layout: Layout::new(),
        },
    }
}

/// Reads the kind of the cache at the path. Exactly one must be given.
fn read_kind(alloc: Global, path: &DocumentPath<'_>, value: &Value) -> Result<Kind, Fault>
    ensures { Reads (row_faults kind_rows (pointer path.now) (view value.now))
        (kind_in (view value.now)) result }
{
    one_of(
        alloc,
        path,
        value,
        &[
            "immediateCache",
            "timeoutCache",
            "naturalCache",
            "permanentCache",
        ],
    )?;
    let immediate = settings_member(alloc, path, value, "immediateCache", true)?;
    let timeout = settings_member(alloc, path, value, "timeoutCache", false)?;
    let natural = settings_member(alloc, path, value, "naturalCache", false)?;
    let permanent = settings_member(alloc, path, value, "permanentCache", false)?;
    Ok(kind_given(immediate, timeout, natural, permanent))
}

/// A cache, which counts the packets of flows in records (RFC 6728, section 4.3).
#[derive(Debug, Drop)]
pub struct Cache {
    /// Its name, unique among the caches of the device.
    pub name: Name,
    /// When records leave it.
    pub kind: CacheKind,
    /// The maximum number of records that it holds, or 0 for no limit.
    pub max_flows: u32,
    /// The flow keys of its records.
    pub layout: Layout,
    /// The names of the exporting processes that are given its records, each once.
    pub exporting_processes: Sequence<Name>,
}

impl Named for Cache {
    ghost name = { λ cache. cache.name };

    fn name(&self) -> &Name {
        &self.name
    }
}

/// A reader of caches.
pub(crate) struct CacheReader;

impl Entry for CacheReader {
    type Read = Cache;

    ghost faults = { cache_faults };

    ghost meaning = { cache_of };

    ghost name = { λ cache. cache.name };

    fn from_entry(
        alloc: Global,
        path: &DocumentPath<'_>,
        value: &Value,
        earlier: &mut Names,
    ) -> Result<Cache, Fault> {
        let name = entry_name(
            alloc,
            path,
            value,
            &[
                "name",
                "immediateCache",
                "timeoutCache",
                "naturalCache",
                "permanentCache",
                "exportingProcess",
            ],
            earlier,
        )?;
        let given = read_kind(alloc, path, value)?;
        let processes = entries_member::<NameReader>(
            alloc,
            path,
            value,
            "exportingProcess",
            0,
            ENTRIES,
        )?;
        Ok(Cache {
            name,
            kind: given.kind,
            max_flows: given.max_flows,
            layout: given.layout,
            exporting_processes: processes,
        })
    }
}
