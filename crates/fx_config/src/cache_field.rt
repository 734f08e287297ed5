//! Fields of the records of caches.
ghost use Rattle.std.specs.Prelude.{◌≡◌, ℕ, List, [], ◌∷◌, ◌++◌, map, codes, OnOk};
ghost use Rattle.serde_json.specs.View.{view};
ghost use Rattle.fx_walk.specs.Pointer.{pointer};
ghost use Rattle.fx_walk.specs.Walk.{Reads, member_of, row_faults};
ghost use Rattle.fx_walk.specs.Lists.{entries_faults, items_of};
ghost use Rattle.fx_config.specs.CacheFields.{cache_field_faults, cache_field_of, element_faults, field_check, field_use, fields_row, has_other_octets, is_delta_count, is_key, length_faults, use_rows};

use crate::element::{Enterprise, read_element};
use crate::entry_name::entry_name;
use crate::limits::FIELDS;
use fx_base::{Fault, Name, refusals};
use fx_elements::{Element, width};
use fx_walk::{
    DocumentPath, Empty, Named, Names, Sequence, Whole, items_in, optional_member, refusal,
};
use serde_json::Value;
use std::alloc::Global;

/// A length in octets.
type OctetCount = Whole<1, 65535>;

/// Returns whether a field distinguishes records: in an immediate cache any field on an axis, and in any other cache
/// one that is marked as a flow key.
fn is_key(immediate: bool, element: Element, marked: bool) -> bool
    ensures { result ≡ is_key immediate element marked }
{
    if immediate {
        matches!(element, Element::OnAxis(_))
    } else {
        marked
    }
}

/// Refuses a total counter (111) and a flow key that cannot distinguish packets (112).
fn known_use(
    alloc: Global,
    path: &DocumentPath<'_>,
    element: Element,
    key: bool,
) -> Result<(), Fault>
    ensures { Reads (element_faults element key (pointer path.now)) tt result }
{
    match element {
        Element::OctetTotalCount | Element::PacketTotalCount => Err(refusal(
            alloc,
            refusals::TOTAL_COUNTER,
            path,
        )),
        Element::OnAxis(_) => Ok(()),
        _ if key => Err(refusal(alloc, refusals::KEY_WITHOUT_AXIS, path)),
        _ => Ok(()),
    }
}

/// Returns whether the element counts since the last report.
fn is_delta_count(element: Element) -> bool
    ensures { result ≡ is_delta_count element }
{
    matches!(
        element,
        Element::OctetDeltaCount | Element::PacketDeltaCount
    )
}

/// Returns whether values on the element's axis have a different number of octets.
fn has_other_octets(element: Element, octets: u32) -> bool
    ensures { result ≡ has_other_octets element octets }
{
    match element {
        Element::OnAxis(axis) => octets != width(axis) / 8,
        _ => false,
    }
}

/// Refuses a counter that is not 8 octets long (110) and a flow key whose length is not that of its axis (105), both at
/// the member `ieLength` of the field at the path.
fn known_length(
    alloc: Global,
    path: &DocumentPath<'_>,
    element: Element,
    key: bool,
    length: Option<OctetCount>,
) -> Result<(), Fault>
    ensures { Reads (length_faults element key length (pointer path.now)) tt result }
{
    let Some(length) = length else {
        return Ok(());
    };
    let octets = length.number();
    let index = DocumentPath::Member(path, "ieLength");
    if is_delta_count(element) && octets != 8 {
        return Err(refusal(alloc, refusals::CACHE_COUNTER_LENGTH, &index));
    }
    if key && has_other_octets(element, octets) {
        return Err(refusal(alloc, refusals::BAD_VALUE, &index));
    }
    Ok(())
}

/// Checks the members of a field against each other.
fn known_field(
    alloc: Global,
    path: &DocumentPath<'_>,
    element: Element,
    key: bool,
    length: Option<OctetCount>,
) -> Result<(), Fault>
    ensures { Reads (field_check element key length (pointer path.now)) tt result }
{
    known_use(alloc, path, element, key)?;
    known_length(alloc, path, element, key, length)
}

/// The element of a field, and whether it is a flow key.
#[derive(Clone, Copy)]
struct FieldUse {
    element: Element,
    is_flow_key: bool,
}

/// Reads the element of the field at the path and whether it is a flow key, in a cache that is immediate or not.
fn read_use(
    alloc: Global,
    path: &DocumentPath<'_>,
    value: &Value,
    immediate: bool,
) -> Result<FieldUse, Fault>
    ensures { Reads (row_faults (use_rows immediate) (pointer path.now) (view value.now))
        (field_use immediate (view value.now)) result }
{
    let given = read_element(alloc, path, value)?;
    let length = optional_member::<OctetCount>(alloc, path, value, "ieLength")?;
    let enterprise = optional_member::<Enterprise>(alloc, path, value, "ieEnterpriseNumber")?;
    let marked = optional_member::<Empty>(alloc, path, value, "isFlowKey")?;
    let element = given.with(enterprise);
    let is_flow_key = is_key(immediate, element, marked.is_some());
    known_field(alloc, path, element, is_flow_key, length)?;
    Ok(FieldUse {
        element,
        is_flow_key,
    })
}

/// A field of the records that a cache makes (RFC 6728, section 4.3.3).
#[derive(Drop)]
pub struct CacheField {
    /// Its name, unique among the fields of the layout.
    pub name: Name,
    /// The element that it holds.
    pub element: Element,
    /// Whether packets that differ in it are counted in separate records.
    pub is_flow_key: bool,
}

impl Named for CacheField {
    ghost name = { λ field. field.name };

    fn name(&self) -> &Name {
        &self.name
    }
}

/// Reads the field at the path and adds its name to `earlier`, the names of the fields before it. In an immediate
/// cache, which sends a record for each packet at once, every field on an axis distinguishes records.
fn read_field(
    alloc: Global,
    path: &DocumentPath<'_>,
    value: &Value,
    earlier: &mut Names,
    immediate: bool,
) -> Result<CacheField, Fault>
    ensures reads { Reads (cache_field_faults immediate earlier.old (pointer path.now)
        (view value.now)) (cache_field_of immediate (view value.now)) result }
    ensures names { OnOk result (earlier.new
        ≡ earlier.old ++ (cache_field_of immediate (view value.now)).name ∷ []) }
{
    let name = entry_name(
        alloc,
        path,
        value,
        &[
            "name",
            "ieName",
            "ieId",
            "ieLength",
            "ieEnterpriseNumber",
            "isFlowKey",
        ],
        earlier,
    )?;
    let given = read_use(alloc, path, value, immediate)?;
    Ok(CacheField {
        name,
        element: given.element,
        is_flow_key: given.is_flow_key,
    })
}

/// Reads the fields of the list at the path, in order.
fn fields_of(
    alloc: Global,
    path: &DocumentPath<'_>,
    items: &[Value],
    immediate: bool,
) -> Result<Sequence<CacheField>, Fault>
    ensures { Reads (entries_faults (cache_field_faults immediate)
        (λ d. (cache_field_of immediate d).name) [] (pointer path.now) 0 (map view items.now))
        (map (cache_field_of immediate) (map view items.now)) result }
{
    let mut fields = Vec::new(alloc);
    let mut names = Names::new(alloc);
    let mut index = 0;
    for item in items {
        let path = DocumentPath::Item(&*path, index);
        fields.push(read_field(alloc, &path, item, &mut names, immediate)?)?;
        index += 1;
    }
    Ok(Sequence::from_vec(fields))
}

/// Reads the member `cacheField` of a layout, a list of at least one field.
pub fn fields_member(
    alloc: Global,
    path: &DocumentPath<'_>,
    object: &Value,
    immediate: bool,
) -> Result<Sequence<CacheField>, Fault>
    ensures { Reads ((fields_row immediate).faults (pointer path.now) (view object.now))
        (map (cache_field_of immediate) (items_of
        (member_of (codes "cacheField") (view object.now)))) result }
{
    match object.get("cacheField") {
        Some(value) => {
            let path = DocumentPath::Member(path, "cacheField");
            let items = items_in(alloc, &path, value, 1, FIELDS)?;
            fields_of(alloc, &path, items, immediate)
        }
        None => Err(refusal(alloc, refusals::MISSING_MEMBER, path)),
    }
}
