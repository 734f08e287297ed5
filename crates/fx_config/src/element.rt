//! Information elements as documents give them, by name or by number.
ghost use Rattle.std.specs.Prelude.{◌≡◌, ℕ};
ghost use Rattle.serde_json.specs.View.{view};
ghost use Rattle.fx_walk.specs.Pointer.{pointer};
ghost use Rattle.fx_walk.specs.Scalars.{text_faults, text_of};
ghost use Rattle.fx_walk.specs.Walk.{Reads, row_faults};
ghost use Rattle.fx_config.specs.GivenElements.{element_given, element_rows, enterprise_given, given_element};
ghost use Rattle.fx_elements.specs.Elements.{element_named};

use fx_base::{Fault, refusals};
use fx_elements::{Element, by_id, by_name};
use fx_walk::{DocumentPath, FromValue, Whole, one_of, optional_member, refusal};
use serde_json::Value;
use std::alloc::Global;
use std::marker::Model;

/// An element given by its name, which may be any text. Fails with 104 if the value is not a text. Contracts see the
/// element.
#[derive(Drop)]
pub struct NamedElement {
    element: Element,
}

impl Model for NamedElement {
    ghost use Rattle.fx_elements.specs.declared.element.Element as of_element;

    ghost Value = { of_element.Element };

    ghost view = { λ n. n.element };
}

impl FromValue for NamedElement {
    type Read = NamedElement;

    ghost faults = { text_faults };

    ghost meaning = { λ d. element_named (text_of d) };

    fn from_value(
        alloc: Global,
        path: &DocumentPath<'_>,
        value: &Value,
    ) -> Result<NamedElement, Fault> {
        match value.as_str() {
            Some(name) => Ok(NamedElement {
                element: by_name(name),
            }),
            None => Err(refusal(alloc, refusals::WRONG_KIND, path)),
        }
    }
}

/// The number of an element.
type ElementNumber = Whole<1, 32767>;

/// The number of an enterprise, where 0 denotes the IANA registry.
pub type Enterprise = Whole<0, 0xffff_ffff>;

/// Returns the given enterprise, or that of the registry.
fn enterprise_given(enterprise: Option<Enterprise>) -> u32
    ensures { result ≡ enterprise_given enterprise }
{
    match enterprise {
        Some(enterprise) => enterprise.number(),
        None => 0,
    }
}

/// Returns the element with the given name or number, of an enterprise or of the registry.
fn element_given(
    named: Option<NamedElement>,
    numbered: Option<ElementNumber>,
    enterprise: Option<Enterprise>,
) -> Element
    ensures { result ≡ element_given named numbered (enterprise_given enterprise) }
{
    let enterprise = enterprise_given(enterprise);
    match named {
        Some(named) if enterprise == 0 => named.element,
        Some(_) => Element::Other,
        None => match numbered {
            Some(number) => by_id(number.number() as u16, enterprise),
            None => Element::Other,
        },
    }
}

/// An element as given by the members `ieName` and `ieId` of an object.
#[derive(Drop)]
pub struct GivenElement {
    named: Option<NamedElement>,
    numbered: Option<ElementNumber>,
}

impl GivenElement {
    /// Returns the element, of the enterprise or of the registry.
    pub fn with(self, enterprise: Option<Enterprise>) -> Element
        ensures { result ≡ element_given self.named self.numbered (enterprise_given enterprise) }
    {
        element_given(self.named, self.numbered, enterprise)
    }
}

/// Reads the name or the number of an element. The object at the path must have exactly one of them.
pub fn read_element(
    alloc: Global,
    path: &DocumentPath<'_>,
    value: &Value,
) -> Result<GivenElement, Fault>
    ensures { Reads (row_faults element_rows (pointer path.now) (view value.now))
        (given_element (view value.now)) result }
{
    one_of(alloc, path, value, &["ieName", "ieId"])?;
    let named = optional_member::<NamedElement>(alloc, path, value, "ieName")?;
    let numbered = optional_member::<ElementNumber>(alloc, path, value, "ieId")?;
    Ok(GivenElement { named, numbered })
}
