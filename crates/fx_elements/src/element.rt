//! Information elements by name and number.
ghost use Rattle.std.specs.Prelude.{◌≡◌, drop};
ghost use Rattle.fx_elements.specs.Elements.{element_named, element_numbered, named_in, numbered_in, registry};

use crate::axis::Axis;

/// An information element (RFC 7012), insofar as flow accounting distinguishes it.
#[derive(Clone, Copy, Debug, PartialEq, Eq)]
pub enum Element {
    /// A field of packets that distinguishes flows.
    OnAxis(Axis),
    /// octetDeltaCount (1): the octets since the previous report, IP header and payload.
    OctetDeltaCount,
    /// packetDeltaCount (2): the packets since the previous report.
    PacketDeltaCount,
    /// octetTotalCount (85).
    OctetTotalCount,
    /// packetTotalCount (86).
    PacketTotalCount,
    /// The leading bits of the address on an axis: sourceIPv4Prefix (44), destinationIPv4Prefix (45),
    /// sourceIPv6Prefix (170) and destinationIPv6Prefix (169).
    Prefix(Axis),
    /// The number of leading bits of such a prefix: sourceIPv4PrefixLength (9), destinationIPv4PrefixLength (13),
    /// sourceIPv6PrefixLength (29) and destinationIPv6PrefixLength (30).
    PrefixLength(Axis),
    /// Any other element of the registry, or an enterprise-specific element.
    Other,
}

/// Returns the element with this name among the last lines of the registry, from sourceIPv4Prefix (44) on.
fn by_last_name(name: &str) -> Element
    ensures { result ≡ named_in (drop 14 registry) name.now }
{
    match name {
        "sourceIPv4Prefix" => Element::Prefix(Axis::Source),
        "destinationIPv4Prefix" => Element::Prefix(Axis::Destination),
        "ipVersion" => Element::OnAxis(Axis::Version),
        "octetTotalCount" => Element::OctetTotalCount,
        "packetTotalCount" => Element::PacketTotalCount,
        "destinationIPv6Prefix" => Element::Prefix(Axis::Destination6),
        "sourceIPv6Prefix" => Element::Prefix(Axis::Source6),
        _ => Element::Other,
    }
}

/// Returns the element with this name among the lines of the registry from destinationTransportPort (11) on.
fn by_later_name(name: &str) -> Element
    ensures { result ≡ named_in (drop 7 registry) name.now }
{
    match name {
        "destinationTransportPort" => Element::OnAxis(Axis::DestinationPort),
        "destinationIPv4Address" => Element::OnAxis(Axis::Destination),
        "destinationIPv4PrefixLength" => Element::PrefixLength(Axis::Destination),
        "sourceIPv6Address" => Element::OnAxis(Axis::Source6),
        "destinationIPv6Address" => Element::OnAxis(Axis::Destination6),
        "sourceIPv6PrefixLength" => Element::PrefixLength(Axis::Source6),
        "destinationIPv6PrefixLength" => Element::PrefixLength(Axis::Destination6),
        _ => by_last_name(name),
    }
}

/// Returns the element with this name, or [`Element::Other`] if the name is unknown. Names are compared exactly.
pub fn by_name(name: &str) -> Element
    ensures { result ≡ element_named name.now }
{
    match name {
        "octetDeltaCount" => Element::OctetDeltaCount,
        "packetDeltaCount" => Element::PacketDeltaCount,
        "protocolIdentifier" => Element::OnAxis(Axis::Protocol),
        "ipClassOfService" => Element::OnAxis(Axis::ClassOfService),
        "sourceTransportPort" => Element::OnAxis(Axis::SourcePort),
        "sourceIPv4Address" => Element::OnAxis(Axis::Source),
        "sourceIPv4PrefixLength" => Element::PrefixLength(Axis::Source),
        _ => by_later_name(name),
    }
}

/// Returns the element with this number of an enterprise, where 0 means the IANA registry.
pub fn by_id(number: u16, enterprise: u32) -> Element
    ensures { result ≡ element_numbered number enterprise }
{
    if enterprise != 0 {
        return Element::Other;
    }
    match number {
        1 => Element::OctetDeltaCount,
        2 => Element::PacketDeltaCount,
        4 => Element::OnAxis(Axis::Protocol),
        5 => Element::OnAxis(Axis::ClassOfService),
        7 => Element::OnAxis(Axis::SourcePort),
        8 => Element::OnAxis(Axis::Source),
        9 => Element::PrefixLength(Axis::Source),
        11 => Element::OnAxis(Axis::DestinationPort),
        12 => Element::OnAxis(Axis::Destination),
        13 => Element::PrefixLength(Axis::Destination),
        27 => Element::OnAxis(Axis::Source6),
        28 => Element::OnAxis(Axis::Destination6),
        29 => Element::PrefixLength(Axis::Source6),
        30 => Element::PrefixLength(Axis::Destination6),
        44 => Element::Prefix(Axis::Source),
        45 => Element::Prefix(Axis::Destination),
        60 => Element::OnAxis(Axis::Version),
        85 => Element::OctetTotalCount,
        86 => Element::PacketTotalCount,
        169 => Element::Prefix(Axis::Destination6),
        170 => Element::Prefix(Axis::Source6),
        _ => Element::Other,
    }
}
