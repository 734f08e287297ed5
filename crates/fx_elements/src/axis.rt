//! The axes, which distinguish packets and flows.
ghost use Rattle.std.specs.Prelude.{◌≡◌, ◌^◌, ◌+◌, ◌<◌, ◌==◌, map, length, slice_index};
ghost use Rattle.fx_elements.specs.Axes.{axis_index, axis_width, axis_count, is_address, is_wide};
ghost use Rattle.fx_elements.specs.Elements.{axis_name, element_number, prefix_number, prefix_length_number};

/// The number of axes.
pub const AXES: usize = 9;

/// An information element that packets carry and that distinguishes flows (RFC 7012, sections 5.4 and 5.5). The
/// variants are in the order in which keys are written and compared.
#[derive(Clone, Copy, Debug, Default, PartialEq, Eq)]
pub enum Axis {
    /// sourceIPv4Address, 32 bits.
    #[default]
    Source,
    /// destinationIPv4Address, 32 bits.
    Destination,
    /// protocolIdentifier, 8 bits.
    Protocol,
    /// sourceTransportPort, 16 bits.
    SourcePort,
    /// destinationTransportPort, 16 bits.
    DestinationPort,
    /// ipClassOfService, 8 bits.
    ClassOfService,
    /// ipVersion, 8 bits.
    Version,
    /// sourceIPv6Address, 128 bits.
    Source6,
    /// destinationIPv6Address, 128 bits.
    Destination6,
}

/// The greatest value on each axis, in order.
pub const TOPS: [u128; AXES] = [
    0xffff_ffff,
    0xffff_ffff,
    0xff,
    0xffff,
    0xffff,
    0xff,
    0xff,
    u128::MAX,
    u128::MAX,
];

/// The names of the axes' information elements (RFC 7012), in order.
pub const AXIS_NAMES: [&str; AXES] = [
    "sourceIPv4Address",
    "destinationIPv4Address",
    "protocolIdentifier",
    "sourceTransportPort",
    "destinationTransportPort",
    "ipClassOfService",
    "ipVersion",
    "sourceIPv6Address",
    "destinationIPv6Address",
];

/// The axes, in order.
pub const EVERY_AXIS: [Axis; AXES] = [
    Axis::Source,
    Axis::Destination,
    Axis::Protocol,
    Axis::SourcePort,
    Axis::DestinationPort,
    Axis::ClassOfService,
    Axis::Version,
    Axis::Source6,
    Axis::Destination6,
];

impl Axis {
    /// Returns the 0-based index of the axis in the order.
    pub fn index(self) -> usize
        ensures place { result ≡ axis_index self }
        ensures bound { result < axis_count }
    {
        match self {
            Axis::Source => 0,
            Axis::Destination => 1,
            Axis::Protocol => 2,
            Axis::SourcePort => 3,
            Axis::DestinationPort => 4,
            Axis::ClassOfService => 5,
            Axis::Version => 6,
            Axis::Source6 => 7,
            Axis::Destination6 => 8,
        }
    }

    /// Returns the name of the axis's information element.
    pub fn name(self) -> &'static str
        ensures { result.now ≡ axis_name self }
    {
        AXIS_NAMES[self.index()]
    }

    /// Returns whether the values of the axis are addresses, which may be cut to a prefix.
    pub fn is_address(self) -> bool
        ensures { result ≡ is_address self }
    {
        matches!(
            self,
            Axis::Source | Axis::Destination | Axis::Source6 | Axis::Destination6
        )
    }

    /// Returns whether the values of the axis are IPv6 addresses.
    pub fn is_wide(self) -> bool
        ensures { result ≡ is_wide self }
    {
        matches!(self, Axis::Source6 | Axis::Destination6)
    }

    /// Returns the number of the axis's element in the IANA registry.
    pub fn element_number(self) -> u16
        ensures { result ≡ element_number self }
    {
        match self {
            Axis::Source => 8,
            Axis::Destination => 12,
            Axis::Protocol => 4,
            Axis::SourcePort => 7,
            Axis::DestinationPort => 11,
            Axis::ClassOfService => 5,
            Axis::Version => 60,
            Axis::Source6 => 27,
            Axis::Destination6 => 28,
        }
    }

    /// Returns the number of the element for a prefix of the axis's addresses, or 0, which no element has, if its
    /// values are not addresses.
    pub fn prefix_number(self) -> u16
        ensures { result ≡ prefix_number self }
    {
        match self {
            Axis::Source => 44,
            Axis::Destination => 45,
            Axis::Source6 => 170,
            Axis::Destination6 => 169,
            _ => 0,
        }
    }

    /// Returns the number of the element for the length of such a prefix.
    pub fn prefix_length_number(self) -> u16
        ensures { result ≡ prefix_length_number self }
    {
        match self {
            Axis::Source => 9,
            Axis::Destination => 13,
            Axis::Source6 => 29,
            Axis::Destination6 => 30,
            _ => 0,
        }
    }
}

/// Returns the number of bits of a value on the axis.
pub fn width(axis: Axis) -> u32
    ensures bits { result ≡ axis_width axis }
    ensures bound { result < 129 }
{
    match axis {
        Axis::Source | Axis::Destination => 32,
        Axis::Protocol | Axis::ClassOfService | Axis::Version => 8,
        Axis::SourcePort | Axis::DestinationPort => 16,
        Axis::Source6 | Axis::Destination6 => 128,
    }
}

/// Returns the greatest value on the axis.
pub fn top(axis: Axis) -> u128
    ensures value { result ≡ slice_index TOPS (axis_index axis) }
    ensures width { result + 1 ≡ 2 ^ axis_width axis }
{
    TOPS[axis.index()]
}
