//! Reasons for refusing octets.
ghost use Rattle.std.specs.Prelude.{◌≡◌};
ghost use Rattle.fx_wire.specs.Refusals.{number_of};

use fx_base::refusals;

/// Why octets are no message, or no template record (RFC 7011).
#[derive(Clone, Copy, Debug, PartialEq, Eq)]
pub enum Malformed {
    /// A message with a version other than 10 (section 3.1).
    Version,
    /// A message length below the 16 octets of the header (section 3.1).
    MessageLength,
    /// A set's length below four or past its message, or fewer octets left than the header of a set has (section
    /// 3.3.2).
    SetLength,
    /// A template record that is cut, whose id can't be declared or withdrawn this way, whose number of scope fields is
    /// 0 or greater than that of the fields, or with a field that can't have its length (sections 3.2, 3.4 and 8.1).
    Template,
    /// A reserved set id (section 3.3.2).
    SetId,
}

impl Malformed {
    /// Returns the number of the fault: 611 for a version, 612 for a message length, 613 for a set's length, 614 for a
    /// template, 615 for a set id.
    pub fn number(self) -> u16
        ensures { result ≡ number_of self }
    {
        match self {
            Malformed::Version => refusals::MESSAGE_VERSION,
            Malformed::MessageLength => refusals::MESSAGE_LENGTH,
            Malformed::SetLength => refusals::SET_LENGTH,
            Malformed::Template => refusals::TEMPLATE_FORM,
            Malformed::SetId => refusals::RESERVED_SET,
        }
    }
}
