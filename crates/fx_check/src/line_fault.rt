//! Reasons for refusing lines of a certificate.
ghost use Rattle.std.specs.Prelude.{◌≡◌};
ghost use Rattle.fx_check.specs.LineFaults.{number_of};

use fx_base::refusals;

/// The reason why a line of a certificate is refused.
#[derive(Clone, Copy)]
pub(crate) enum LineFault {
    /// The first line isn't the first line of a certificate.
    Header,
    /// The line is no item's text.
    Form,
    /// The item isn't in its place, or a leaf is of another kind than its class requires.
    Place,
    /// A split isn't strictly inside its region.
    SplitPlace,
    /// The text ends inside the line, or before the last one.
    Cut,
    /// The line follows the last one.
    BehindEnd,
    /// A split is too deep.
    SplitDepth,
    /// There are too many split and leaf lines.
    LineCount,
    /// A leaf isn't the sound one, with the number of what is wrong with it.
    Leaf(u16),
}

impl LineFault {
    /// Returns the fault's number: 401 to 405, 411, 412 and 414 in the variants' order, or the leaf's.
    pub(crate) fn number(self) -> u16
        ensures { result ≡ number_of self }
    {
        match self {
            LineFault::Header => refusals::CERTIFICATE_HEADER,
            LineFault::Form => refusals::CERTIFICATE_LINE,
            LineFault::Place => refusals::CERTIFICATE_ORDER,
            LineFault::SplitPlace => refusals::SPLIT_NOT_INSIDE,
            LineFault::Cut => refusals::CERTIFICATE_CUT,
            LineFault::BehindEnd => refusals::LINE_BEHIND_END,
            LineFault::SplitDepth => refusals::SPLIT_TOO_DEEP,
            LineFault::LineCount => refusals::TOO_MANY_LINES,
            LineFault::Leaf(number) => number,
        }
    }
}
