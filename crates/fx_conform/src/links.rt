//! Laws of links and what they carry.
ghost use Rattle.fx_conform.specs.OnLinks.{ArrivedLeave, CarriedArrive, FinishingStills, LinksBegin, PutsAreCarried, HistoryIsRead, NoneLeft, NothingIsCarried, StillIsCarried};
ghost use Rattle.fx_conform.specs.Sendable.{AggregatedCanBeSent, LeavingsCanBeSent, MetCanBeSent, TakenCanBeSent};

/// States that the links of a running network are what the abstract one carries: a record that is put on links is the
/// last one on each, octets that are carried complete the first records on their link, and all octets that were put on
/// a link are read as exactly the records that were put on it.
pub fn links_are_carried()
    ensures begins { LinksBegin }
    ensures still { StillIsCarried }
    ensures puts { PutsAreCarried }
    ensures finishing { FinishingStills }
    ensures carrying { CarriedArrive }
    ensures arriving { ArrivedLeave }
    ensures none_left { NoneLeft }
    ensures nothing { NothingIsCarried }
    ensures history { HistoryIsRead }
{}

/// States that records that are held can be sent: their keys have layouts and the bits of these, and their counts are
/// numbers of 64 bits.
pub fn held_can_be_sent()
    ensures met { MetCanBeSent }
    ensures aggregated { AggregatedCanBeSent }
    ensures leaving { LeavingsCanBeSent }
    ensures taken { TakenCanBeSent }
{}
