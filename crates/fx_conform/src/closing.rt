//! Laws of the closing phase.
ghost use Rattle.fx_conform.specs.Closing.{ClosingEmpties, LeavingStaysNamed, TakingStaysNamed};

/// States that only holders that a step can name hold records, also once counts were taken in and once records have
/// left. So once all caches are emptied, and then all collecting processes are finished in the order of ranks, no
/// holder has a record and no octets are on the links.
pub fn closing_leaves_nothing()
    ensures taking { TakingStaysNamed }
    ensures leaving { LeavingStaysNamed }
    ensures closing { ClosingEmpties }
{}
