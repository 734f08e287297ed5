//! Laws of stores and of the records that holders of the abstract network hold.
ghost use Rattle.fx_conform.specs.Beginning.{Begins};
ghost use Rattle.fx_conform.specs.Joining.{JoinsAreMade, LeavingsAreMade};
ghost use Rattle.fx_conform.specs.Emptying.{EmptiedHoldsNothing, EmptyingIsLeaving, LeastRecordsLeave, LeastsLeave};
ghost use Rattle.fx_conform.specs.TakingIn.{AggregatedHaveKeys, MetHaveKeys, TakersJoin, TakingIn};
ghost use Rattle.fx_conform.specs.Usable.{AdditionsStayUsable, NewStoresAreUsable, RemovalsStayUsable};

/// States that a list with one record for each flow of a store keeps this property: a new record joins the held one of
/// its key, or is added if there is none; and a flow that leaves the store is held by one record, which can leave.
pub fn records_are_kept()
    ensures joins { JoinsAreMade }
    ensures leaves { LeavingsAreMade }
{}

/// States that a store with a bound has different keys, no more of them than its bound, and a bound of at least 1. This
/// is so for a new store, and for one to which counts are added or from which an entry is removed.
pub fn stores_stay_usable()
    ensures new { NewStoresAreUsable }
    ensures added { AdditionsStayUsable }
    ensures taken { RemovalsStayUsable }
{}

/// States that, if the record of a holder's least key leaves it, the stores are still what is held. After this is done
/// as often as the holder has records, it holds nothing; this is how a holder is emptied.
pub fn holders_are_emptied()
    ensures least { LeastRecordsLeave }
    ensures leasts { LeastsLeave }
    ensures nothing { EmptiedHoldsNothing }
    ensures emptying { EmptyingIsLeaving }
{}

/// States that holders take counts in: what makes room leaves first, then each holder takes its record in, and then the
/// records of immediate caches leave. This holds if any two records for one holder have one key, as those of a packet
/// do that crosses an interface, and those of a record that arrives. In holders without a bound all records are only
/// taken in.
pub fn stores_take_in()
    ensures met { MetHaveKeys }
    ensures aggregated { AggregatedHaveKeys }
    ensures taken { TakingIn }
    ensures takers { TakersJoin }
{}

/// States that at the opening of a network all stores are usable, and nothing is in them or held.
pub fn nothing_is_held()
    ensures begins { Begins }
{}
