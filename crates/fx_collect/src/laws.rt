//! A law: a contract over the definitions, without code.
ghost use Rattle.fx_collect.specs.Runs.{AfterRuns, HasTable, HasExactTotals};

/// At the end of each run the network's totals have each key once, and [`Totals::of`](crate::Totals::of) reports
/// exactly that list.
pub fn totals_of_runs()
    ensures table { AfterRuns HasTable }
    ensures reported { AfterRuns HasExactTotals }
{}
