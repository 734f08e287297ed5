//! Laws of whole runs.
ghost use Rattle.fx_conform.specs.Calls.{ClosingsAreRows, LinesAreRows, OpeningConforms};
ghost use Rattle.fx_conform.specs.Whole.{DeclarationsHavePaths, RunsAreComplete, TotalsArePlainSums, TotalsAreSumsModulo};

/// States that a running network does what a complete run of the abstract one does: if it gives totals, the capture's
/// frames in order are the packets of such a run, each with a class that holds it and one of that class's paths. Its
/// steps are those of the schedule's lines and then of the closing phase; the totals are that run's, and the octets
/// that were put on each link read as the records that the run has put on it. So if a network counts each packet
/// exactly once, these totals are the plain sums over the capture's packets, modulo 2 to the 64 if the sums are larger.
pub fn runs_are_complete()
    ensures complete { RunsAreComplete }
    ensures once { TotalsArePlainSums }
    ensures modulo { TotalsAreSumsModulo }
{}

/// States that each call of a running network moves the abstract state that it is seen as: opening it is the opening, a
/// line that is obeyed is its row of steps, and closing it is the rows of the closing phase. The network's totals are
/// that state's, each cache and aggregation holds that state's records, and each link's octets read as its records.
pub fn calls_are_rows()
    ensures opens { OpeningConforms }
    ensures obeys { LinesAreRows }
    ensures closes { ClosingsAreRows }
{}

/// States that each class of a declaration of traffic without a fault has a path, as the law of whole runs requires.
pub fn declarations_have_paths()
    ensures { DeclarationsHavePaths }
{}
