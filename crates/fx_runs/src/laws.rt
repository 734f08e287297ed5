//! Laws of runs that are continued.
ghost use Rattle.fx_runs.specs.Extending.{RunsExtend, RunsExtendFrom, RunsJoin};
ghost use Rattle.fx_runs.specs.Given.{ArrivePuts, CrossPuts, ExpirePuts, GivesAll};
ghost use Rattle.fx_runs.specs.Making.{ArrivesAreMade, CrossesAreMade, ExpiresAreMade};
ghost use Rattle.fx_runs.specs.PutOn.{PutExtends, PutJoins};

/// Packets may be added as a run goes on: a run over the packets so far is a run over one more, whose crossings are
/// still pending, and from any state the steps lead to the same states over more packets. It puts the same records on
/// the links. Consecutive runs are one run, which puts what they put.
pub fn runs_go_on()
    ensures packet { RunsExtend }
    ensures behind { RunsExtendFrom }
    ensures join { RunsJoin }
    ensures put { PutExtends }
    ensures put_join { PutJoins }
{}

/// Steps can be made with the destinations in use: a held record can leave, the first record on a link can arrive, and
/// a pending crossing can be made. The records that leave and arrive are put on the links of those destinations.
pub fn steps_are_made()
    ensures expires { ExpiresAreMade }
    ensures arrives { ArrivesAreMade }
    ensures crosses { CrossesAreMade }
{}

/// A record that is put on some links is appended to each of them, as often as the link is listed: this is what a step
/// puts on a link if a record leaves a holder or another link in it. A crossing puts nothing.
pub fn puts_are_given()
    ensures gives { GivesAll }
    ensures expire { ExpirePuts }
    ensures arrive { ArrivePuts }
    ensures cross { CrossPuts }
{}
