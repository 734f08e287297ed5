//! Least numbers of steps.
ghost use Rattle.std.specs.Prelude.{◌≡◌};
ghost use Rattle.fx_leaf.specs.declared.verdict.Fate.TheVariants as fate;
ghost use Rattle.fx_steps.specs.Costs as costs;

/// One more than the number of steps that a run may have.
pub(crate) const OVER_LIMIT: u32 = 1_000_001;

/// The least number of steps to each fate, where any number above 1,000,000 is written as 1,000,001.
#[derive(Clone, Copy, Default)]
pub(crate) struct Costs {
    pub(crate) never: u32,
    pub(crate) once: u32,
    pub(crate) many: u32,
    pub(crate) unassigned: u32,
}

/// Returns the sum of both numbers, at most 1,000,001.
pub(crate) fn limited_sum(one: u32, other: u32) -> u32
    ensures { result ≡ costs.limited_sum one other }
{
    one.saturating_add(other).min(OVER_LIMIT)
}

/// Returns the least of these numbers, or 1,000,001 if there are none.
fn least_number(numbers: &[u32]) -> u32
    ensures { result ≡ costs.least_number numbers.now }
{
    match numbers {
        [] => OVER_LIMIT,
        [first, rest @ ..] => least_number(rest).min(*first),
    }
}

impl Costs {
    /// Returns the costs if nothing happens.
    pub(crate) fn of_never() -> Costs
        ensures { result ≡ costs.costs_of_never }
    {
        Costs {
            never: 0,
            once: OVER_LIMIT,
            many: OVER_LIMIT,
            unassigned: OVER_LIMIT,
        }
    }

    /// Returns the costs of a record that is counted.
    pub(crate) fn of_once() -> Costs
        ensures { result ≡ costs.costs_of_once }
    {
        Costs {
            never: OVER_LIMIT,
            once: 0,
            many: OVER_LIMIT,
            unassigned: OVER_LIMIT,
        }
    }

    /// Returns the costs of a record that is unassigned.
    pub(crate) fn of_unassigned() -> Costs
        ensures { result ≡ costs.costs_of_unassigned }
    {
        Costs {
            never: OVER_LIMIT,
            once: OVER_LIMIT,
            many: OVER_LIMIT,
            unassigned: 0,
        }
    }

    /// Returns the costs if there is no way to any fate.
    pub(crate) fn of_no_way() -> Costs
        ensures { result ≡ costs.costs_of_no_way }
    {
        Costs {
            never: OVER_LIMIT,
            once: OVER_LIMIT,
            many: OVER_LIMIT,
            unassigned: OVER_LIMIT,
        }
    }

    /// Returns the costs with one more step.
    pub(crate) fn one_step_more(self) -> Costs
        ensures { result ≡ costs.one_step_more self }
    {
        Costs {
            never: limited_sum(1, self.never),
            once: limited_sum(1, self.once),
            many: limited_sum(1, self.many),
            unassigned: limited_sum(1, self.unassigned),
        }
    }

    /// Returns the costs if one of both happens.
    pub(crate) fn either(self, other: Costs) -> Costs
        ensures { result ≡ costs.either_costs self other }
    {
        Costs {
            never: self.never.min(other.never),
            once: self.once.min(other.once),
            many: self.many.min(other.many),
            unassigned: self.unassigned.min(other.unassigned),
        }
    }

    /// Returns the costs if both happen.
    pub(crate) fn both(self, other: Costs) -> Costs
        ensures { result ≡ costs.both_costs self other }
    {
        Costs {
            never: least_number(&[limited_sum(self.never, other.never)]),
            once: least_number(&[
                limited_sum(self.never, other.once),
                limited_sum(self.once, other.never),
            ]),
            many: self.both_many(other),
            unassigned: self.both_unassigned(other),
        }
    }

    /// Returns the least number of steps after which both together are counted more than once.
    fn both_many(self, other: Costs) -> u32
        ensures { result ≡ costs.both_cost self other fate.Many }
    {
        least_number(&[
            limited_sum(self.never, other.many),
            limited_sum(self.many, other.never),
            limited_sum(self.once, other.once),
            limited_sum(self.once, other.many),
            limited_sum(self.many, other.once),
            limited_sum(self.many, other.many),
        ])
    }

    /// Returns the least number of steps after which one of both is unassigned.
    fn both_unassigned(self, other: Costs) -> u32
        ensures { result ≡ costs.both_cost self other fate.Unassigned }
    {
        least_number(&[
            limited_sum(self.unassigned, other.never),
            limited_sum(self.unassigned, other.once),
            limited_sum(self.unassigned, other.many),
            limited_sum(self.unassigned, other.unassigned),
            limited_sum(self.never, other.unassigned),
            limited_sum(self.once, other.unassigned),
            limited_sum(self.many, other.unassigned),
        ])
    }
}
