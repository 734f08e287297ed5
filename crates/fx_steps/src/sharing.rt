//! Dividing a wanted fate between two parts.
ghost use Rattle.std.specs.Prelude.{◌≡◌, ◌==◌, if◌then◌else◌};
ghost use Rattle.fx_leaf.specs.declared.verdict.Fate as of_fate;
ghost use Rattle.fx_leaf.specs.declared.verdict.Fate.TheVariants as fate;
ghost use Rattle.fx_steps.specs.Costs as costs;
ghost use Rattle.fx_steps.specs.Spread as spread;

use crate::costs::{Costs, limited_sum};
use fx_leaf::Fate;

/// Returns the least number of steps to this fate.
pub(crate) fn cost_of(one: Costs, fate: Fate) -> u32
    ensures { result ≡ costs.cost_of one fate }
{
    match fate {
        Fate::Never => one.never,
        Fate::Once => one.once,
        Fate::Many => one.many,
        Fate::Unassigned => one.unassigned,
        Fate::Differing => crate::costs::OVER_LIMIT,
    }
}

/// Returns the cost of a pair of fates.
fn pair_cost(one: Costs, other: Costs, pair: (Fate, Fate)) -> u32
    ensures { result ≡ costs.limited_sum (costs.cost_of one pair.0) (costs.cost_of other pair.1) }
{
    limited_sum(cost_of(one, pair.0), cost_of(other, pair.1))
}

/// Returns this pair if it has this cost, and `later` otherwise.
fn pair_or(
    one: Costs,
    other: Costs,
    pair: (Fate, Fate),
    cost: u32,
    later: (Fate, Fate),
) -> (Fate, Fate)
    ensures { result ≡ (if costs.limited_sum (costs.cost_of one pair.0) (costs.cost_of other pair.1)
        == cost then pair else later) }
{
    if pair_cost(one, other, pair) == cost {
        pair
    } else {
        later
    }
}

/// Returns the first of these pairs that has this cost.
fn first_pair(one: Costs, other: Costs, pairs: &[(Fate, Fate)], cost: u32) -> (Fate, Fate)
    ensures { result ≡ spread.first_pair (λ (p : of_fate.Fate × of_fate.Fate).
        costs.limited_sum (costs.cost_of one p.0) (costs.cost_of other p.1)) pairs.now cost }
{
    match pairs {
        [] => (Fate::Never, Fate::Never),
        [first, rest @ ..] => {
            let later = first_pair(one, other, rest, cost);
            pair_or(one, other, *first, cost, later)
        }
    }
}

/// Returns two fates that together are once.
fn shares_of_once(one: Costs, other: Costs) -> (Fate, Fate)
    ensures { result ≡ spread.shares one other fate.Once }
{
    let pairs = [(Fate::Never, Fate::Once), (Fate::Once, Fate::Never)];
    first_pair(one, other, &pairs, cost_of(one.both(other), Fate::Once))
}

/// Returns two fates that together are more than once.
fn shares_of_many(one: Costs, other: Costs) -> (Fate, Fate)
    ensures { result ≡ spread.shares one other fate.Many }
{
    let pairs = [
        (Fate::Never, Fate::Many),
        (Fate::Many, Fate::Never),
        (Fate::Once, Fate::Once),
        (Fate::Once, Fate::Many),
        (Fate::Many, Fate::Once),
        (Fate::Many, Fate::Many),
    ];
    first_pair(one, other, &pairs, cost_of(one.both(other), Fate::Many))
}

/// Returns two fates that together are unassigned.
fn shares_of_unassigned(one: Costs, other: Costs) -> (Fate, Fate)
    ensures { result ≡ spread.shares one other fate.Unassigned }
{
    let pairs = [
        (Fate::Unassigned, Fate::Never),
        (Fate::Unassigned, Fate::Once),
        (Fate::Unassigned, Fate::Many),
        (Fate::Unassigned, Fate::Unassigned),
        (Fate::Never, Fate::Unassigned),
        (Fate::Once, Fate::Unassigned),
        (Fate::Many, Fate::Unassigned),
    ];
    first_pair(
        one,
        other,
        &pairs,
        cost_of(one.both(other), Fate::Unassigned),
    )
}

/// Returns two fates that together are this one, at the least cost.
pub(crate) fn shares(one: Costs, other: Costs, fate: Fate) -> (Fate, Fate)
    ensures { result ≡ spread.shares one other fate }
{
    match fate {
        Fate::Never => (Fate::Never, Fate::Never),
        Fate::Once => shares_of_once(one, other),
        Fate::Many => shares_of_many(one, other),
        Fate::Unassigned => shares_of_unassigned(one, other),
        Fate::Differing => (Fate::Never, Fate::Never),
    }
}
