// Causes of refusal about a rate tree and a spread tree, their lent discounts and their flows. Nothing lent is changed.
#![tactic(auto)]

ghost use Rattle.std.specs.Prelude.{◌≡◌, ◌<◌, length};
ghost use Rattle.arithmetic.specs.Refusals.{cause_of};
ghost use Rattle.arithmetic.specs.Row.{values};
ghost use Rattle.lattice.specs.Shape.{node_count};
ghost use Rattle.lent_tree.specs.LentTree.{stored, Accepted};
ghost use Rattle.pair_laws.specs.PairCauses.{pair_steps_cause, discounted, combined_cause, pair_cause, least, AcceptedTrees};

use arithmetic::Refusal;

const MOST_PAIR_STEPS: usize = 20;

// The cause about both numbers of steps: outside 1 to 60, then above 20 or different.
fn pair_steps_cause(rate_steps: usize, spread_steps: usize) -> Result<(), Refusal>
    ensures { cause_of result ≡ pair_steps_cause rate_steps spread_steps }
{
    if !limits::is_steps(rate_steps) {
        return Err(Refusal::Steps);
    }
    if !limits::is_steps(spread_steps) {
        return Err(Refusal::Steps);
    }
    if MOST_PAIR_STEPS < rate_steps {
        return Err(Refusal::PairSteps);
    }
    if rate_steps != spread_steps {
        return Err(Refusal::PairSteps);
    }
    Ok(())
}

// The least of a row, at most 1,100,000,000.
fn least_of(xs: &[u64]) -> u64
    ensures { result ≡ least (length xs.now) (values xs.now) }
{
    let mut best: u64 = limits::MOST_DISCOUNT;
    for x in xs {
        if *x < best {
            best = *x;
        }
    }
    best
}

// The least discount of a row.
fn least_discount(steps: usize, reversion: u64, row: usize, discounts: &[u64]) -> u64
    requires { Accepted steps reversion discounts.now × (row < steps) }
    ensures { result ≡ least (node_count reversion row) (stored reversion discounts.now row) }
{
    let shape = lattice::row_shape(reversion, steps, row);
    let start = shape.start;
    let end = start + shape.count;
    least_of(&discounts[start..end])
}

// Whether no discount of a pair of the row is 0: the least one is that of the least of both rows.
fn is_discounted(
    steps: usize,
    rate_reversion: u64,
    spread_reversion: u64,
    row: usize,
    rates: &[u64],
    spreads: &[u64],
) -> bool
    requires { AcceptedTrees steps rate_reversion spread_reversion rates.now spreads.now × (row < steps) }
    ensures { result ≡ discounted rate_reversion spread_reversion rates.now spreads.now row }
{
    let rate = least_discount(steps, rate_reversion, row, rates);
    let spread = least_discount(steps, spread_reversion, row, spreads);
    0 < rate * spread / arithmetic::ONE
}

// Refused where a pair of some row has discount 0.
fn combined_cause(
    steps: usize,
    rate_reversion: u64,
    spread_reversion: u64,
    rates: &[u64],
    spreads: &[u64],
) -> Result<(), Refusal>
    requires { AcceptedTrees steps rate_reversion spread_reversion rates.now spreads.now }
    ensures { cause_of result ≡ combined_cause steps rate_reversion spread_reversion rates.now spreads.now }
{
    for row in 0..steps {
        if !is_discounted(steps, rate_reversion, spread_reversion, row, rates, spreads) {
            return Err(Refusal::Discount);
        }
    }
    Ok(())
}

// The first cause about two trees, their lent discounts and their flows: 3, 19, 4, 6, 9, 10.
pub fn pair_cause(
    rate_steps: usize,
    rate_reversion: u64,
    rate_discounts: &[u64],
    spread_steps: usize,
    spread_reversion: u64,
    spread_discounts: &[u64],
    flows: &[u64],
) -> Result<(), Refusal>
    ensures { cause_of result ≡ pair_cause rate_steps rate_reversion rate_discounts.now spread_steps spread_reversion
        spread_discounts.now flows.now }
{
    pair_steps_cause(rate_steps, spread_steps)?;
    let trees = arithmetic::lowest_refusal(
        lent_tree::discounts_cause(rate_steps, rate_reversion, rate_discounts),
        lent_tree::discounts_cause(spread_steps, spread_reversion, spread_discounts),
    );
    let about_flows = price_causes::flows_cause(rate_steps, flows);
    if trees.is_err() {
        return arithmetic::lowest_refusal(trees, about_flows);
    }
    let combined = combined_cause(
        rate_steps,
        rate_reversion,
        spread_reversion,
        rate_discounts,
        spread_discounts,
    );
    arithmetic::lowest_refusal(combined, about_flows)
}
