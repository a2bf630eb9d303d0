// One step of the fit, over one row: the sums, divisions and branches of document 01.
ghost use Rattle.std.specs.Prelude.{◌≡◌, true, ◌+◌, ◌*◌, ◌/◌, ◌≤◌, ◌<◌, length};
ghost use Rattle.arithmetic.specs.Sum.{sum, only};
ghost use Rattle.arithmetic.specs.Row.{row, values, each};
ghost use Rattle.tree.specs.Tree.{chance, incoming, probability_total};
ghost use Rattle.row_branches.specs.RowBranches.{row_branch};
ghost use Rattle.row_branches.specs.inside.Transitions.{branch_up, branch_middle, branch_down, row_transition};
ghost use Rattle.limits.specs.Limits.{is_discount};
ghost use Rattle.fit_laws.specs.Step.{normaliser, carried};
ghost use Rattle.fit_laws.specs.inside.Bounds.{most_row_sum};
ghost use Rattle.fitting.specs.inside.Rows.{RowStepped};
ghost use Rattle.fitting.specs.inside.Preconditions.{Factors, StepReady, SpreadReady};

use arithmetic::ONE;
use row_branches::RowBranch;
use tree::PROBABILITY_TOTAL;

// Z of a row.
pub(crate) fn normaliser_of(state_prices: &[u64], factors: &[u64]) -> u64
    requires { Factors factors.now (length state_prices.now) × (sum (length state_prices.now) (values state_prices.now) ≤ most_row_sum) }
    ensures { result ≡ normaliser (length state_prices.now) (values state_prices.now) (values factors.now) }
{
    let mut total: u64 = 0;
    for (price, factor) in state_prices.iter().zip(factors) {
        total += *price * *factor;
    }
    total / ONE
}

pub(crate) fn clear(next: &mut [u64])
    ensures { next.new ≡ row (length next.old) (λ j. 0) }
{
    next.fill(0);
}

fn add_at(next: &mut [u64], at: usize, amount: u64)
    requires { (at < length next.old) × (values next.old at + amount < 18446744073709551616) }
    ensures { next.new ≡ row (length next.old) (λ j. values next.old j + only at j amount) }
{
    next[at] += amount;
}

// Adds an amount, times each probability, to the three nodes of a branch.
fn scatter(next: &mut [u64], branch: RowBranch, amount: u64)
    requires { SpreadReady branch amount next.old }
    ensures { next.new ≡ row (length next.old) (λ j. values next.old j
        + (only (branch.low + 2) j (branch_up branch * amount) + only (branch.low + 1) j (branch_middle branch * amount)
        + only branch.low j (branch_down branch * amount))) }
{
    let low = branch.low;
    let probabilities = branch.probabilities;
    add_at(next, low + 2, probabilities[0] * amount);
    add_at(next, low + 1, probabilities[1] * amount);
    add_at(next, low, probabilities[2] * amount);
}

// Adds what a node hands on to the sums of the next row.
fn spread_node(downs: &[u64], index: usize, amount: u64, sums: &mut [u64])
    requires { SpreadReady (row_branch downs.now (length sums.old) index) amount sums.old }
    ensures { sums.new ≡ row (length sums.old)
        (λ j. values sums.old j + chance (row_transition downs.now (length sums.old)) index j * amount) }
{
    let branch = row_branches::row_branch(downs, sums.len(), index);
    scatter(sums, branch, amount);
}

// Node by node: the discount, and what it carries to the sums of the next row, which are cleared. Stops where a discount is not
// accepted. One loop, so that the divisions overlap the rest.
fn fill_row(
    state_prices: &[u64],
    factors: &[u64],
    downs: &[u64],
    quote: u64,
    z: u64,
    discounts: &mut [u64],
    sums: &mut [u64],
) -> bool
    requires { StepReady quote state_prices.now factors.now downs.now (length discounts.old) (length sums.old)
        × (0 < z) × (sums.old ≡ row (length sums.old) (λ j. 0)) }
    ensures tested { result ≡ each (length state_prices.now) (λ k. is_discount (quote * values factors.now k / z)) }
    ensures filled { result ≡ true → discounts.new ≡ row (length state_prices.now)
        (λ k. quote * values factors.now k / z) }
    ensures spreads { result ≡ true → sums.new ≡ row (length sums.old)
        (incoming (row_transition downs.now (length sums.old)) (length state_prices.now)
        (carried (values state_prices.now) (λ k. quote * values factors.now k / z))) }
{
    for k in 0..state_prices.len() {
        let discount = quote * factors[k] / z;
        if !limits::is_discount(discount) {
            return false;
        }
        discounts[k] = discount;
        spread_node(downs, k, state_prices[k] * discount / ONE, sums);
    }
    true
}

// The state prices: each sum over the denominator of the probabilities.
pub(crate) fn divide(sums: &[u64], next: &mut [u64])
    requires { length sums.now ≡ length next.old }
    ensures { next.new ≡ row (length next.old) (λ j. values sums.now j / probability_total) }
{
    for (k, place) in next.iter_mut().enumerate() {
        *place = sums[k] / PROBABILITY_TOTAL;
    }
}

// The discounts of a row from its state prices, and the sums over the branches into each node of the next row.
pub(crate) fn step_row(
    state_prices: &[u64],
    factors: &[u64],
    downs: &[u64],
    quote: u64,
    discounts: &mut [u64],
    sums: &mut [u64],
) -> bool
    requires { StepReady quote state_prices.now factors.now downs.now (length discounts.old) (length sums.old) }
    ensures { RowStepped quote (length sums.old) state_prices.now factors.now downs.now
        discounts.new sums.new result }
{
    let z = normaliser_of(state_prices, factors);
    clear(sums);
    fill_row(state_prices, factors, downs, quote, z, discounts, sums)
}
