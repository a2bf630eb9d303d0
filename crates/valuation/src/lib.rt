// What payoffs on a row are worth by the row's state prices, and how far that may fall short of their exact price.
#![tactic(auto)]

ghost use Rattle.std.specs.Prelude.{◌≡◌, ◌≤◌, ltb, length};
ghost use Rattle.arithmetic.specs.Row.{greatest_of, sum_of};
ghost use Rattle.arithmetic.specs.Refusals.{cause_of, answer_of};
ghost use Rattle.limits.specs.Limits.{value_limit, sum_limit};
ghost use Rattle.valuation_laws.specs.Valuation.{valuation_bound};
ghost use Rattle.valuation.specs.Entries.{payoffs_cause, value_by_state_prices_answer, valuation_error_bound_answer};
ghost use Rattle.valuation.specs.inside.Products.{sum_of_products};

use arithmetic::{ONE, Refusal};

// Whether state prices sum above 2,000,000,100. Tests what is left before it adds, so that no sum wraps.
fn sums_above_limit(prices: &[u64]) -> bool
    ensures { result ≡ ltb sum_limit (sum_of prices.now) }
{
    let mut total: u64 = 0;
    for price in prices {
        if 2_000_000_100 - total < *price {
            return true;
        }
        total += *price;
    }
    false
}

// At most 2,000,000,100 times 8,000,000,000, which 64 bits hold.
fn sum_of_products(prices: &[u64], payoffs: &[u64]) -> u64
    requires { (length prices.now ≡ length payoffs.now) × (sum_of prices.now ≤ sum_limit) × (greatest_of payoffs.now ≤ value_limit) }
    ensures { result ≡ sum_of_products prices.now payoffs.now }
{
    let mut total: u64 = 0;
    for (price, payoff) in prices.iter().zip(payoffs) {
        total += *price * *payoff;
    }
    total
}

// The value of payoffs on a row, by the row's state prices.
pub fn value_by_state_prices(prices: &[u64], payoffs: &[u64]) -> Result<u64, Refusal>
    ensures { answer_of result ≡ value_by_state_prices_answer prices.now payoffs.now }
{
    if prices.len() != payoffs.len() {
        return Err(Refusal::LengthOrRow);
    }
    if prices.len() % 2 == 0 {
        return Err(Refusal::LengthOrRow);
    }
    if limits::MOST_NODES < prices.len() {
        return Err(Refusal::LengthOrRow);
    }
    if limits::VALUE_LIMIT < arithmetic::greatest_of(payoffs) {
        return Err(Refusal::Value);
    }
    if sums_above_limit(prices) {
        return Err(Refusal::Value);
    }
    let value = sum_of_products(prices, payoffs) / ONE;
    if limits::VALUE_LIMIT < value {
        return Err(Refusal::Value);
    }
    Ok(value)
}

// The causes about payoffs: their number, then their size.
fn payoffs_cause(count: usize, nodes: u64, greatest: u64) -> Result<(), Refusal>
    ensures { cause_of result ≡ payoffs_cause count nodes greatest }
{
    if count as u64 == nodes {
        limits::limit_cause(greatest)
    } else {
        Err(Refusal::LengthOrRow)
    }
}

fn bound_of_value(greatest: u64, bound: u64) -> u64
    requires { (greatest ≤ value_limit) × (bound ≤ 1000000) }
    ensures { result ≡ valuation_bound greatest bound }
{
    (greatest * bound + (ONE - 1)) / ONE + 1
}

// How far the value of payoffs on a row may fall short of their exact price, from the tree's discounts.
pub fn valuation_error_bound(
    steps: usize,
    reversion: u64,
    discounts: &[u64],
    row: usize,
    payoffs: &[u64],
) -> Result<u64, Refusal>
    ensures { answer_of result ≡ valuation_error_bound_answer steps reversion discounts.now row payoffs.now }
{
    let bound = state_price_bound::state_price_error_bound(steps, reversion, discounts, row);
    let nodes = lattice::node_count(reversion, row).unwrap_or(0);
    let greatest = arithmetic::greatest_of(payoffs);
    arithmetic::lowest_refusal(bound, payoffs_cause(payoffs.len(), nodes, greatest))?;
    Ok(bound_of_value(greatest, bound.unwrap()))
}
