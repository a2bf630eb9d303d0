// The tables of a tree, worked out once for each node index, and the fit from them.
ghost use Rattle.std.specs.Prelude.{◌≡◌, cond, ◌++◌, ◌+◌, ◌*◌, ◌≤◌, length, drop};
ghost use Rattle.arithmetic.specs.Rounding.{one};
ghost use Rattle.arithmetic.specs.Refusals.{cause_of};
ghost use Rattle.arithmetic.specs.Row.{row};
ghost use Rattle.limits.specs.Limits.{most_steps, most_nodes};
ghost use Rattle.lattice.specs.RateTree.{node_of_index};
ghost use Rattle.factor.specs.Factor.{factor};
ghost use Rattle.fitting.specs.inside.Preconditions.{RowsReady, QuotesReady};
ghost use Rattle.fitted_laws.specs.Fit.{curve_accepted, curve_discount, curve_state_price};
ghost use Rattle.fitting.specs.inside.TableFit.{table_discount, table_state_price, table_accepted, TreeFitted, FitTried};

use crate::{rows, step};
use arithmetic::Refusal;

// A tree's reversion, the spacing of its nodes, and the half width of its widest row that has discounts.
#[derive(Drop)]
pub(crate) struct Grid {
    pub(crate) reversion: u64,
    pub(crate) spacing: u64,
    pub(crate) widest: usize,
}

// The factors of a row, from the middle node outwards: one series gives those of both sides.
fn fill_factors(widest: usize, spacing: u64, factors: &mut [u64])
    requires { (widest ≤ most_steps) × (widest * spacing ≤ one) × (length factors.old ≡ 2 * widest + 1) }
    ensures { factors.new ≡ row (length factors.old) (λ k. factor (node_of_index widest k) spacing) }
{
    for distance in 0..widest + 1 {
        let sides = factor::both_sides(distance as u64, spacing).unwrap();
        factors[widest - distance] = sides.below;
        factors[widest + distance] = sides.above;
    }
}

fn clear_front(memory: &mut [u64], count: usize)
    requires { count ≤ length memory.old }
    ensures { memory.new ≡ row count (λ j. 0) ++ drop count memory.old }
{
    step::clear(&mut memory[..count]);
}

// The fit from tables. Where a discount is not accepted, zeros in the needed parts of both memories.
fn fit_or_clear(
    reversion: u64,
    quotes: &[u64],
    factors: &[u64],
    downs: &[u64],
    discounts: &mut [u64],
    state_prices: &mut [u64],
    sums: &mut [u64],
) -> bool
    requires { RowsReady reversion quotes.now factors.now downs.now discounts.old state_prices.old sums.old }
    ensures { FitTried reversion (length quotes.now) (table_accepted reversion quotes.now factors.now)
        (table_discount reversion quotes.now factors.now) (table_state_price reversion quotes.now factors.now)
        discounts.old state_prices.old discounts.new state_prices.new result }
{
    let steps = quotes.len();
    let needed = lattice::discounts_needed(steps, reversion).unwrap() as usize;
    let all = lattice::state_prices_needed(steps, reversion).unwrap() as usize;
    if rows::fit_rows(
        reversion,
        quotes,
        factors,
        downs,
        discounts,
        state_prices,
        sums,
    ) {
        return true;
    }
    clear_front(discounts, needed);
    clear_front(state_prices, all);
    false
}

// Fills the tables and fits: `factors` and `downs` are as long as row n - 1.
fn fit_tables(
    grid: Grid,
    quotes: &[u64],
    factors: &mut [u64],
    downs: &mut [u64],
    discounts: &mut [u64],
    state_prices: &mut [u64],
    sums: &mut [u64],
) -> bool
    requires { QuotesReady grid.reversion grid.spacing grid.widest quotes.now (length discounts.old) (length state_prices.old)
        × (length factors.old ≡ 2 * grid.widest + 1) × (length downs.old ≡ 2 * grid.widest + 1) × (most_nodes ≤ length sums.old) }
    ensures { FitTried grid.reversion (length quotes.now)
        (curve_accepted grid.reversion grid.spacing quotes.now)
        (curve_discount grid.reversion grid.spacing quotes.now) (curve_state_price grid.reversion grid.spacing quotes.now)
        discounts.old state_prices.old discounts.new state_prices.new result }
{
    fill_factors(grid.widest, grid.spacing, factors);
    branches::down_probabilities(grid.reversion, grid.widest, downs).unwrap();
    fit_or_clear(
        grid.reversion,
        quotes,
        factors,
        downs,
        discounts,
        state_prices,
        sums,
    )
}

// The fit of converted quotes once causes 2 to 8 were tested: a node discount may be refused.
pub(crate) fn fit_quotes(
    grid: Grid,
    quotes: &[u64],
    discounts: &mut [u64],
    state_prices: &mut [u64],
) -> Result<(), Refusal>
    requires { QuotesReady grid.reversion grid.spacing grid.widest quotes.now (length discounts.old) (length state_prices.old) }
    ensures number { cause_of result ≡ cond (curve_accepted grid.reversion grid.spacing quotes.now) 0 9 }
    ensures fitted { TreeFitted grid.reversion (length quotes.now)
        (curve_accepted grid.reversion grid.spacing quotes.now)
        (curve_discount grid.reversion grid.spacing quotes.now) (curve_state_price grid.reversion grid.spacing quotes.now)
        discounts.old state_prices.old discounts.new state_prices.new }
{
    let count = 2 * grid.widest + 1;
    let mut factors = [0u64; limits::MOST_NODES];
    let mut downs = [0u64; limits::MOST_NODES];
    let mut sums = [0u64; limits::MOST_NODES];
    if fit_tables(
        grid,
        quotes,
        &mut factors[..count],
        &mut downs[..count],
        discounts,
        state_prices,
        &mut sums,
    ) {
        Ok(())
    } else {
        Err(Refusal::Discount)
    }
}
