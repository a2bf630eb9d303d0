// How far, in sum, the rounded state prices of a row may fall short of the exact ones, from the tree's discounts.
#![tactic(auto)]

ghost use Rattle.std.specs.Prelude.{◌≡◌, ◌+◌, ◌*◌, ◌≤◌, replicate};
ghost use Rattle.arithmetic.specs.Rounding.{one, round_up};
ghost use Rattle.arithmetic.specs.Refusals.{cause_of, answer_of};
ghost use Rattle.limits.specs.Limits.{most_steps, most_discount, most_nodes};
ghost use Rattle.lattice.specs.RateTree.{rate_tree};
ghost use Rattle.lent_tree.specs.LentTree.{stored};
ghost use Rattle.fit_laws.specs.StatePrices.{state_price_error_bound};
ghost use Rattle.state_price_bound.specs.ErrorBound.{
  row_cause,
  state_price_error_bound_answer,
  state_price_error_bounds,
  state_price_error_bounds_answer,
  bounds_of,
};
ghost use Rattle.state_price_bound.specs.inside.Reached.{Bounded, Reached};

use arithmetic::{ONE, Refusal};
use limits::MOST_ROWS;

// Where a row starts in the discounts, how many nodes it has, and its bound.
#[derive(Clone, Copy)]
struct RowReached {
    start: usize,
    nodes: u64,
    bound: u64,
}

// The bound of the next row. No row has more than 121 nodes, and 60 steps keep the bound below a million.
fn next_bound(greatest: u64, bound: u64, nodes: u64, next_nodes: u64) -> u64
    requires { (greatest ≤ most_discount) × (bound ≤ 1000000) × (nodes ≤ most_nodes) × (next_nodes ≤ most_nodes) }
    ensures { result ≡ round_up (greatest * bound) one + nodes + next_nodes }
{
    (greatest * bound + (ONE - 1)) / ONE + nodes + next_nodes
}

// Row 0 has one node, whose state price is exact.
fn first_row() -> RowReached
    ensures { (result.start ≡ 0) × (result.nodes ≡ 1) × (result.bound ≡ 0) }
{
    RowReached {
        start: 0,
        nodes: 1,
        bound: 0,
    }
}

// The row after row `index`.
fn next_row(reversion: u64, discounts: &[u64], index: usize, row: RowReached) -> RowReached
    requires { Bounded reversion discounts.now (index + 1) × Reached reversion discounts.now index row.start row.nodes row.bound }
    ensures { Reached reversion discounts.now (index + 1) result.start result.nodes result.bound }
{
    let start = row.start;
    let nodes = row.nodes;
    let end = start + nodes as usize;
    let greatest = arithmetic::greatest_of(&discounts[start..end]);
    let next = lattice::node_count(reversion, index + 1).unwrap();
    let bound = next_bound(greatest, row.bound, nodes, next);
    RowReached {
        start: end,
        nodes: next,
        bound,
    }
}

fn bound_of_row(reversion: u64, discounts: &[u64], row: usize) -> u64
    requires { Bounded reversion discounts.now row }
    ensures { result ≡ state_price_error_bound (rate_tree reversion) (stored reversion discounts.now) row }
{
    let mut reached = first_row();
    for index in 0..row {
        reached = next_row(reversion, discounts, index, reached);
    }
    reached.bound
}

// Zeros, made apart so that no proof above sees them one by one.
fn no_bounds() -> [u64; MOST_ROWS]
    ensures { result ≡ replicate (most_steps + 1) 0 }
{
    [0u64; MOST_ROWS]
}

fn bounds_of_rows(steps: usize, reversion: u64, discounts: &[u64]) -> [u64; MOST_ROWS]
    requires { Bounded reversion discounts.now steps }
    ensures { result ≡ state_price_error_bounds steps reversion discounts.now }
{
    let mut bounds = no_bounds();
    let mut reached = first_row();
    for index in 0..steps {
        reached = next_row(reversion, discounts, index, reached);
        bounds[index + 1] = reached.bound;
    }
    bounds
}

// Whether the tree has the row.
fn row_cause(steps: usize, row: usize) -> Result<(), Refusal>
    ensures { cause_of result ≡ row_cause steps row }
{
    if steps < row {
        Err(Refusal::LengthOrRow)
    } else {
        Ok(())
    }
}

// The state-price error bound of a row of the tree whose discounts are lent.
pub fn state_price_error_bound(
    steps: usize,
    reversion: u64,
    discounts: &[u64],
    row: usize,
) -> Result<u64, Refusal>
    ensures { answer_of result ≡ state_price_error_bound_answer steps reversion discounts.now row }
{
    arithmetic::lowest_refusal(
        lent_tree::discounts_cause(steps, reversion, discounts),
        row_cause(steps, row),
    )?;
    Ok(bound_of_row(reversion, discounts, row))
}

// The state-price error bounds of rows 0 to n, whose discounts are judged once; 0 for rows that the tree has not.
pub fn state_price_error_bounds(
    steps: usize,
    reversion: u64,
    discounts: &[u64],
) -> Result<[u64; MOST_ROWS], Refusal>
    ensures { bounds_of result ≡ state_price_error_bounds_answer steps reversion discounts.now }
{
    lent_tree::discounts_cause(steps, reversion, discounts)?;
    Ok(bounds_of_rows(steps, reversion, discounts))
}
