// How far the prices on a tree may be from the exact ones, and the greatest discounts of its rows, from its lent discounts.
#![tactic(auto)]

ghost use Rattle.std.specs.Prelude.{◌≡◌, true, false, ◌<◌, length, replicate, MatchOption};
ghost use Rattle.limits.specs.Limits.{most_steps, is_discount};
ghost use Rattle.lattice.specs.RateTree.{rate_tree};
ghost use Rattle.lent_tree.specs.LentTree.{stored, accepted_discounts};
ghost use Rattle.lent_tree.specs.inside.Lent.{Lent};
ghost use Rattle.arithmetic.specs.Refusals.{answer_of};
ghost use Rattle.arithmetic.specs.Row.{values, each};
ghost use Rattle.arithmetic.specs.Sum.{greatest};
ghost use Rattle.pricing_laws.specs.Pricer.{error_bound};
ghost use Rattle.pricing_laws.specs.TreePricer.{greatest_discount, roll_loss};
ghost use Rattle.price_bound.specs.PriceBound.{price_error_bound_answer, greatest_discounts, tree_bounds_of, tree_bounds_answer};
ghost use Rattle.price_bound.specs.inside.Rows.{row_accepted, RowsBounded};

use arithmetic::{ONE, Refusal};
use limits::MOST_STEPS;

// What is known of a tree: its error bound, and the greatest discount of each row, 0 for rows that the tree has not.
#[derive(Clone, Copy)]
pub struct TreeBounds {
    pub bound: u64,
    pub greatest: [u64; MOST_STEPS],
}

// What is known of a tree: its error bound, and the greatest discount of each row, 0 for rows that the tree has not; a refusal's number with zeros.
#[repr(C)]
#[derive(Drop)]
pub struct TreeErrorBounds {
    pub number: u64,
    pub bound: u64,
    pub greatest: [u64; MOST_STEPS],
}

impl From<Result<TreeBounds, Refusal>> for TreeErrorBounds {
    ghost from_gives = { λ outcome bounds. bounds ≡ tree_bounds_of outcome };

    fn from(outcome: Result<TreeBounds, Refusal>) -> TreeErrorBounds {
        match outcome {
            Ok(known) => {
                let greatest = known.greatest;
                TreeErrorBounds {
                    number: 0,
                    bound: known.bound,
                    greatest,
                }
            }
            Err(refusal) => {
                let none = no_rows();
                TreeErrorBounds {
                    number: refusal.number(),
                    bound: 0,
                    greatest: none,
                }
            }
        }
    }
}

// The greatest of these discounts, or none where one is not accepted. One pass: the least discount and the greatest decide.
fn range_of(discounts: &[u64]) -> Option<u64>
    ensures { MatchOption result (each (length discounts.now) (λ k. is_discount (values discounts.now k)) ≡ false)
        (λ top. (each (length discounts.now) (λ k. is_discount (values discounts.now k)) ≡ true)
        × (top ≡ greatest (length discounts.now) (values discounts.now))) }
{
    let mut top: u64 = 0;
    for discount in discounts {
        if *discount < 1 {
            return None;
        }
        top = arithmetic::larger(top, *discount);
    }
    if limits::MOST_DISCOUNT < top {
        return None;
    }
    Some(top)
}

// The same of a row.
fn row_range(steps: usize, reversion: u64, row: usize, discounts: &[u64]) -> Option<u64>
    requires { Lent steps reversion discounts.now × (row < steps) }
    ensures { MatchOption result (row_accepted reversion discounts.now row ≡ false) (λ top. (row_accepted reversion discounts.now row ≡ true)
        × (top ≡ greatest_discount (rate_tree reversion) (stored reversion discounts.now) row)) }
{
    let shape = lattice::row_shape(reversion, steps, row);
    let start = shape.start;
    let end = start + shape.count;
    range_of(&discounts[start..end])
}

// Zeros, made apart so that no proof above sees them one by one.
fn no_rows() -> [u64; MOST_STEPS]
    ensures { result ≡ replicate most_steps 0 }
{
    [0; MOST_STEPS]
}

// The greatest discount of each row, or none where a discount is not accepted.
fn tree_range(steps: usize, reversion: u64, discounts: &[u64]) -> Option<[u64; MOST_STEPS]>
    requires { Lent steps reversion discounts.now }
    ensures { MatchOption result (accepted_discounts steps reversion discounts.now ≡ false)
        (λ rows. (accepted_discounts steps reversion discounts.now ≡ true) × (rows ≡ greatest_discounts steps reversion discounts.now)) }
{
    let mut rows = no_rows();
    for row in 0..steps {
        rows[row] = row_range(steps, reversion, row, discounts)?;
    }
    Some(rows)
}

// The error bound of row 0, from the greatest discounts of the rows.
fn error_bound(steps: usize, rows: [u64; MOST_STEPS]) -> u64
    requires { RowsBounded steps rows }
    ensures { result ≡ error_bound roll_loss (values rows) steps 0 }
{
    let mut bound: u64 = 0;
    for row in (0..steps).rev() {
        bound = (rows[row] * bound + (ONE - 1)) / ONE + 2;
    }
    bound
}

// The error bound of bonds and options on the tree whose discounts are lent, and the greatest discounts of its rows; 3, 4, 6 or 9 where the tree
// is refused. The discounts are judged in the pass that looks for the greatest.
pub fn tree_bounds(steps: usize, reversion: u64, discounts: &[u64]) -> Result<TreeBounds, Refusal>
    ensures { tree_bounds_of result ≡ tree_bounds_answer steps reversion discounts.now }
{
    lent_tree::room_cause(steps, reversion, discounts)?;
    let Some(greatest) = tree_range(steps, reversion, discounts) else {
        return Err(Refusal::Discount);
    };
    Ok(TreeBounds {
        bound: error_bound(steps, greatest),
        greatest,
    })
}

// The error bound alone.
pub fn price_error_bound(steps: usize, reversion: u64, discounts: &[u64]) -> Result<u64, Refusal>
    ensures { answer_of result ≡ price_error_bound_answer steps reversion discounts.now }
{
    let known = tree_bounds(steps, reversion, discounts)?;
    Ok(known.bound)
}
