// The factor of a node: the exponential series to its twelfth term, each term rounded down.
#![tactic(auto)]

ghost use Rattle.std.specs.Prelude.{◌≡◌, ◌+◌, ◌*◌, ◌≤◌, ◌<◌, min};
ghost use Rattle.arithmetic.specs.Refusals.{answer_of};
ghost use Rattle.arithmetic.specs.Rounding.{one, round_down};
ghost use Rattle.arithmetic.specs.Sum.{sum};
ghost use Rattle.factor.specs.Series.{term, even, odd};
ghost use Rattle.factor.specs.Factor.{side_answer, sides_answer, node_answer};

use arithmetic::{ONE, Refusal};

fn next_term(last: u64, y: u64, divisor: u64) -> u64
    requires { (last ≤ one) × (y ≤ one) × (0 < divisor) }
    ensures { result ≡ round_down (last * y) divisor }
{
    last * y / divisor
}

// The sums of the terms of even place and of odd place.
#[derive(Drop)]
struct Sums {
    even: u64,
    odd: u64,
}

fn series_sums(y: u64) -> Sums
    requires { y ≤ one }
    ensures { (result.even ≡ sum 7 (even (term y))) × (result.odd ≡ sum 6 (odd (term y))) }
{
    let mut last = ONE;
    let mut even = ONE;
    let mut odd: u64 = 0;
    for pair in 0..6u64 {
        let next = next_term(last, y, (2 * pair + 1) * ONE);
        last = next_term(next, y, (2 * pair + 2) * ONE);
        odd += next;
        even += last;
    }
    Sums { even, odd }
}

// The product where it is at most one, else one more than that: the product itself may not fit, that of the two numbers so bounded does. A product
// that saturates would need a function from outside on processors without a wide product.
fn bounded_product(distance: u64, spacing: u64) -> u64
    ensures { result ≡ min (distance * spacing) (one + 1) }
{
    (distance.min(ONE + 1) * spacing.min(ONE + 1)).min(ONE + 1)
}

// The factors of the two nodes at a distance from the middle one.
#[derive(Clone, Copy, Debug, PartialEq, Eq)]
pub struct Sides {
    pub below: u64,
    pub above: u64,
}

// The factors at a distance, below the middle node and above it, from one series.
pub fn both_sides(distance: u64, spacing: u64) -> Result<Sides, Refusal>
    ensures { result ≡ sides_answer distance spacing }
{
    let y = bounded_product(distance, spacing);
    if ONE < y {
        return Err(Refusal::Spacing);
    }
    let sums = series_sums(y);
    Ok(Sides {
        below: sums.even + sums.odd,
        above: sums.even - sums.odd,
    })
}

// The factor of the node at a distance from the middle one, below it or not.
pub fn factor(distance: u64, below: bool, spacing: u64) -> Result<u64, Refusal>
    ensures { answer_of result ≡ side_answer distance below spacing }
{
    let sides = both_sides(distance, spacing)?;
    if below {
        return Ok(sides.below);
    }
    Ok(sides.above)
}

// The factor of a node by its signed number.
pub fn factor_of_node(node: i64, spacing: u64) -> Result<u64, Refusal>
    ensures { answer_of result ≡ node_answer node spacing }
{
    if node < 0 {
        // The lowest number has no opposite: its size less one is taken first.
        let nearer = -1 - node;
        return factor(nearer as u64 + 1, true, spacing);
    }
    factor(node as u64, false, spacing)
}
