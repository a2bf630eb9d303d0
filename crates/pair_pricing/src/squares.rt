// Squares of values: a line of 41 places for each node of the rate side.
ghost use Rattle.std.specs.Prelude.{◌≡◌, ◌+◌, ◌*◌, ◌/◌, ◌≤◌, ◌<◌, length, take, drop};
ghost use Rattle.arithmetic.specs.Rounding.{one};
ghost use Rattle.arithmetic.specs.Row.{values};
ghost use Rattle.arithmetic.specs.Sum.{greatest};
ghost use Rattle.tree.specs.Tree.{probability_total};
ghost use Rattle.limits.specs.Limits.{most_discount, value_limit};
ghost use Rattle.price_causes.specs.Causes.{most_flow};
ghost use Rattle.pricing_laws.specs.TreePricer.{roll_rounding};
ghost use Rattle.row_branches.specs.RowBranches.{row_branch};
ghost use Rattle.row_branches.specs.inside.Transitions.{branch_up, branch_middle, branch_down, branch_total};
ghost use Rattle.pricing.specs.inside.Rows.{Holds};
ghost use Rattle.pair_laws.specs.inside.Square.{
  line_size,
  square_size,
  cell,
  AtMost,
  Cells,
  Most,
  Line,
  Column,
  Branched,
  RollablePair,
  branch_average,
  rate_average,
  spread_value,
  rolled_cell,
  exercised,
};

use arithmetic::ONE;
use row_branches::RowBranch;
use tree::PROBABILITY_TOTAL;

// The places of a line and of a square: 41 lines of 41 places.
const LINE: usize = 41;

pub(crate) const SQUARE: usize = 1681;

// A square's memory.
pub(crate) fn empty_square() -> [u64; SQUARE]
    ensures { length result ≡ square_size }
{
    [0; SQUARE]
}

// A part of a memory.
pub(crate) fn part(memory: &[u64], start: usize, count: usize) -> &[u64]
    requires { start + count ≤ length memory.now }
    ensures { result.now ≡ take count (drop start memory.now) }
{
    let end = start + count;
    &memory[start..end]
}

// Three places of a square, one stride apart, by the probabilities of a branch; divided by their whole, nearest.
fn average(branch: RowBranch, xs: &[u64], from: usize, stride: usize) -> u64
    requires { (branch_total branch ≡ probability_total) × (from + 2 * stride < length xs.now) × (values xs.now from ≤ value_limit)
        × (values xs.now (from + stride) ≤ value_limit) × (values xs.now (from + 2 * stride) ≤ value_limit) }
    ensures { (result ≡ roll_rounding (branch_up branch * values xs.now (from + 2 * stride)
        + branch_middle branch * values xs.now (from + stride) + branch_down branch * values xs.now from) probability_total)
        × (result ≤ value_limit) }
{
    let probabilities = branch.probabilities;
    let sum = probabilities[0] * xs[from + 2 * stride]
        + probabilities[1] * xs[from + stride]
        + probabilities[2] * xs[from];
    (sum + PROBABILITY_TOTAL / 2) / PROBABILITY_TOTAL
}

// A value times the product of two discounts over one, down; over one, nearest. It takes all 64 bits.
fn discounted(value: u64, rate: u64, spread: u64) -> u64
    requires { (value ≤ value_limit) × (rate ≤ most_discount) × (spread ≤ most_discount) }
    ensures { (result ≡ roll_rounding (value * (rate * spread / one)) one) × (result ≤ 9680000000) }
{
    (value * (rate * spread / ONE) + ONE / 2) / ONE
}

// Along the rate side at one node of the rates, over every column of the later square.
fn rate_line(branch: RowBranch, line: usize, width: usize, later: &[u64], middle: &mut [u64])
    requires { (branch_total branch ≡ probability_total) × (branch.low + 2 < line_size) × (line < line_size) × (width ≤ line_size)
        × Most value_limit (branch.low + 3) width later.now × (length later.now ≡ square_size) × (length middle.old ≡ square_size) }
    ensures { (length middle.new ≡ square_size) × Line line (λ l. branch_average branch (λ a. cell later.now a l))
        middle.old middle.new width }
{
    let from = LINE * branch.low;
    for l in 0..width {
        middle[LINE * line + l] = average(branch, later, from + l, LINE);
    }
}

// Along the rate side at every node of the rates.
fn rate_side(downs: &[u64], next: usize, width: usize, later: &[u64], middle: &mut [u64])
    requires { Branched downs.now next × (length downs.now ≤ line_size) × (next ≤ line_size) × (width ≤ line_size)
        × Most value_limit next width later.now × (length later.now ≡ square_size) × (length middle.old ≡ square_size) }
    ensures { (length middle.new ≡ square_size) × Cells (rate_average downs.now next later.now)
        (length downs.now) width middle.new }
{
    for j in 0..downs.len() {
        let branch = row_branches::row_branch(downs, next, j);
        rate_line(branch, j, width, later, middle);
    }
}

// Along the spread side at one node of the spreads, over every line, discounted, with a flow added.
fn spread_column(
    branch: RowBranch,
    column: usize,
    middle: &[u64],
    rates: &[u64],
    spread: u64,
    flow: u64,
    square: &mut [u64],
)
    requires { (branch_total branch ≡ probability_total) × (branch.low + 2 < line_size) × (column < line_size) × (length rates.now ≤ line_size)
        × AtMost most_discount rates.now (length rates.now) × (spread ≤ most_discount) × (flow ≤ most_flow)
        × Most value_limit (length rates.now) (branch.low + 3) middle.now × (length middle.now ≡ square_size)
        × (length square.old ≡ square_size) }
    ensures { (length square.new ≡ square_size)
        × Column column (λ a. spread_value branch (values rates.now a) spread (cell middle.now a) + flow)
        square.old square.new (length rates.now) }
{
    let low = branch.low;
    for (a, rate) in rates.iter().enumerate() {
        let value = average(branch, middle, LINE * a + low, 1);
        square[LINE * a + column] = discounted(value, *rate, spread) + flow;
    }
}

// Along the spread side at every node of the spreads.
fn spread_side(
    downs: &[u64],
    next: usize,
    middle: &[u64],
    rates: &[u64],
    spreads: &[u64],
    flow: u64,
    square: &mut [u64],
)
    requires { Branched downs.now next × (length spreads.now ≡ length downs.now) × (length downs.now ≤ line_size) × (next ≤ line_size)
        × (length rates.now ≤ line_size) × AtMost most_discount rates.now (length rates.now)
        × AtMost most_discount spreads.now (length spreads.now) × (flow ≤ most_flow) × Most value_limit (length rates.now) next middle.now
        × (length middle.now ≡ square_size) × (length square.old ≡ square_size) }
    ensures { (length square.new ≡ square_size)
        × Cells (λ a l. spread_value (row_branch downs.now next l) (values rates.now a) (values spreads.now l)
        (cell middle.now a) + flow) (length rates.now) (length spreads.now) square.new }
{
    for (l, spread) in spreads.iter().enumerate() {
        let branch = row_branches::row_branch(downs, next, l);
        spread_column(branch, l, middle, rates, *spread, flow, square);
    }
}

// A row in place of the later one: along the rate side, along the spread side, discounted, with a flow added.
pub(crate) fn roll(
    rate_downs: &[u64],
    spread_downs: &[u64],
    rate_next: usize,
    spread_next: usize,
    rates: &[u64],
    spreads: &[u64],
    flow: u64,
    square: &mut [u64],
    middle: &mut [u64],
)
    requires { RollablePair (record {
      rate_downs = rate_downs.now;
      spread_downs = spread_downs.now;
      rate_next = rate_next;
      spread_next = spread_next;
      rates = rates.now;
      spreads = spreads.now;
    }) flow × Most value_limit rate_next spread_next square.old
        × (length square.old ≡ square_size) × (length middle.old ≡ square_size) }
    ensures { Cells (λ a l. rolled_cell (record {
      rate_downs = rate_downs.now;
      spread_downs = spread_downs.now;
      rate_next = rate_next;
      spread_next = spread_next;
      rates = rates.now;
      spreads = spreads.now;
    }) square.old a l
        + flow) (length rates.now) (length spreads.now) square.new }
{
    rate_side(rate_downs, rate_next, spread_next, square, middle);
    spread_side(
        spread_downs,
        spread_next,
        middle,
        rates,
        spreads,
        flow,
        square,
    );
}

// The greatest value of the first places of the first lines.
pub(crate) fn greatest_value(lines: usize, width: usize, square: &[u64]) -> u64
    requires { (lines ≤ line_size) × (width ≤ line_size) × (length square.now ≡ square_size) }
    ensures { result ≡ greatest lines (λ a. greatest width (λ l. cell square.now a l)) }
{
    let mut best: u64 = 0;
    for a in 0..lines {
        let line = arithmetic::greatest_of(part(square, LINE * a, width));
        best = arithmetic::larger(best, line);
    }
    best
}

// On a listed row, in the first lines: the larger of the rolled value and the exercise value on the bond, which holds the row's flow.
pub(crate) fn exercise_square(
    lines: usize,
    listed: bool,
    call: bool,
    strike: u64,
    flow: u64,
    bonds: &[u64],
    square: &mut [u64],
)
    requires { (lines ≤ line_size) × (length bonds.now ≡ square_size) × (length square.old ≡ square_size) }
    ensures { Holds square.new (line_size * lines)
        (λ k. exercised listed call strike flow (values square.old k) (values bonds.now k)) }
{
    if !listed {
        return;
    }
    for k in 0..LINE * lines {
        let now = exercise::expiry_value(call, strike, bonds[k], flow);
        square[k] = arithmetic::larger(square[k], now);
    }
}
