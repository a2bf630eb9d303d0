// The way back through two trees, row by row.
ghost use Rattle.std.specs.Prelude.{◌≡◌, ◌+◌, ◌-◌, ◌*◌, ◌<◌, ◌≤◌, length};
ghost use Rattle.arithmetic.specs.Rounding.{one, round_up};
ghost use Rattle.limits.specs.Limits.{most_reversion};
ghost use Rattle.lattice.specs.Shape.{node_count};
ghost use Rattle.lattice.specs.RateTree.{rate_tree};
ghost use Rattle.lent_tree.specs.LentTree.{stored, Accepted};
ghost use Rattle.price_causes.specs.Causes.{most_flow};
ghost use Rattle.pricing_laws.specs.Pricer.{exercise};
ghost use Rattle.pricing_laws.specs.inside.Marks.{marked};
ghost use Rattle.pricing_laws.specs.TreePricer.{greatest_discount, roll_loss};
ghost use Rattle.exercise.specs.Terms.{side};
ghost use Rattle.price_laws.specs.Prices.{flow_at};
ghost use Rattle.pricing.specs.inside.Trees.{Exercisable};
ghost use Rattle.pair_laws.specs.Pair.{Pair, Stands};
ghost use Rattle.pair_laws.specs.PairCauses.{most_pair_steps, AcceptedTrees};
ghost use Rattle.pair_laws.specs.PairPrices.{greatest_of_row, greatest_pair, pair_bound};
ghost use Rattle.pair_laws.specs.inside.Accepted.{roll_of};
ghost use Rattle.pair_laws.specs.inside.Square.{square, LimitedPairs};
ghost use Rattle.pair_laws.specs.inside.States.{AcceptedPair, Tables, Bonds, RolledBond, Options, RolledBoth, BondRow, OptionRow};

use crate::squares;
use crate::squares::SQUARE;
use arithmetic::ONE;
use exercise::Terms;

// The number of steps of two trees, and their reversions.
#[derive(Clone, Copy)]
pub(crate) struct Trees {
    pub(crate) steps: usize,
    pub(crate) rate: u64,
    pub(crate) spread: u64,
}

// The flow of a row; row 0 has none.
fn flow_of(flows: &[u64], row: usize) -> u64
    requires { row ≤ length flows.now }
    ensures { result ≡ flow_at flows.now row }
{
    if row == 0 {
        return 0;
    }
    flows[row - 1]
}

// A row in place of the later one, with a flow added.
fn roll_row(
    trees: Trees,
    row: usize,
    flow: u64,
    rate_downs: &[u64],
    spread_downs: &[u64],
    rates: &[u64],
    spreads: &[u64],
    memory: &mut [u64; SQUARE],
    middle: &mut [u64; SQUARE],
)
    requires { AcceptedTrees trees.steps trees.rate trees.spread rates.now spreads.now
        × Tables trees.steps trees.rate trees.spread rate_downs.now spread_downs.now × (row < trees.steps) × (flow ≤ most_flow)
        × LimitedPairs trees.rate trees.spread (row + 1) memory.old }
    ensures { (k : Pair) → Stands (rate_tree trees.rate) (rate_tree trees.spread) row k → square memory.new k
        ≡ roll_of trees.rate trees.spread rates.now spreads.now row (square memory.old) k + flow }
{
    let rate = lattice::row_shape(trees.rate, trees.steps, row);
    let spread = lattice::row_shape(trees.spread, trees.steps, row);
    squares::roll(
        squares::part(rate_downs, rate.offset, rate.count),
        squares::part(spread_downs, spread.offset, spread.count),
        rate.next,
        spread.next,
        squares::part(rates, rate.start, rate.count),
        squares::part(spreads, spread.start, spread.count),
        flow,
        memory,
        middle,
    );
}

// The nodes of a row of the rates.
fn lines_of(trees: Trees, row: usize) -> usize
    requires { (trees.rate ≤ most_reversion) × (row ≤ most_pair_steps) }
    ensures { result ≡ node_count trees.rate row }
{
    lattice::node_count(trees.rate, row).unwrap() as usize
}

// The greatest value of a row.
fn greatest_of_row(trees: Trees, row: usize, memory: &[u64; SQUARE]) -> u64
    requires { (trees.rate ≤ most_reversion) × (trees.spread ≤ most_reversion) × (row ≤ most_pair_steps) }
    ensures { result ≡ greatest_pair trees.rate trees.spread row (square memory.now) }
{
    let lines = lattice::node_count(trees.rate, row).unwrap() as usize;
    let width = lattice::node_count(trees.spread, row).unwrap() as usize;
    squares::greatest_value(lines, width, memory)
}

// A row of the bond in place of the later one, with its flow. Gives its greatest value.
fn bond_row(
    trees: Trees,
    row: usize,
    flow: u64,
    rate_downs: &[u64],
    spread_downs: &[u64],
    rates: &[u64],
    spreads: &[u64],
    bond: &mut [u64; SQUARE],
    middle: &mut [u64; SQUARE],
) -> u64
    requires { AcceptedTrees trees.steps trees.rate trees.spread rates.now spreads.now
        × Tables trees.steps trees.rate trees.spread rate_downs.now spread_downs.now × (row < trees.steps) × (flow ≤ most_flow)
        × LimitedPairs trees.rate trees.spread (row + 1) bond.old }
    ensures { BondRow trees.rate trees.spread rates.now spreads.now row flow bond.old bond.new result }
{
    roll_row(
        trees,
        row,
        flow,
        rate_downs,
        spread_downs,
        rates,
        spreads,
        bond,
        middle,
    );
    greatest_of_row(trees, row, bond)
}

// The bond rolled back to row `last`. 12 where a value on the way is above 8 × one.
pub(crate) fn roll_bond(
    trees: Trees,
    last: usize,
    rate_downs: &[u64],
    spread_downs: &[u64],
    rates: &[u64],
    spreads: &[u64],
    flows: &[u64],
    bond: &mut [u64; SQUARE],
    middle: &mut [u64; SQUARE],
) -> u64
    requires { AcceptedPair trees.steps trees.rate trees.spread rates.now spreads.now flows.now
        × Tables trees.steps trees.rate trees.spread rate_downs.now spread_downs.now × (last ≤ trees.steps) }
    ensures { RolledBond trees.steps trees.rate trees.spread rates.now spreads.now flows.now last result
        bond.new }
{
    bond.fill(flow_of(flows, trees.steps));
    for row in (last..trees.steps).rev() {
        let flow = flow_of(flows, row);
        let top = bond_row(
            trees,
            row,
            flow,
            rate_downs,
            spread_downs,
            rates,
            spreads,
            bond,
            middle,
        );
        if limits::VALUE_LIMIT < top {
            return 12;
        }
    }
    0
}

// A row of the option in place of the later one, beside the bond's row with its flow. Gives its greatest value.
fn option_row(
    trees: Trees,
    terms: Terms,
    row: usize,
    flow: u64,
    listed: bool,
    rate_downs: &[u64],
    spread_downs: &[u64],
    rates: &[u64],
    spreads: &[u64],
    bond: &[u64; SQUARE],
    option: &mut [u64; SQUARE],
    middle: &mut [u64; SQUARE],
) -> u64
    requires { AcceptedTrees trees.steps trees.rate trees.spread rates.now spreads.now
        × Tables trees.steps trees.rate trees.spread rate_downs.now spread_downs.now × (row < trees.steps)
        × LimitedPairs trees.rate trees.spread (row + 1) option.old }
    ensures { OptionRow trees.rate trees.spread rates.now spreads.now row flow (side terms.call) terms.strike
        listed bond.now option.old option.new result }
{
    roll_row(
        trees,
        row,
        0,
        rate_downs,
        spread_downs,
        rates,
        spreads,
        option,
        middle,
    );
    squares::exercise_square(
        lines_of(trees, row),
        listed,
        terms.call,
        terms.strike,
        flow,
        bond,
        option,
    );
    greatest_of_row(trees, row, option)
}

// The exercise values of a row of the bond, which holds the row's flow.
fn expiry_row(
    trees: Trees,
    row: usize,
    terms: Terms,
    flow: u64,
    bond: &[u64; SQUARE],
    option: &mut [u64; SQUARE],
)
    requires { (trees.rate ≤ most_reversion) × (row ≤ most_pair_steps) }
    ensures { (k : Pair) → Stands (rate_tree trees.rate) (rate_tree trees.spread) row k → square option.new k
        ≡ exercise (side terms.call) terms.strike (square bond.now k - flow) }
{
    option.fill(0);
    squares::exercise_square(
        lines_of(trees, row),
        true,
        terms.call,
        terms.strike,
        flow,
        bond,
        option,
    );
}

// Bond and option rolled back together from the option's last row to row 0. 12 where a value on the way is above 8 × one.
fn roll_both(
    trees: Trees,
    terms: Terms,
    marks: &[u8],
    rate_downs: &[u64],
    spread_downs: &[u64],
    rates: &[u64],
    spreads: &[u64],
    flows: &[u64],
    bond: &mut [u64; SQUARE],
    option: &mut [u64; SQUARE],
    middle: &mut [u64; SQUARE],
) -> u64
    requires { AcceptedPair trees.steps trees.rate trees.spread rates.now spreads.now flows.now
        × Tables trees.steps trees.rate trees.spread rate_downs.now spread_downs.now × Exercisable terms trees.steps marks.now
        × Bonds trees.steps trees.rate trees.spread rates.now spreads.now flows.now terms.last bond.old
        × Options trees.steps trees.rate trees.spread rates.now spreads.now flows.now (side terms.call) terms.strike
        (marked terms.last marks.now) terms.last option.old }
    ensures { RolledBoth trees.steps trees.rate trees.spread rates.now spreads.now flows.now
        (side terms.call) terms.strike (marked terms.last marks.now) 0 result bond.new option.new }
{
    for row in (0..terms.last).rev() {
        let flow = flow_of(flows, row);
        let top = bond_row(
            trees,
            row,
            flow,
            rate_downs,
            spread_downs,
            rates,
            spreads,
            bond,
            middle,
        );
        if limits::VALUE_LIMIT < top {
            return 12;
        }
        let above = option_row(
            trees,
            terms,
            row,
            flow,
            marks[row] == 1,
            rate_downs,
            spread_downs,
            rates,
            spreads,
            bond,
            option,
            middle,
        );
        if limits::VALUE_LIMIT < above {
            return 12;
        }
    }
    0
}

// The greatest discount of a row of a tree.
fn greatest_discount(steps: usize, reversion: u64, row: usize, discounts: &[u64]) -> u64
    requires { Accepted steps reversion discounts.now × (row < steps) }
    ensures { result ≡ greatest_discount (rate_tree reversion) (stored reversion discounts.now) row }
{
    let shape = lattice::row_shape(reversion, steps, row);
    let start = shape.start;
    let end = start + shape.count;
    arithmetic::greatest_of(&discounts[start..end])
}

// The error bound of a row from the later one. The greatest discount of a pair is that of the greatest of both rows.
fn bound_step(trees: Trees, row: usize, rates: &[u64], spreads: &[u64], later: u64) -> u64
    requires { AcceptedTrees trees.steps trees.rate trees.spread rates.now spreads.now × (row < trees.steps) × (later ≤ 1000000) }
    ensures { result ≡ round_up (greatest_of_row trees.rate trees.spread rates.now spreads.now row * later) one
        + roll_loss }
{
    let rate = greatest_discount(trees.steps, trees.rate, row, rates);
    let spread = greatest_discount(trees.steps, trees.spread, row, spreads);
    (rate * spread / ONE * later + (ONE - 1)) / ONE + 2
}

// The error bound of row 0.
pub(crate) fn error_bound(trees: Trees, rates: &[u64], spreads: &[u64]) -> u64
    requires { AcceptedTrees trees.steps trees.rate trees.spread rates.now spreads.now }
    ensures { result ≡ pair_bound trees.steps trees.rate trees.spread rates.now spreads.now }
{
    let mut bound: u64 = 0;
    for row in (0..trees.steps).rev() {
        bound = bound_step(trees, row, rates, spreads, bound);
    }
    bound
}

// The bond back to the option's last row, then both together to row 0. 12 where a value on the way is above 8 × one.
pub(crate) fn roll_option(
    trees: Trees,
    terms: Terms,
    marks: &[u8],
    rate_downs: &[u64],
    spread_downs: &[u64],
    rates: &[u64],
    spreads: &[u64],
    flows: &[u64],
    bond: &mut [u64; SQUARE],
    option: &mut [u64; SQUARE],
    middle: &mut [u64; SQUARE],
) -> u64
    requires { AcceptedPair trees.steps trees.rate trees.spread rates.now spreads.now flows.now
        × Tables trees.steps trees.rate trees.spread rate_downs.now spread_downs.now × Exercisable terms trees.steps marks.now }
    ensures { RolledBoth trees.steps trees.rate trees.spread rates.now spreads.now flows.now
        (side terms.call) terms.strike (marked terms.last marks.now) 0 result bond.new option.new }
{
    let last = terms.last;
    let number = roll_bond(
        trees,
        last,
        rate_downs,
        spread_downs,
        rates,
        spreads,
        flows,
        bond,
        middle,
    );
    if number != 0 {
        return number;
    }
    expiry_row(trees, last, terms, flow_of(flows, last), bond, option);
    roll_both(
        trees,
        terms,
        marks,
        rate_downs,
        spread_downs,
        rates,
        spreads,
        flows,
        bond,
        option,
        middle,
    )
}
