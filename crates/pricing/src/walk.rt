// The way back through the tree, row by row.
ghost use Rattle.std.specs.Prelude.{◌≡◌, ◌+◌, ◌-◌, ◌<◌, ◌≤◌, [], length, take, drop, MatchOption};
ghost use Rattle.arithmetic.specs.Row.{values};
ghost use Rattle.arithmetic.specs.Answers.{refused, answered};
ghost use Rattle.lattice.specs.Shape.{node_count, row_start};
ghost use Rattle.pricing_laws.specs.Pricer.{exercise};
ghost use Rattle.pricing_laws.specs.inside.Marks.{marked};
ghost use Rattle.exercise.specs.Terms.{side};
ghost use Rattle.price_laws.specs.Prices.{flow_at};
ghost use Rattle.pricing.specs.inside.Rows.{Limited, Holds, FilledRow, FilledRows};
ghost use Rattle.pricing.specs.inside.Trees.{
  Ready,
  Exercisable,
  Steppable,
  option_step_at,
  bond_step,
  option_step,
  BondRolled,
  BothRolled,
};
ghost use Rattle.limits.specs.Limits.{most_steps, most_reversion, most_discounts};
ghost use Rattle.pricing.specs.inside.Strips.{Laid, BondKept, strike_step, beside_bond};

use crate::rows;
use crate::rows::RowRight;
use arithmetic::Answer;
use exercise::Terms;
use limits::MOST_NODES;
use std::mem;

// A tree's number of steps and its reversion.
#[derive(Clone, Copy)]
pub(crate) struct TreeShape {
    pub(crate) steps: usize,
    pub(crate) reversion: u64,
}

// A row of a tree with its flow, and an option's right on it.
#[derive(Drop)]
struct OptionStep {
    steps: usize,
    reversion: u64,
    row: usize,
    flow: u64,
    call: bool,
    strike: u64,
    listed: bool,
}

// Bond and option at row 0; a refusal's number with zeros.
#[derive(Drop)]
pub(crate) struct Rolled {
    pub(crate) number: u64,
    pub(crate) bond: u64,
    pub(crate) option: u64,
}

// The flow of a row; row 0 has none.
fn flow_of(flows: &[u64], row: usize) -> u64
    requires { row ≤ length flows.now }
    ensures { result ≡ flow_at flows.now row }
{
    if row == 0 {
        return 0;
    }
    flows[row - 1]
}

// A part of a memory.
fn part(memory: &[u64], start: usize, count: usize) -> &[u64]
    requires { start + count ≤ length memory.now }
    ensures { result.now ≡ take count (drop start memory.now) }
{
    let end = start + count;
    &memory[start..end]
}

fn option_step_at(
    tree: TreeShape,
    flows: &[u64],
    terms: Terms,
    marks: &[u8],
    row: usize,
) -> OptionStep
    requires { (row ≤ length flows.now) × (row < length marks.now) }
    ensures { result ≡ option_step_at tree.steps tree.reversion flows.now terms marks.now row }
{
    OptionStep {
        steps: tree.steps,
        reversion: tree.reversion,
        row,
        flow: flow_of(flows, row),
        call: terms.call,
        strike: terms.strike,
        listed: marks[row] == 1,
    }
}

// The bond one row back, with the row's flow. Gives the row's greatest value.
fn bond_step(
    tree: TreeShape,
    row: usize,
    flow: u64,
    downs: &[u64],
    discounts: &[u64],
    later: &[u64; MOST_NODES],
    bond: &mut [u64; MOST_NODES],
) -> u64
    requires { Steppable tree.steps tree.reversion row flow downs.now discounts.now
        × Limited later.now (node_count tree.reversion (row + 1)) }
    ensures { FilledRow bond.new (node_count tree.reversion row)
        (bond_step tree.reversion discounts.now flow row later.now) result }
{
    let shape = lattice::row_shape(tree.reversion, tree.steps, row);
    rows::bond_row(
        bond,
        later,
        part(downs, shape.offset, shape.count),
        part(discounts, shape.start, shape.count),
        shape.next,
        flow,
    )
}

// Bond and option one row back. Gives the greatest value of both. Compiled in place in the walk it would be slower.
#[inline(never)]
fn option_step(
    right: OptionStep,
    downs: &[u64],
    discounts: &[u64],
    bonds: &[u64; MOST_NODES],
    options: &[u64; MOST_NODES],
    bond: &mut [u64; MOST_NODES],
    option: &mut [u64; MOST_NODES],
) -> u64
    requires { Steppable right.steps right.reversion right.row right.flow downs.now discounts.now
        × Limited bonds.now (node_count right.reversion (right.row + 1))
        × Limited options.now (node_count right.reversion (right.row + 1)) }
    ensures { FilledRows bond.new option.new (node_count right.reversion right.row)
        (bond_step right.reversion discounts.now right.flow right.row bonds.now)
        (option_step (side right.call) right.strike right.listed right.reversion
        discounts.now right.row bonds.now options.now) result }
{
    let shape = lattice::row_shape(right.reversion, right.steps, right.row);
    let row = RowRight {
        next: shape.next,
        flow: right.flow,
        call: right.call,
        strike: right.strike,
        listed: right.listed,
    };
    rows::option_row(
        row,
        part(downs, shape.offset, shape.count),
        part(discounts, shape.start, shape.count),
        bonds,
        options,
        bond,
        option,
    )
}

// The bond from row n back to row `last`, in one of two rows of memory; none where a value is above 8 × one.
pub(crate) fn roll_bond<'a>(
    tree: TreeShape,
    last: usize,
    downs: &[u64],
    discounts: &[u64],
    flows: &[u64],
    first: &'a mut [u64; MOST_NODES],
    second: &'a mut [u64; MOST_NODES],
) -> Option<&'a mut [u64; MOST_NODES]>
    requires { Ready tree.steps tree.reversion downs.now discounts.now flows.now × (last ≤ tree.steps) }
    ensures { MatchOption result (BondRolled tree.steps tree.reversion discounts.now flows.now last 12 [])
        (λ bond. BondRolled tree.steps tree.reversion discounts.now flows.now last 0 bond.now) }
{
    let mut later = first;
    let mut bond = second;
    later.fill(flow_of(flows, tree.steps));
    for row in (last..tree.steps).rev() {
        let flow = flow_of(flows, row);
        if limits::VALUE_LIMIT < bond_step(tree, row, flow, downs, discounts, later, bond) {
            return None;
        }
        mem::swap(&mut later, &mut bond);
    }
    Some(later)
}

fn at_root(bond: &[u64; MOST_NODES], option: &[u64; MOST_NODES]) -> Rolled
    ensures { result ≡ record { number = 0; bond = values bond.now 0; option = values option.now 0 } }
{
    Rolled {
        number: 0,
        bond: bond[0],
        option: option[0],
    }
}

fn over() -> Rolled
    ensures { result ≡ record { number = 12; bond = 0; option = 0 } }
{
    Rolled {
        number: 12,
        bond: 0,
        option: 0,
    }
}

// The option on its last row, beside the bond: the exercise values.
fn exercise_step(
    reversion: u64,
    terms: Terms,
    flows: &[u64],
    bond: &[u64; MOST_NODES],
    option: &mut [u64; MOST_NODES],
)
    requires { (reversion ≤ most_reversion) × (terms.last ≤ most_steps) × (terms.last ≤ length flows.now) }
    ensures { Holds option.new (node_count reversion terms.last)
        (λ k. exercise (side terms.call) terms.strike (values bond.now k - flow_at flows.now terms.last)) }
{
    let count = lattice::node_count(reversion, terms.last).unwrap() as usize;
    rows::exercise_row(terms, flow_of(flows, terms.last), count, bond, option);
}

// The option from its last row back to row 0, and the bond with it. 12 where a value on the way is above 8 × one.
fn roll_option(
    tree: TreeShape,
    terms: Terms,
    marks: &[u8],
    downs: &[u64],
    discounts: &[u64],
    flows: &[u64],
    bond: &mut [u64; MOST_NODES],
) -> Rolled
    requires { Ready tree.steps tree.reversion downs.now discounts.now flows.now × Exercisable terms tree.steps marks.now
        × BondRolled tree.steps tree.reversion discounts.now flows.now terms.last 0 bond.old }
    ensures { BothRolled tree.steps tree.reversion discounts.now flows.now (side terms.call) terms.strike
        (marked terms.last marks.now) result }
{
    let mut first = rows::empty_row();
    let mut second = rows::empty_row();
    let mut third = rows::empty_row();
    let mut bonds = bond;
    let mut options = &mut first;
    let mut bond = &mut second;
    let mut option = &mut third;
    exercise_step(tree.reversion, terms, flows, bonds, options);
    for row in (0..terms.last).rev() {
        let right = option_step_at(tree, flows, terms, marks, row);
        let greatest = option_step(right, downs, discounts, bonds, options, bond, option);
        if limits::VALUE_LIMIT < greatest {
            return over();
        }
        mem::swap(&mut bonds, &mut bond);
        mem::swap(&mut options, &mut option);
    }
    at_root(bonds, options)
}

// The bond back to the option's last row, then both together: one pass over the tree.
pub(crate) fn roll_both(
    tree: TreeShape,
    terms: Terms,
    marks: &[u8],
    downs: &[u64],
    discounts: &[u64],
    flows: &[u64],
) -> Rolled
    requires { Ready tree.steps tree.reversion downs.now discounts.now flows.now × Exercisable terms tree.steps marks.now }
    ensures { BothRolled tree.steps tree.reversion discounts.now flows.now (side terms.call) terms.strike
        (marked terms.last marks.now) result }
{
    let mut first = rows::empty_row();
    let mut second = rows::empty_row();
    match roll_bond(
        tree,
        terms.last,
        downs,
        discounts,
        flows,
        &mut first,
        &mut second,
    ) {
        Some(bond) => roll_option(tree, terms, marks, downs, discounts, flows, bond),
        None => over(),
    }
}

// As `bond_step`, and keeps the row without its flow.
fn keep_step(
    tree: TreeShape,
    row: usize,
    flow: u64,
    downs: &[u64],
    discounts: &[u64],
    later: &[u64; MOST_NODES],
    bond: &mut [u64; MOST_NODES],
    kept: &mut [u64],
) -> u64
    requires { Steppable tree.steps tree.reversion row flow downs.now discounts.now
        × Limited later.now (node_count tree.reversion (row + 1)) × (most_discounts ≤ length kept.old) }
    ensures rolled { FilledRow bond.new (node_count tree.reversion row)
        (bond_step tree.reversion discounts.now flow row later.now) result }
    ensures laid { Laid kept.old kept.new (row_start tree.reversion row) (node_count tree.reversion row)
        (λ k. values bond.new k - flow) }
{
    let shape = lattice::row_shape(tree.reversion, tree.steps, row);
    let greatest = rows::bond_row(
        bond,
        later,
        part(downs, shape.offset, shape.count),
        part(discounts, shape.start, shape.count),
        shape.next,
        flow,
    );
    rows::keep_row(bond, flow, kept, shape.start, shape.count);
    greatest
}

// The bond from row n back to row 0, each row before n kept without its flow. 12 where a value is above 8 × one.
pub(crate) fn keep_bond(
    tree: TreeShape,
    downs: &[u64],
    discounts: &[u64],
    flows: &[u64],
    kept: &mut [u64],
) -> u64
    requires { Ready tree.steps tree.reversion downs.now discounts.now flows.now × (most_discounts ≤ length kept.old) }
    ensures { BondKept tree.steps tree.reversion discounts.now flows.now result kept.new }
{
    let mut first = rows::empty_row();
    let mut second = rows::empty_row();
    let mut later = &mut first;
    let mut bond = &mut second;
    later.fill(flow_of(flows, tree.steps));
    for row in (0..tree.steps).rev() {
        let flow = flow_of(flows, row);
        let greatest = keep_step(tree, row, flow, downs, discounts, later, bond, kept);
        if limits::VALUE_LIMIT < greatest {
            return 12;
        }
        mem::swap(&mut later, &mut bond);
    }
    0
}

// One option a row back, beside the kept rows of the bond. Gives the row's greatest value.
fn strike_step(
    right: OptionStep,
    downs: &[u64],
    discounts: &[u64],
    kept: &[u64],
    options: &[u64; MOST_NODES],
    option: &mut [u64; MOST_NODES],
) -> u64
    requires { Steppable right.steps right.reversion right.row right.flow downs.now discounts.now
        × Limited options.now (node_count right.reversion (right.row + 1)) × (most_discounts ≤ length kept.now) }
    ensures { FilledRow option.new (node_count right.reversion right.row)
        (strike_step (side right.call) right.strike right.listed right.reversion
        discounts.now right.row kept.now options.now) result }
{
    let shape = lattice::row_shape(right.reversion, right.steps, right.row);
    let row = RowRight {
        next: shape.next,
        flow: right.flow,
        call: right.call,
        strike: right.strike,
        listed: right.listed,
    };
    rows::strike_row(
        row,
        part(downs, shape.offset, shape.count),
        part(discounts, shape.start, shape.count),
        part(kept, shape.start, shape.count),
        options,
        option,
    )
}

fn past_limit() -> Answer
    ensures { result ≡ refused 12 }
{
    Answer {
        number: 12,
        value: 0,
    }
}

fn first_value(option: &[u64; MOST_NODES]) -> Answer
    ensures { result ≡ answered (values option.now 0) }
{
    Answer {
        number: 0,
        value: option[0],
    }
}

// One option from its last row back to row 0, beside the kept rows of the bond. 12 where a value on the way is above 8 × one.
pub(crate) fn roll_strike(
    tree: TreeShape,
    terms: Terms,
    marks: &[u8],
    downs: &[u64],
    discounts: &[u64],
    flows: &[u64],
    kept: &[u64],
) -> Answer
    requires { Ready tree.steps tree.reversion downs.now discounts.now flows.now × Exercisable terms tree.steps marks.now
        × (terms.last < tree.steps) × BondKept tree.steps tree.reversion discounts.now flows.now 0 kept.now
        × (most_discounts ≤ length kept.now) }
    ensures { BothRolled tree.steps tree.reversion discounts.now flows.now (side terms.call) terms.strike
        (marked terms.last marks.now)
        (beside_bond tree.steps tree.reversion discounts.now flows.now result) }
{
    let shape = lattice::row_shape(tree.reversion, tree.steps, terms.last);
    let mut first = rows::empty_row();
    let mut second = rows::empty_row();
    let mut later = &mut first;
    let mut option = &mut second;
    rows::first_row(terms, part(kept, shape.start, shape.count), later);
    for row in (0..terms.last).rev() {
        let right = option_step_at(tree, flows, terms, marks, row);
        if limits::VALUE_LIMIT < strike_step(right, downs, discounts, kept, later, option) {
            return past_limit();
        }
        mem::swap(&mut later, &mut option);
    }
    first_value(later)
}
