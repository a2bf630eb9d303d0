// One row of the tree, rolled back from the row after it.
ghost use Rattle.std.specs.Prelude.{◌≡◌, ◌+◌, ◌-◌, ◌*◌, ◌<◌, ◌≤◌, length};
ghost use Rattle.arithmetic.specs.Row.{values};
ghost use Rattle.tree.specs.Tree.{probability_total};
ghost use Rattle.limits.specs.Limits.{most_discount, most_nodes};
ghost use Rattle.price_causes.specs.Causes.{most_flow};
ghost use Rattle.pricing_laws.specs.Pricer.{exercise};
ghost use Rattle.exercise.specs.Terms.{side};
ghost use Rattle.row_branches.specs.RowBranches.{opposite};
ghost use Rattle.row_branches.specs.inside.Transitions.{branch_total};
ghost use Rattle.pricing.specs.inside.Rows.{
  growing_span,
  lowest_span,
  inner_span,
  highest_span,
  span_branch,
  edge_nodes,
  between_edges,
  Leads,
  branch_roll,
  most_roll,
  bond_values,
  option_values,
  Rollable,
  Limited,
  Later,
  Holds,
  FilledRow,
  FilledRows,
};
ghost use Rattle.pricing.specs.inside.Strips.{Paid, Laid, strike_values};

use arithmetic::ONE;
use exercise::Terms;
use limits::MOST_NODES;
use row_branches::RowBranch;
use tree::PROBABILITY_TOTAL;

// A row's memory.
pub(crate) fn empty_row() -> [u64; MOST_NODES]
    ensures { length result ≡ most_nodes }
{
    [0; MOST_NODES]
}

// The roll of a node along its branch: divided by the whole of the probabilities, nearest; then discounted, nearest.
fn roll_node(branch: RowBranch, later: &[u64], discount: u64) -> u64
    requires { (branch.low + 2 < length later.now) × (branch_total branch ≡ probability_total)
        × Limited later.now (branch.low + 3) × (discount ≤ most_discount) }
    ensures { (result ≡ branch_roll branch (values later.now) discount) × (result ≤ most_roll) }
{
    let low = branch.low;
    let probabilities = branch.probabilities;
    let sum = probabilities[0] * later[low + 2]
        + probabilities[1] * later[low + 1]
        + probabilities[2] * later[low];
    ((sum + PROBABILITY_TOTAL / 2) / PROBABILITY_TOTAL * discount + ONE / 2) / ONE
}

// Nodes of a row that all branch alike: from one on, before another, each leads to the node of the next row at its own index less a shift, and to the
// two above it. The next row has so many nodes.
#[derive(Drop)]
struct Span {
    next: usize,
    from: usize,
    to: usize,
    shift: usize,
}

// The whole of a row whose next row is wider.
fn growing(count: usize, next: usize) -> Span
    ensures { result ≡ growing_span count next }
{
    Span {
        next,
        from: 0,
        to: count,
        shift: 0,
    }
}

// The lowest node, the inner ones and the highest node of any other row.
fn lowest(next: usize) -> Span
    ensures { result ≡ lowest_span next }
{
    Span {
        next,
        from: 0,
        to: 1,
        shift: 0,
    }
}

fn inner(count: usize, next: usize) -> Span
    requires { 0 < count }
    ensures { result ≡ inner_span count next }
{
    Span {
        next,
        from: 1,
        to: count - 1,
        shift: 1,
    }
}

fn highest(count: usize, next: usize) -> Span
    requires { 0 < count }
    ensures { result ≡ highest_span count next }
{
    Span {
        next,
        from: count - 1,
        to: count,
        shift: 2,
    }
}

// The branch of a node, where the shift is known: nothing to test.
fn span_branch(downs: &[u64], shift: usize, index: usize) -> RowBranch
    requires { (index < length downs.now) × (shift ≤ index) × (values downs.now index + opposite downs.now index ≤ probability_total) }
    ensures { result ≡ span_branch downs.now shift index }
{
    let down = downs[index];
    let up = downs[downs.len() - 1 - index];
    RowBranch {
        low: index - shift,
        probabilities: [up, PROBABILITY_TOTAL - down - up, down],
    }
}

// The bond on some nodes of a row, behind those that are done; with the greatest value so far.
fn bond_nodes(
    row: &mut [u64],
    later: &[u64],
    downs: &[u64],
    discounts: &[u64],
    span: Span,
    flow: u64,
    greatest: u64,
) -> u64
    requires { Rollable downs.now discounts.now span.next × Later later.now span.next
        × (length discounts.now ≤ length row.old) × (flow ≤ most_flow) × Leads downs.now span (length discounts.now)
        × FilledRow row.old span.from (bond_values later.now downs.now discounts.now span.next flow) greatest }
    ensures { FilledRow row.new span.to
        (bond_values later.now downs.now discounts.now span.next flow) result }
{
    let shift = span.shift;
    let mut top = greatest;
    for k in span.from..span.to {
        let branch = span_branch(downs, shift, k);
        let value = roll_node(branch, later, discounts[k]) + flow;
        row[k] = value;
        top = arithmetic::larger(top, value);
    }
    top
}

// Rolls the bond back by one row and adds the row's flow. Gives the greatest value of the row.
pub(crate) fn bond_row(
    row: &mut [u64],
    later: &[u64],
    downs: &[u64],
    discounts: &[u64],
    next: usize,
    flow: u64,
) -> u64
    requires { Rollable downs.now discounts.now next × Later later.now next
        × (length discounts.now ≤ length row.old) × (flow ≤ most_flow) }
    ensures { FilledRow row.new (length discounts.now)
        (bond_values later.now downs.now discounts.now next flow) result }
{
    let count = discounts.len();
    if count < next {
        return bond_nodes(row, later, downs, discounts, growing(count, next), flow, 0);
    }
    let low = bond_nodes(row, later, downs, discounts, lowest(next), flow, 0);
    let middle = bond_nodes(row, later, downs, discounts, inner(count, next), flow, low);
    bond_nodes(
        row,
        later,
        downs,
        discounts,
        highest(count, next),
        flow,
        middle,
    )
}

// A row that bond and option are rolled into: the nodes of the row after it, its flow, and the option's right on it.
#[derive(Clone, Copy)]
pub(crate) struct RowRight {
    pub(crate) next: usize,
    pub(crate) flow: u64,
    pub(crate) call: bool,
    pub(crate) strike: u64,
    pub(crate) listed: bool,
}

// Bond and option on some nodes of a row, each node's branch worked out once for both, behind those that are done; with the greatest value so far.
fn option_nodes(
    right: RowRight,
    span: Span,
    downs: &[u64],
    discounts: &[u64],
    bonds: &[u64],
    options: &[u64],
    bond: &mut [u64],
    option: &mut [u64],
    greatest: u64,
) -> u64
    requires { Rollable downs.now discounts.now span.next × Later bonds.now span.next × Later options.now span.next
        × (length discounts.now ≤ length bond.old) × (length discounts.now ≤ length option.old) × (right.flow ≤ most_flow)
        × Leads downs.now span (length discounts.now)
        × FilledRows bond.old option.old span.from
        (bond_values bonds.now downs.now discounts.now span.next right.flow)
        (option_values (side right.call) right.strike right.listed
        bonds.now options.now downs.now discounts.now span.next) greatest }
    ensures { FilledRows bond.new option.new span.to
        (bond_values bonds.now downs.now discounts.now span.next right.flow)
        (option_values (side right.call) right.strike right.listed
        bonds.now options.now downs.now discounts.now span.next) result }
{
    let call = right.call;
    let strike = right.strike;
    let listed = right.listed;
    let flow = right.flow;
    let shift = span.shift;
    let mut top = greatest;
    for k in span.from..span.to {
        let branch = span_branch(downs, shift, k);
        let discount = discounts[k];
        let bare = roll_node(branch, bonds, discount);
        let roll = roll_node(branch, options, discount);
        let held = exercise::held_value(call, strike, listed, roll, bare);
        let value = bare + flow;
        bond[k] = value;
        option[k] = held;
        top = arithmetic::larger(top, arithmetic::larger(value, held));
    }
    top
}

// Bond and option on a row whose edges branch inwards, its spans one after the other.
fn capped_option_row(
    right: RowRight,
    downs: &[u64],
    discounts: &[u64],
    bonds: &[u64],
    options: &[u64],
    bond: &mut [u64],
    option: &mut [u64],
) -> u64
    requires { Rollable downs.now discounts.now right.next × Later bonds.now right.next × Later options.now right.next
        × (length discounts.now ≤ length bond.old) × (length discounts.now ≤ length option.old) × (right.flow ≤ most_flow)
        × (right.next ≤ length discounts.now) }
    ensures { FilledRows bond.new option.new (length discounts.now)
        (bond_values bonds.now downs.now discounts.now right.next right.flow)
        (option_values (side right.call) right.strike right.listed
        bonds.now options.now downs.now discounts.now right.next) result }
{
    let count = discounts.len();
    let first = lowest(right.next);
    let low = option_nodes(
        right, first, downs, discounts, bonds, options, bond, option, 0,
    );
    let second = inner(count, right.next);
    let middle = option_nodes(
        right, second, downs, discounts, bonds, options, bond, option, low,
    );
    let last = highest(count, right.next);
    option_nodes(
        right, last, downs, discounts, bonds, options, bond, option, middle,
    )
}

// Rolls bond and option back by one row together. The option is exercised on the bond before the row's flow is added. Gives the greatest value of the
// two rows.
pub(crate) fn option_row(
    right: RowRight,
    downs: &[u64],
    discounts: &[u64],
    bonds: &[u64],
    options: &[u64],
    bond: &mut [u64],
    option: &mut [u64],
) -> u64
    requires { Rollable downs.now discounts.now right.next × Later bonds.now right.next × Later options.now right.next
        × (length discounts.now ≤ length bond.old) × (length discounts.now ≤ length option.old) × (right.flow ≤ most_flow) }
    ensures { FilledRows bond.new option.new (length discounts.now)
        (bond_values bonds.now downs.now discounts.now right.next right.flow)
        (option_values (side right.call) right.strike right.listed
        bonds.now options.now downs.now discounts.now right.next) result }
{
    let count = discounts.len();
    let next = right.next;
    if next <= count {
        return capped_option_row(right, downs, discounts, bonds, options, bond, option);
    }
    let whole = growing(count, next);
    option_nodes(
        right, whole, downs, discounts, bonds, options, bond, option, 0,
    )
}

// The exercise values of the first `count` nodes of a row of the bond, which holds the row's flow.
pub(crate) fn exercise_row(terms: Terms, flow: u64, count: usize, bond: &[u64], option: &mut [u64])
    requires { (count ≤ length bond.now) × (count ≤ length option.old) }
    ensures { Holds option.new count
        (λ k. exercise (side terms.call) terms.strike (values bond.now k - flow)) }
{
    let call = terms.call;
    let strike = terms.strike;
    for (k, value) in bond[..count].iter().enumerate() {
        option[k] = exercise::expiry_value(call, strike, *value, flow);
    }
}

// Keeps the first `count` nodes of a row of the bond, each of which has the row's flow, without it, from a place of a memory on.
pub(crate) fn keep_row(
    bond: &[u64; MOST_NODES],
    flow: u64,
    kept: &mut [u64],
    start: usize,
    count: usize,
)
    requires { (count ≤ most_nodes) × (start + count ≤ length kept.old) × Paid bond.now count flow }
    ensures { Laid kept.old kept.new start count (λ k. values bond.now k - flow) }
{
    for (k, value) in bond[..count].iter().enumerate() {
        kept[start + k] = *value - flow;
    }
}

// The exercise values of a row of the bond that was kept without its flow.
pub(crate) fn first_row(terms: Terms, bare: &[u64], option: &mut [u64])
    requires { length bare.now ≤ length option.old }
    ensures { Holds option.new (length bare.now)
        (λ k. exercise (side terms.call) terms.strike (values bare.now k)) }
{
    let call = terms.call;
    let strike = terms.strike;
    for (k, value) in bare.iter().enumerate() {
        option[k] = exercise::exercise_value(call, strike, *value);
    }
}

// One option on some nodes of a row, behind those that are done; with the greatest value so far.
fn strike_nodes(
    right: RowRight,
    span: Span,
    downs: &[u64],
    discounts: &[u64],
    bare: &[u64],
    options: &[u64],
    option: &mut [u64],
    greatest: u64,
) -> u64
    requires { Rollable downs.now discounts.now span.next × Later options.now span.next
        × (length discounts.now ≤ length bare.now) × (length discounts.now ≤ length option.old)
        × Leads downs.now span (length discounts.now)
        × FilledRow option.old span.from
        (strike_values (side right.call) right.strike right.listed bare.now options.now downs.now discounts.now span.next) greatest }
    ensures { FilledRow option.new span.to
        (strike_values (side right.call) right.strike right.listed
        bare.now options.now downs.now discounts.now span.next) result }
{
    let call = right.call;
    let strike = right.strike;
    let listed = right.listed;
    let shift = span.shift;
    let mut top = greatest;
    for k in span.from..span.to {
        let branch = span_branch(downs, shift, k);
        let roll = roll_node(branch, options, discounts[k]);
        let held = exercise::held_value(call, strike, listed, roll, bare[k]);
        option[k] = held;
        top = arithmetic::larger(top, held);
    }
    top
}

// 1 where a row's edges branch inwards, else 0.
fn edge_nodes(count: usize, next: usize) -> usize
    ensures { result ≡ edge_nodes count next }
{
    if count < next { 0 } else { 1 }
}

// One option on the edge nodes of one side of a row, one or none, behind those that are done; with the greatest value so far.
fn strike_edge(
    right: RowRight,
    edge: usize,
    index: usize,
    downs: &[u64],
    discounts: &[u64],
    bare: &[u64],
    options: &[u64],
    option: &mut [u64],
    greatest: u64,
) -> u64
    requires { Rollable downs.now discounts.now right.next × Later options.now right.next
        × (length discounts.now ≤ length bare.now) × (length discounts.now ≤ length option.old)
        × (edge ≤ 1) × (index + edge ≤ length discounts.now)
        × FilledRow option.old index
        (strike_values (side right.call) right.strike right.listed bare.now options.now downs.now discounts.now right.next) greatest }
    ensures { FilledRow option.new (index + edge)
        (strike_values (side right.call) right.strike right.listed
        bare.now options.now downs.now discounts.now right.next) result }
{
    if edge == 0 {
        return greatest;
    }
    let branch = row_branches::row_branch(downs, right.next, index);
    let roll = roll_node(branch, options, discounts[index]);
    let held = exercise::held_value(right.call, right.strike, right.listed, roll, bare[index]);
    option[index] = held;
    arithmetic::larger(greatest, held)
}

// The nodes between the edges.
fn between_edges(edge: usize, count: usize, next: usize) -> Span
    requires { edge ≤ count }
    ensures { result ≡ between_edges edge count next }
{
    Span {
        next,
        from: edge,
        to: count - edge,
        shift: edge,
    }
}

// Rolls one option back by one row, beside a row of the bond that was kept without its flow. Gives the greatest value of the row. A strip does this for
// every strike: the loop stands once, so that it is compiled in place.
pub(crate) fn strike_row(
    right: RowRight,
    downs: &[u64],
    discounts: &[u64],
    bare: &[u64],
    options: &[u64],
    option: &mut [u64],
) -> u64
    requires { Rollable downs.now discounts.now right.next × Later options.now right.next
        × (length discounts.now ≤ length bare.now) × (length discounts.now ≤ length option.old) }
    ensures { FilledRow option.new (length discounts.now)
        (strike_values (side right.call) right.strike right.listed
        bare.now options.now downs.now discounts.now right.next) result }
{
    let count = discounts.len();
    let edge = edge_nodes(count, right.next);
    let span = between_edges(edge, count, right.next);
    let low = strike_edge(right, edge, 0, downs, discounts, bare, options, option, 0);
    let inner = strike_nodes(right, span, downs, discounts, bare, options, option, low);
    strike_edge(
        right,
        edge,
        count - edge,
        downs,
        discounts,
        bare,
        options,
        option,
        inner,
    )
}
