// Bond and option prices on a rate tree whose node discounts the caller lends. Discounts stand row after row, lowest node first, rows 0 to
// steps - 1; flows stand for rows 1 to steps. Nothing lent is changed.
#![tactic(auto)]

mod rows;
mod strips;
mod walk;

ghost use Rattle.std.specs.Prelude.{◌≡◌, ◌≤◌, length, take};
ghost use Rattle.limits.specs.Limits.{most_steps, most_reversion};
ghost use Rattle.lattice.specs.Shape.{node_count};
ghost use Rattle.pricing_laws.specs.Schedule.{dated_schedule, kind_side};
ghost use Rattle.pricing_laws.specs.inside.Marks.{marked};
ghost use Rattle.exercise.specs.Terms.{side};
ghost use Rattle.lent_tree.specs.LentTree.{Accepted};
ghost use Rattle.price_causes.specs.inside.Flows.{AcceptedFlows};
ghost use Rattle.arithmetic.specs.Answers.{first_cause};
ghost use Rattle.price_laws.specs.Prices.{
  refused_price,
  bond_price,
  option_price,
  bond_and_option,
  dated_price,
  bond_and_dated_option,
  tree_cause,
  scheduled_price,
  value_alone,
  with_bound,
  both_values,
};
ghost use Rattle.price_laws.specs.inside.Accepted.{accepted_bond, accepted_option, both_with};
ghost use Rattle.price_laws.specs.Strips.{most_strikes, strip_of, strip_answer, strike_price, kind_price, option_strip, kind_strip, each_with};
ghost use Rattle.pricing.specs.inside.Trees.{down_table, TreeBounded, Exercisable, ExercisedOn};

use crate::strips::Shared;
use crate::walk::TreeShape;
use arithmetic::Answer;
use exercise::Terms;
use price_laws::{BondAndOption, BondAndOptionValues, BoundedTree, Price, Strip};

pub(crate) fn refused(number: u64) -> Price
    ensures { result ≡ refused_price number }
{
    Price {
        number,
        value: 0,
        bound: 0,
    }
}

// The table of down-probabilities, worked out once for all rows.
fn table_of(steps: usize, reversion: u64) -> [u64; limits::MOST_NODES]
    requires { (steps ≤ most_steps) × (reversion ≤ most_reversion) }
    ensures { take (node_count reversion steps) result ≡ down_table steps reversion }
{
    let widest = lattice::half_width(reversion, steps).unwrap() as usize;
    let nodes = 2 * widest + 1;
    let mut table = rows::empty_row();
    branches::down_probabilities(reversion, widest, &mut table[..nodes]).unwrap();
    table
}

// The bond of an accepted tree, with the error bound that is handed in.
fn accepted_bond(tree: TreeShape, discounts: &[u64], flows: &[u64], bound: u64) -> Price
    requires { Accepted tree.steps tree.reversion discounts.now × AcceptedFlows tree.steps flows.now }
    ensures { result ≡ accepted_bond tree.steps tree.reversion discounts.now flows.now bound }
{
    let nodes = lattice::node_count(tree.reversion, tree.steps).unwrap() as usize;
    let table = table_of(tree.steps, tree.reversion);
    let mut first = rows::empty_row();
    let mut second = rows::empty_row();
    match walk::roll_bond(
        tree,
        0,
        &table[..nodes],
        discounts,
        flows,
        &mut first,
        &mut second,
    ) {
        Some(bond) => Price {
            number: 0,
            value: bond[0],
            bound,
        },
        None => refused(12),
    }
}

// Bond and option of an accepted tree, rolled together. Where a value of either is above the limit, the bond is priced alone.
fn accepted_both(
    tree: TreeShape,
    discounts: &[u64],
    flows: &[u64],
    terms: Terms,
    marks: &[u8],
    bound: u64,
) -> BondAndOption
    requires { Accepted tree.steps tree.reversion discounts.now × AcceptedFlows tree.steps flows.now
        × Exercisable terms tree.steps marks.now }
    ensures bond { result.bond ≡ accepted_bond tree.steps tree.reversion discounts.now flows.now bound }
    ensures option { result.option ≡ accepted_option tree.steps tree.reversion discounts.now flows.now (side terms.call)
        terms.strike (marked terms.last marks.now) bound }
{
    let nodes = lattice::node_count(tree.reversion, tree.steps).unwrap() as usize;
    let table = table_of(tree.steps, tree.reversion);
    let rolled = walk::roll_both(tree, terms, marks, &table[..nodes], discounts, flows);
    if rolled.number != 0 {
        return BondAndOption {
            bond: accepted_bond(tree, discounts, flows, bound),
            option: refused(rolled.number),
        };
    }
    BondAndOption {
        bond: Price {
            number: 0,
            value: rolled.bond,
            bound,
        },
        option: Price {
            number: 0,
            value: rolled.option,
            bound,
        },
    }
}

// ---- the first cause about a tree and its flows, with the tree's error bound, or with 0 for a caller who knows it

fn tree_bound(steps: usize, reversion: u64, discounts: &[u64], flows: &[u64]) -> Answer
    ensures { TreeBounded steps reversion discounts.now flows.now result }
{
    let bound = price_bound::price_error_bound(steps, reversion, discounts);
    let cause = arithmetic::lowest_refusal(bound, price_causes::flows_cause(steps, flows));
    Answer {
        number: arithmetic::cause(cause),
        value: bound.unwrap_or(0),
    }
}

fn tree_cause(steps: usize, reversion: u64, discounts: &[u64], flows: &[u64]) -> Answer
    ensures { result.number ≡ tree_cause steps reversion discounts.now flows.now }
{
    let cause = arithmetic::lowest_refusal(
        lent_tree::discounts_cause(steps, reversion, discounts),
        price_causes::flows_cause(steps, flows),
    );
    Answer {
        number: arithmetic::cause(cause),
        value: 0,
    }
}

// ---- prices with an error bound that is handed in with the cause about the tree

fn judged_bond(tree: TreeShape, discounts: &[u64], flows: &[u64], bound: Answer) -> Price
    requires { bound.number ≡ tree_cause tree.steps tree.reversion discounts.now flows.now }
    ensures { result ≡ with_bound (value_alone (bond_price tree.steps tree.reversion discounts.now flows.now)) bound.value }
{
    if bound.number != 0 {
        return refused(bound.number);
    }
    accepted_bond(tree, discounts, flows, bound.value)
}

// Bond and option on these dates, where the option itself has a cause or none: a cause about the tree comes first.
fn judged_both(
    tree: TreeShape,
    discounts: &[u64],
    flows: &[u64],
    bound: Answer,
    cause: u64,
    terms: Terms,
    dates: &[u8],
) -> BondAndOption
    requires { (bound.number ≡ tree_cause tree.steps tree.reversion discounts.now flows.now)
        × (cause ≡ 0 → tree.steps ≤ most_steps → ExercisedOn terms tree.steps dates.now) }
    ensures bond { result.bond ≡ with_bound (value_alone (bond_price tree.steps tree.reversion discounts.now flows.now))
        bound.value }
    ensures option { result.option ≡ with_bound (value_alone (scheduled_price tree.steps tree.reversion discounts.now flows.now
        (side terms.call) terms.strike (dated_schedule dates.now) cause)) bound.value }
{
    if bound.number != 0 {
        return BondAndOption {
            bond: refused(bound.number),
            option: refused(bound.number),
        };
    }
    if cause != 0 {
        return BondAndOption {
            bond: accepted_bond(tree, discounts, flows, bound.value),
            option: refused(cause),
        };
    }
    let marks = exercise_dates::marks_of(dates);
    accepted_both(tree, discounts, flows, terms, &marks, bound.value)
}

fn both_of_kind(
    tree: TreeShape,
    discounts: &[u64],
    flows: &[u64],
    bound: Answer,
    kind: u64,
    expiry: usize,
    strike: u64,
) -> BondAndOption
    requires { bound.number ≡ tree_cause tree.steps tree.reversion discounts.now flows.now }
    ensures { result ≡ both_with (both_values (bond_and_option tree.steps tree.reversion discounts.now flows.now kind expiry strike))
        bound.value }
{
    let cause = arithmetic::cause(price_causes::option_cause(tree.steps, kind, expiry, strike));
    let terms = exercise::terms_of(kind, expiry, strike);
    let dates = exercise_dates::dates_of_kind(kind, expiry);
    let rows = dates.rows;
    let count = dates.count;
    judged_both(tree, discounts, flows, bound, cause, terms, &rows[..count])
}

fn both_on_dates(
    tree: TreeShape,
    discounts: &[u64],
    flows: &[u64],
    bound: Answer,
    side: u64,
    dates: &[u8],
    strike: u64,
) -> BondAndOption
    requires { bound.number ≡ tree_cause tree.steps tree.reversion discounts.now flows.now }
    ensures { result ≡ both_with (both_values (bond_and_dated_option tree.steps tree.reversion discounts.now flows.now side
        dates.now strike)) bound.value }
{
    let about_terms = arithmetic::cause(price_causes::terms_cause(side, strike));
    let about_dates = exercise_dates::dates_cause(tree.steps, dates);
    let cause = arithmetic::lowest_cause(about_terms, about_dates);
    let terms = exercise_dates::terms_on(side, dates, strike);
    judged_both(tree, discounts, flows, bound, cause, terms, dates)
}

// ---- prices with the tree's error bound

// The price at row 0 of the bond with these flows, and its error bound.
pub fn bond_price(steps: usize, reversion: u64, discounts: &[u64], flows: &[u64]) -> Price
    ensures { result ≡ bond_price steps reversion discounts.now flows.now }
{
    let bound = tree_bound(steps, reversion, discounts, flows);
    judged_bond(TreeShape { steps, reversion }, discounts, flows, bound)
}

// The prices at row 0 of the bond and of an option on it, in one roll; each as the entry for it alone answers.
pub fn bond_and_option(
    steps: usize,
    reversion: u64,
    discounts: &[u64],
    flows: &[u64],
    kind: u64,
    expiry: usize,
    strike: u64,
) -> BondAndOption
    ensures { result ≡ bond_and_option steps reversion discounts.now flows.now kind expiry strike }
{
    let bound = tree_bound(steps, reversion, discounts, flows);
    both_of_kind(
        TreeShape { steps, reversion },
        discounts,
        flows,
        bound,
        kind,
        expiry,
        strike,
    )
}

// The same for an option that may be exercised on the listed rows alone: side 1 a call, 2 a put.
pub fn bond_and_dated_option(
    steps: usize,
    reversion: u64,
    discounts: &[u64],
    flows: &[u64],
    side: u64,
    dates: &[u8],
    strike: u64,
) -> BondAndOption
    ensures { result ≡ bond_and_dated_option steps reversion discounts.now flows.now side dates.now strike }
{
    let bound = tree_bound(steps, reversion, discounts, flows);
    both_on_dates(
        TreeShape { steps, reversion },
        discounts,
        flows,
        bound,
        side,
        dates,
        strike,
    )
}

// The price at row 0 of an option on that bond, and its error bound. Kinds 1 European call, 2 European put, 3 American call, 4 American put.
pub fn option_price(
    steps: usize,
    reversion: u64,
    discounts: &[u64],
    flows: &[u64],
    kind: u64,
    expiry: usize,
    strike: u64,
) -> Price
    ensures { result ≡ option_price steps reversion discounts.now flows.now kind expiry strike }
{
    let both = bond_and_option(steps, reversion, discounts, flows, kind, expiry, strike);
    both.option
}

// The same for an option on listed rows: its value on the last of them is the exercise value, on earlier ones the larger of roll and exercise.
pub fn dated_option_price(
    steps: usize,
    reversion: u64,
    discounts: &[u64],
    flows: &[u64],
    side: u64,
    dates: &[u8],
    strike: u64,
) -> Price
    ensures { result ≡ dated_price steps reversion discounts.now flows.now side dates.now strike }
{
    let both = bond_and_dated_option(steps, reversion, discounts, flows, side, dates, strike);
    both.option
}

// ---- values alone, for a caller who knows the tree's error bound: number and value of each price, which the bound does not enter

fn value_of(price: Price) -> Answer
    ensures { result ≡ value_alone price }
{
    Answer {
        number: price.number,
        value: price.value,
    }
}

fn values_of(both: BondAndOption) -> BondAndOptionValues
    ensures { result ≡ both_values both }
{
    BondAndOptionValues {
        bond: value_of(both.bond),
        option: value_of(both.option),
    }
}

// As `bond_price`.
pub fn bond_value(steps: usize, reversion: u64, discounts: &[u64], flows: &[u64]) -> Answer
    ensures { result ≡ value_alone (bond_price steps reversion discounts.now flows.now) }
{
    let cause = tree_cause(steps, reversion, discounts, flows);
    value_of(judged_bond(TreeShape { steps, reversion }, discounts, flows, cause))
}

// As `bond_and_option`.
pub fn bond_and_option_values(
    steps: usize,
    reversion: u64,
    discounts: &[u64],
    flows: &[u64],
    kind: u64,
    expiry: usize,
    strike: u64,
) -> BondAndOptionValues
    ensures { result ≡ both_values (bond_and_option steps reversion discounts.now flows.now kind expiry strike) }
{
    let cause = tree_cause(steps, reversion, discounts, flows);
    values_of(both_of_kind(
        TreeShape { steps, reversion },
        discounts,
        flows,
        cause,
        kind,
        expiry,
        strike,
    ))
}

// As `bond_and_dated_option`.
pub fn bond_and_dated_option_values(
    steps: usize,
    reversion: u64,
    discounts: &[u64],
    flows: &[u64],
    side: u64,
    dates: &[u8],
    strike: u64,
) -> BondAndOptionValues
    ensures { result ≡ both_values (bond_and_dated_option steps reversion discounts.now flows.now side dates.now strike) }
{
    let cause = tree_cause(steps, reversion, discounts, flows);
    values_of(both_on_dates(
        TreeShape { steps, reversion },
        discounts,
        flows,
        cause,
        side,
        dates,
        strike,
    ))
}

// ---- strips of strikes, the bond rolled once

// The strip of an accepted tree, with the error bound that is handed in: the bond's rows are kept, then each strike is rolled beside them.
fn accepted_strip(
    tree: TreeShape,
    discounts: &[u64],
    flows: &[u64],
    side: u64,
    dates: &[u8],
    strikes: &[u64],
    bound: u64,
) -> Strip
    requires { (tree_cause tree.steps tree.reversion discounts.now flows.now ≡ 0) × (length strikes.now ≤ most_strikes) }
    ensures { result ≡ strip_of (length strikes.now) (each_with bound
        (strike_price tree.steps tree.reversion discounts.now flows.now side dates.now strikes.now)) }
{
    let nodes = lattice::node_count(tree.reversion, tree.steps).unwrap() as usize;
    let table = table_of(tree.steps, tree.reversion);
    let mut kept = limits::discount_room();
    let bond = walk::keep_bond(tree, &table[..nodes], discounts, flows, &mut kept);
    let marks = exercise_dates::marks_of(dates);
    let shared = Shared {
        steps: tree.steps,
        reversion: tree.reversion,
        side,
        bound,
        list: exercise_dates::dates_cause(tree.steps, dates),
        bond,
    };
    strips::strike_prices(
        shared,
        dates,
        &marks,
        &table[..nodes],
        discounts,
        flows,
        &kept,
        strikes,
    )
}

// A strip on these dates, with an error bound that is handed in with the cause about the tree.
fn judged_strip(
    tree: TreeShape,
    discounts: &[u64],
    flows: &[u64],
    bound: Answer,
    side: u64,
    dates: &[u8],
    strikes: &[u64],
) -> Strip
    requires { bound.number ≡ tree_cause tree.steps tree.reversion discounts.now flows.now }
    ensures { result ≡ strip_answer tree.steps tree.reversion (length strikes.now) (each_with bound.value
        (strike_price tree.steps tree.reversion discounts.now flows.now side dates.now strikes.now)) }
{
    let cause = strips::strip_cause(tree.steps, tree.reversion, strikes.len());
    if cause != 0 {
        return strips::refused_strip(cause);
    }
    if bound.number != 0 {
        return strips::refused_prices(bound.number, strikes.len());
    }
    accepted_strip(tree, discounts, flows, side, dates, strikes, bound.value)
}

fn side_of_kind(kind: u64) -> u64
    ensures { result ≡ kind_side kind }
{
    if kind == 1 {
        return 1;
    }
    if kind == 3 {
        return 1;
    }
    2
}

// A strip of a kind that is refused, or whose expiry is: so is every strike, but a cause about the tree comes first.
fn refused_kind(tree: TreeShape, bound: Answer, cause: u64, count: usize) -> Strip
    ensures { result ≡ strip_answer tree.steps tree.reversion count (λ k. refused_price (first_cause bound.number cause)) }
{
    let own = strips::strip_cause(tree.steps, tree.reversion, count);
    if own != 0 {
        return strips::refused_strip(own);
    }
    if bound.number != 0 {
        return strips::refused_prices(bound.number, count);
    }
    strips::refused_prices(cause, count)
}

// A strip of a kind, by its list.
fn strip_of_kind(
    tree: TreeShape,
    discounts: &[u64],
    flows: &[u64],
    bound: Answer,
    kind: u64,
    expiry: usize,
    strikes: &[u64],
) -> Strip
    requires { bound.number ≡ tree_cause tree.steps tree.reversion discounts.now flows.now }
    ensures { result ≡ strip_answer tree.steps tree.reversion (length strikes.now) (each_with bound.value
        (kind_price tree.steps tree.reversion discounts.now flows.now kind expiry strikes.now)) }
{
    let cause = arithmetic::cause(price_causes::option_cause(tree.steps, kind, expiry, 0));
    if cause != 0 {
        return refused_kind(tree, bound, cause, strikes.len());
    }
    let dates = exercise_dates::dates_of_kind(kind, expiry);
    let rows = dates.rows;
    let count = dates.count;
    judged_strip(
        tree,
        discounts,
        flows,
        bound,
        side_of_kind(kind),
        &rows[..count],
        strikes,
    )
}

// Up to 16 strikes of one side and one list of dates: in each place what a call for that strike alone answers. The strip itself is refused with 3, 4,
// or 6 for no strike or more than 16.
pub fn option_strip(
    steps: usize,
    reversion: u64,
    discounts: &[u64],
    flows: &[u64],
    side: u64,
    dates: &[u8],
    strikes: &[u64],
) -> Strip
    ensures { result ≡ option_strip steps reversion discounts.now flows.now side dates.now strikes.now }
{
    let bound = tree_bound(steps, reversion, discounts, flows);
    judged_strip(
        TreeShape { steps, reversion },
        discounts,
        flows,
        bound,
        side,
        dates,
        strikes,
    )
}

// The same for one of the four kinds and an expiry.
pub fn option_strip_of_kind(
    steps: usize,
    reversion: u64,
    discounts: &[u64],
    flows: &[u64],
    kind: u64,
    expiry: usize,
    strikes: &[u64],
) -> Strip
    ensures { result ≡ kind_strip steps reversion discounts.now flows.now kind expiry strikes.now }
{
    let bound = tree_bound(steps, reversion, discounts, flows);
    strip_of_kind(
        TreeShape { steps, reversion },
        discounts,
        flows,
        bound,
        kind,
        expiry,
        strikes,
    )
}

// ---- strips with an error bound that the caller knows

// The cause about a tree and its flows, with the known error bound.
fn known_bound(tree: BoundedTree, discounts: &[u64], flows: &[u64]) -> Answer
    ensures cause { result.number ≡ tree_cause tree.steps tree.reversion discounts.now flows.now }
    ensures bound { result.value ≡ tree.bound }
{
    let cause = tree_cause(tree.steps, tree.reversion, discounts, flows);
    Answer {
        number: cause.number,
        value: tree.bound,
    }
}

// As `option_strip`, each price with that bound.
pub fn bounded_strip(
    tree: BoundedTree,
    discounts: &[u64],
    flows: &[u64],
    side: u64,
    dates: &[u8],
    strikes: &[u64],
) -> Strip
    ensures { result ≡ strip_answer tree.steps tree.reversion (length strikes.now) (each_with tree.bound
        (strike_price tree.steps tree.reversion discounts.now flows.now side dates.now strikes.now)) }
{
    let bound = known_bound(tree, discounts, flows);
    judged_strip(
        TreeShape {
            steps: tree.steps,
            reversion: tree.reversion,
        },
        discounts,
        flows,
        bound,
        side,
        dates,
        strikes,
    )
}

// As `option_strip_of_kind`, each price with that bound.
pub fn bounded_strip_of_kind(
    tree: BoundedTree,
    discounts: &[u64],
    flows: &[u64],
    kind: u64,
    expiry: usize,
    strikes: &[u64],
) -> Strip
    ensures { result ≡ strip_answer tree.steps tree.reversion (length strikes.now) (each_with tree.bound
        (kind_price tree.steps tree.reversion discounts.now flows.now kind expiry strikes.now)) }
{
    let bound = known_bound(tree, discounts, flows);
    strip_of_kind(
        TreeShape {
            steps: tree.steps,
            reversion: tree.reversion,
        },
        discounts,
        flows,
        bound,
        kind,
        expiry,
        strikes,
    )
}
