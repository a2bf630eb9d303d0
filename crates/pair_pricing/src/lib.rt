// Bond and dated option prices on a rate tree and a spread tree together, whose node discounts the caller lends. Discounts stand row after row,
// lowest node first, rows 0 to steps - 1; flows stand for rows 1 to steps. Nothing lent is changed.
#![tactic(auto)]

mod squares;
mod walk;

ghost use Rattle.std.specs.Prelude.{◌≡◌, ◌≤◌, length, take};
ghost use Rattle.limits.specs.Limits.{most_steps, most_reversion, most_nodes};
ghost use Rattle.lattice.specs.Shape.{node_count};
ghost use Rattle.exercise.specs.Terms.{side};
ghost use Rattle.pricing_laws.specs.inside.Marks.{marked};
ghost use Rattle.price_laws.specs.Prices.{refused_price};
ghost use Rattle.pricing.specs.inside.Trees.{down_table, Exercisable};
ghost use Rattle.pair_laws.specs.PairPrices.{pair_bond_price, pair_dated_price};
ghost use Rattle.pair_laws.specs.inside.Accepted.{accepted_pair_bond, accepted_pair_option};
ghost use Rattle.pair_laws.specs.inside.States.{AcceptedPair};

use crate::walk::Trees;
use exercise::Terms;
use price_laws::Price;

fn refused(number: u64) -> Price
    ensures { result ≡ refused_price number }
{
    Price {
        number,
        value: 0,
        bound: 0,
    }
}

fn empty_table() -> [u64; limits::MOST_NODES]
    ensures { length result ≡ most_nodes }
{
    [0; limits::MOST_NODES]
}

// The table of down-probabilities of a tree, worked out once for all rows.
fn table_of(steps: usize, reversion: u64) -> [u64; limits::MOST_NODES]
    requires { (steps ≤ most_steps) × (reversion ≤ most_reversion) }
    ensures { take (node_count reversion steps) result ≡ down_table steps reversion }
{
    let widest = lattice::half_width(reversion, steps).unwrap() as usize;
    let nodes = 2 * widest + 1;
    let mut table = empty_table();
    branches::down_probabilities(reversion, widest, &mut table[..nodes]).unwrap();
    table
}

// The bond of accepted trees.
fn accepted_bond(trees: Trees, rates: &[u64], spreads: &[u64], flows: &[u64]) -> Price
    requires { AcceptedPair trees.steps trees.rate trees.spread rates.now spreads.now flows.now }
    ensures { result ≡ accepted_pair_bond trees.steps trees.rate trees.spread rates.now spreads.now flows.now }
{
    let rate_nodes = lattice::node_count(trees.rate, trees.steps).unwrap() as usize;
    let rate_table = table_of(trees.steps, trees.rate);
    let spread_nodes = lattice::node_count(trees.spread, trees.steps).unwrap() as usize;
    let spread_table = table_of(trees.steps, trees.spread);
    let mut bond = squares::empty_square();
    let mut middle = squares::empty_square();
    let number = walk::roll_bond(
        trees,
        0,
        &rate_table[..rate_nodes],
        &spread_table[..spread_nodes],
        rates,
        spreads,
        flows,
        &mut bond,
        &mut middle,
    );
    if number != 0 {
        return refused(number);
    }
    Price {
        number: 0,
        value: bond[0],
        bound: walk::error_bound(trees, rates, spreads),
    }
}

// The option of accepted trees, on the rows that are marked.
fn accepted_option(
    trees: Trees,
    rates: &[u64],
    spreads: &[u64],
    flows: &[u64],
    terms: Terms,
    marks: &[u8],
) -> Price
    requires { AcceptedPair trees.steps trees.rate trees.spread rates.now spreads.now flows.now
        × Exercisable terms trees.steps marks.now }
    ensures { result ≡ accepted_pair_option trees.steps trees.rate trees.spread rates.now spreads.now flows.now
        (side terms.call) terms.strike (marked terms.last marks.now) }
{
    let rate_nodes = lattice::node_count(trees.rate, trees.steps).unwrap() as usize;
    let rate_table = table_of(trees.steps, trees.rate);
    let spread_nodes = lattice::node_count(trees.spread, trees.steps).unwrap() as usize;
    let spread_table = table_of(trees.steps, trees.spread);
    let mut bond = squares::empty_square();
    let mut option = squares::empty_square();
    let mut middle = squares::empty_square();
    let number = walk::roll_option(
        trees,
        terms,
        marks,
        &rate_table[..rate_nodes],
        &spread_table[..spread_nodes],
        rates,
        spreads,
        flows,
        &mut bond,
        &mut option,
        &mut middle,
    );
    if number != 0 {
        return refused(number);
    }
    Price {
        number: 0,
        value: option[0],
        bound: walk::error_bound(trees, rates, spreads),
    }
}

// The price at row 0 of the bond with these flows on both trees, and its error bound. Both trees have the same number of steps, at most 20.
pub fn pair_bond_price(
    rate_steps: usize,
    rate_reversion: u64,
    rate_discounts: &[u64],
    spread_steps: usize,
    spread_reversion: u64,
    spread_discounts: &[u64],
    flows: &[u64],
) -> Price
    ensures { result ≡ pair_bond_price rate_steps rate_reversion rate_discounts.now spread_steps spread_reversion
        spread_discounts.now flows.now }
{
    let cause = arithmetic::cause(pair_causes::pair_cause(
        rate_steps,
        rate_reversion,
        rate_discounts,
        spread_steps,
        spread_reversion,
        spread_discounts,
        flows,
    ));
    if cause != 0 {
        return refused(cause);
    }
    let trees = Trees {
        steps: rate_steps,
        rate: rate_reversion,
        spread: spread_reversion,
    };
    accepted_bond(trees, rate_discounts, spread_discounts, flows)
}

// The price at row 0 of an option on that bond that may be exercised on the listed rows alone: side 1 a call, 2 a put.
pub fn pair_dated_option_price(
    rate_steps: usize,
    rate_reversion: u64,
    rate_discounts: &[u64],
    spread_steps: usize,
    spread_reversion: u64,
    spread_discounts: &[u64],
    flows: &[u64],
    side: u64,
    dates: &[u8],
    strike: u64,
) -> Price
    ensures { result ≡ pair_dated_price rate_steps rate_reversion rate_discounts.now spread_steps spread_reversion
        spread_discounts.now flows.now side dates.now strike }
{
    let cause = arithmetic::cause(pair_causes::pair_cause(
        rate_steps,
        rate_reversion,
        rate_discounts,
        spread_steps,
        spread_reversion,
        spread_discounts,
        flows,
    ));
    if cause != 0 {
        return refused(cause);
    }
    let about_terms = arithmetic::cause(price_causes::terms_cause(side, strike));
    let other = arithmetic::lowest_cause(
        about_terms,
        exercise_dates::dates_cause(rate_steps, dates),
    );
    if other != 0 {
        return refused(other);
    }
    let terms = exercise_dates::terms_on(side, dates, strike);
    let marks = exercise_dates::marks_of(dates);
    let trees = Trees {
        steps: rate_steps,
        rate: rate_reversion,
        spread: spread_reversion,
    };
    accepted_option(
        trees,
        rate_discounts,
        spread_discounts,
        flows,
        terms,
        &marks,
    )
}
