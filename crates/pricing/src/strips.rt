// The strikes of a strip, one after the other, and what they share.
ghost use Rattle.std.specs.Prelude.{◌≡◌, ◌≤◌, length, replicate};
ghost use Rattle.price_laws.specs.Prices.{refused_price, value_alone, with_bound, dated_price};
ghost use Rattle.price_laws.specs.Strips.{most_strikes, strip_cause, refused_strip, strip_of, strike_price, each_with};
ghost use Rattle.pricing.specs.inside.Strips.{Shareable};

use crate::walk;
use crate::walk::TreeShape;
use price_laws::{MOST_STRIKES, Price, Strip};

// What all strikes of a strip share: the tree, the option's side, an error bound, and the causes about the list and about the bond.
#[derive(Clone, Copy)]
pub(crate) struct Shared {
    pub(crate) steps: usize,
    pub(crate) reversion: u64,
    pub(crate) side: u64,
    pub(crate) bound: u64,
    pub(crate) list: u64,
    pub(crate) bond: u64,
}

fn no_answers() -> [u64; MOST_STRIKES]
    ensures { result ≡ replicate most_strikes 0 }
{
    [0; MOST_STRIKES]
}

// The cause about a strip itself: 3, 4, or 6 for no strike or more than 16; 0 where there is none.
pub(crate) fn strip_cause(steps: usize, reversion: u64, count: usize) -> u64
    ensures { result ≡ strip_cause steps reversion count }
{
    let shape = arithmetic::cause(limits::shape_cause(steps, reversion));
    if shape != 0 {
        return shape;
    }
    if count < 1 {
        return 6;
    }
    if MOST_STRIKES < count {
        return 6;
    }
    0
}

pub(crate) fn refused_strip(number: u64) -> Strip
    ensures { result ≡ refused_strip number }
{
    let zeros = no_answers();
    Strip {
        number,
        numbers: zeros,
        values: zeros,
        bounds: zeros,
    }
}

// A refusal for each of `count` strikes.
pub(crate) fn refused_prices(number: u64, count: usize) -> Strip
    requires { count ≤ most_strikes }
    ensures { result ≡ strip_of count (λ k. refused_price number) }
{
    let zeros = no_answers();
    let mut numbers = no_answers();
    numbers[..count].fill(number);
    Strip {
        number: 0,
        numbers,
        values: zeros,
        bounds: zeros,
    }
}

// One strike: its causes, then the bond's, then its own roll.
fn strike_price(
    shared: Shared,
    dates: &[u8],
    marks: &[u8],
    downs: &[u64],
    discounts: &[u64],
    flows: &[u64],
    kept: &[u64],
    strike: u64,
) -> Price
    requires { Shareable shared dates.now marks.now downs.now discounts.now flows.now kept.now }
    ensures { result ≡ with_bound (value_alone (dated_price shared.steps shared.reversion discounts.now flows.now
        shared.side dates.now strike)) shared.bound }
{
    let about_terms = arithmetic::cause(price_causes::terms_cause(shared.side, strike));
    let cause = arithmetic::lowest_cause(about_terms, shared.list);
    if cause != 0 {
        return crate::refused(cause);
    }
    if shared.bond != 0 {
        return crate::refused(shared.bond);
    }
    let terms = exercise_dates::terms_on(shared.side, dates, strike);
    let tree = TreeShape {
        steps: shared.steps,
        reversion: shared.reversion,
    };
    let rolled = walk::roll_strike(tree, terms, marks, downs, discounts, flows, kept);
    if rolled.number != 0 {
        return crate::refused(rolled.number);
    }
    Price {
        number: 0,
        value: rolled.value,
        bound: shared.bound,
    }
}

// Every strike in its place.
pub(crate) fn strike_prices(
    shared: Shared,
    dates: &[u8],
    marks: &[u8],
    downs: &[u64],
    discounts: &[u64],
    flows: &[u64],
    kept: &[u64],
    strikes: &[u64],
) -> Strip
    requires { Shareable shared dates.now marks.now downs.now discounts.now flows.now kept.now
        × (length strikes.now ≤ most_strikes) }
    ensures { result ≡ strip_of (length strikes.now) (each_with shared.bound (strike_price shared.steps shared.reversion
        discounts.now flows.now shared.side dates.now strikes.now)) }
{
    let mut numbers = no_answers();
    let mut values = no_answers();
    let mut bounds = no_answers();
    for (k, strike) in strikes.iter().enumerate() {
        let price = strike_price(shared, dates, marks, downs, discounts, flows, kept, *strike);
        numbers[k] = price.number;
        values[k] = price.value;
        bounds[k] = price.bound;
    }
    Strip {
        number: 0,
        numbers,
        values,
        bounds,
    }
}
