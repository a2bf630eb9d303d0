// A node's continuous rate over its step, with its sign, from the step's discount.
#![tactic(auto)]

ghost use Rattle.std.specs.Prelude.{◌≡◌, true, false, ◌+◌, ◌-◌, ◌≤◌, ◌<◌};
ghost use Rattle.arithmetic.specs.Rounding.{one};
ghost use Rattle.limits.specs.Limits.{most_discount};
ghost use Rattle.continuous.specs.Continuous.{side_discount};
ghost use Rattle.step_rate.specs.StepRate.{rate_of};
ghost use Rattle.continuous_rate.specs.Least.{first_least};
ghost use Rattle.continuous_rate.specs.ContinuousRate.{continuous_rate_answer};
ghost use Rattle.continuous_rate.specs.inside.Search.{side_miss, window_miss, before, reach_of, Passes};

use arithmetic::{ONE, Refusal};

fn side_discount(quotient: u64, below: bool) -> u64
    requires { quotient ≤ one }
    ensures { result ≡ side_discount quotient below }
{
    continuous::discount_of_quotient(quotient, below).unwrap()
}

// How far the discount of a quotient is from the given one.
fn side_miss(discount: u64, below: bool, quotient: u64) -> u64
    requires { quotient ≤ one }
    ensures { result ≡ side_miss discount below quotient }
{
    let found = side_discount(quotient, below);
    found.abs_diff(discount)
}

// Whether the discounts of one side, which start at one, have not passed the given one at a quotient.
fn is_before(discount: u64, below: bool, quotient: u64) -> bool
    requires { quotient ≤ one }
    ensures { result ≡ before discount below quotient }
{
    let found = side_discount(quotient, below);
    if below {
        return found <= discount;
    }
    discount <= found
}

// A quotient at which the discounts of one side pass the given one, by halving an interval.
fn passing(discount: u64, below: bool) -> u64
    requires { before discount below 0 ≡ true }
    ensures { Passes discount below result }
{
    let mut low: u64 = 0;
    let mut high: u64 = ONE + 1;
    while 1 < high - low {
        let middle = low + (high - low) / 2;
        if is_before(discount, below, middle) {
            low = middle;
        } else {
            high = middle;
        }
    }
    low
}

// Of the quotients above zero from the first on, `count` more, the first whose discount is nearest.
fn nearest_between(discount: u64, from: u64, count: u64) -> u64
    requires { from + count ≤ one }
    ensures { result ≡ from + first_least (window_miss discount from) count }
{
    let mut best = from;
    let mut least = side_miss(discount, false, from);
    for k in 0..count {
        let quotient = from + (k + 1);
        let miss = side_miss(discount, false, quotient);
        if miss < least {
            best = quotient;
            least = miss;
        }
    }
    best
}

// How far from the passing quotient the nearest one may stand: over so many the discounts fall.
fn reach(quotient: u64) -> u64
    ensures { result ≡ reach_of quotient }
{
    if quotient < 499_999_000 {
        return 19;
    }
    100
}

// A quotient less its reach, or 0.
fn window_start(quotient: u64, reach: u64) -> u64
    ensures { result ≡ quotient - reach }
{
    quotient.saturating_sub(reach)
}

// A quotient with its reach and one more, at most one.
fn window_end(quotient: u64, reach: u64) -> u64
    requires { (quotient ≤ one) × (reach ≤ 100) }
    ensures { (quotient ≤ result) × (result ≤ one) × (result < one → quotient + reach + 1 ≤ result) }
{
    (quotient + reach + 1).min(ONE)
}

// The first quotient above zero whose discount is nearest. Discounts do not fall at every quotient, but over the reach they do.
fn nearest_above(discount: u64) -> u64
    requires { discount ≤ one }
    ensures { result ≡ first_least (side_miss discount false) one }
{
    let place = passing(discount, false);
    let far = reach(place);
    let from = window_start(place, far);
    nearest_between(discount, from, window_end(place, far) - from)
}

// The first quotient below zero whose discount is nearest.
fn nearest_below(discount: u64) -> u64
    requires { (one ≤ discount) × (discount ≤ most_discount) }
    ensures { result ≡ first_least (side_miss discount true) one }
{
    let place = passing(discount, true);
    if side_miss(discount, true, place + 1) < side_miss(discount, true, place) {
        return place + 1;
    }
    place
}

// The signed continuous rate of a discount, in billionths; refused where the discount is 0 or above 1.1.
pub fn of_discount(discount: u64) -> Result<i64, Refusal>
    ensures { rate_of result ≡ continuous_rate_answer discount }
{
    if !limits::is_discount(discount) {
        return Err(Refusal::Discount);
    }
    if discount > ONE {
        return Ok(-((4 * nearest_below(discount)) as i64));
    }
    Ok((4 * nearest_above(discount)) as i64)
}
