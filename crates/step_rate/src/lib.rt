// The rate of one step, with its sign, from the step's discount.
#![tactic(auto)]

ghost use Rattle.std.specs.Prelude.{◌≡◌, ◌*◌, ◌≤◌};
ghost use Rattle.arithmetic.specs.Rounding.{one, nearest};
ghost use Rattle.limits.specs.Limits.{most_discount};
ghost use Rattle.step_rate.specs.StepRate.{rate_of, rate_answer};

use arithmetic::{ONE, Refusal};

// Number 0 with the signed rate in billionths, or refusal 9 with value 0.
#[repr(C)]
#[derive(Drop)]
pub struct Rate {
    pub number: u64,
    pub value: i64,
}

impl From<Result<i64, Refusal>> for Rate {
    ghost from_gives = { λ outcome rate. rate ≡ rate_of outcome };

    fn from(outcome: Result<i64, Refusal>) -> Rate {
        match outcome {
            Ok(value) => Rate { number: 0, value },
            Err(refusal) => Rate {
                number: refusal.number(),
                value: 0,
            },
        }
    }
}

// gap × one / discount, to the nearest.
fn ratio(gap: u64, discount: u64) -> u64
    requires { (1 ≤ discount) × (discount ≤ most_discount) × (gap ≤ one) }
    ensures { result ≡ nearest (gap * one) discount }
{
    (2 * (gap * ONE) + discount) / (2 * discount)
}

// The signed step rate of a discount, in billionths; refused where the discount is 0 or above 1.1.
pub fn of_discount(discount: u64) -> Result<i64, Refusal>
    ensures { rate_of result ≡ rate_answer discount }
{
    if !limits::is_discount(discount) {
        return Err(Refusal::Discount);
    }
    if discount > ONE {
        return Ok(-(ratio(discount - ONE, discount) as i64));
    }
    Ok(ratio(ONE - discount, discount) as i64)
}
