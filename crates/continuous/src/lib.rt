// The discount of an amount by continuous compounding: the exponential series at a quarter of the amount, squared twice.
#![tactic(auto)]

ghost use Rattle.std.specs.Prelude.{◌≡◌, ◌≤◌};
ghost use Rattle.arithmetic.specs.Refusals.{answer_of};
ghost use Rattle.continuous.specs.Continuous.{fourth_power, quotient_answer, continuous_answer};

use arithmetic::{ONE, Refusal};

// Squares of numbers up to this one have 64 bits.
const HALF_WORD: u64 = 4_294_967_295;

// Squared twice, each time divided by one, down. The second square can need 66 bits: then it is taken in two parts.
fn fourth_power(series: u64) -> u64
    requires { series ≤ 2720000000 }
    ensures { result ≡ fourth_power series }
{
    let square = series * series / ONE;
    if square <= HALF_WORD {
        return square * square / ONE;
    }
    let whole = square / ONE;
    let part = square % ONE;
    whole * whole * ONE + 2 * whole * part + part * part / ONE
}

// The discount of four times the quotient, below zero or not; refused beyond the limit.
pub fn discount_of_quotient(quotient: u64, below: bool) -> Result<u64, Refusal>
    ensures { answer_of result ≡ quotient_answer quotient below }
{
    if ONE < quotient {
        return Err(Refusal::Quote);
    }
    // The series at the quotient is the factor of a node next to the middle one.
    let series = factor::factor(1, below, quotient).unwrap();
    Ok(fourth_power(series))
}

// The discount of an amount, before any range test; refused beyond the limit.
pub fn discount(amount: i64) -> Result<u64, Refusal>
    ensures { answer_of result ≡ continuous_answer amount }
{
    let size = arithmetic::magnitude(amount);
    if 4_000_000_000 < size {
        return Err(Refusal::Quote);
    }
    discount_of_quotient(size / 4, amount < 0)
}
