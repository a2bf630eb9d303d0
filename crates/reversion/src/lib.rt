// The reversion by version: what stands for b in rows, branching and prices, and the ratio of the variance of a step.
#![tactic(auto)]

ghost use Rattle.std.specs.Prelude.{◌≡◌, ◌≤◌, ◌<◌, pos};
ghost use Rattle.arithmetic.specs.Rounding.{one};
ghost use Rattle.arithmetic.specs.Refusals.{answer_of};
ghost use Rattle.limits.specs.Limits.{most_reversion};
ghost use Rattle.continuous.specs.Continuous.{amount_limit, continuous_discount};
ghost use Rattle.reversion.specs.Reversion.{
  is_version,
  exact_reversion,
  working_reversion,
  variance_ratio,
  working_answer,
  ratio_answer,
};

use arithmetic::{ONE, Refusal};

// Whether there is such a version.
pub fn is_version(version: u64) -> bool
    ensures { result ≡ is_version version }
{
    if version == 1 {
        return true;
    }
    version == 2
}

// The discount of an amount of at most 4 × one, by continuous compounding.
fn discount(amount: u64) -> u64
    requires { amount ≤ amount_limit }
    ensures { (result ≡ continuous_discount (pos amount)) × (result ≤ one) }
{
    continuous::discount_of_quotient(amount / 4, false).unwrap()
}

fn exact_reversion(reversion: u64) -> u64
    requires { reversion ≤ most_reversion }
    ensures { result ≡ exact_reversion reversion }
{
    let lost = ONE - discount(100_000 * reversion);
    (10_000 * lost + ONE / 2) / ONE
}

fn exact_ratio(reversion: u64) -> u64
    requires { (0 < reversion) × (reversion ≤ most_reversion) }
    ensures { result ≡ variance_ratio reversion }
{
    let twice = 200_000 * reversion;
    ONE * (ONE - discount(twice)) / twice
}

// What stands for the reversion in rows, branching and prices: the reversion itself unless the version is 2 and the reversion within its limit.
pub fn working_or_same(version: u64, reversion: u64) -> u64
    ensures { result ≡ working_reversion version reversion }
{
    if version != 2 {
        return reversion;
    }
    if limits::MOST_REVERSION < reversion {
        return reversion;
    }
    exact_reversion(reversion)
}

// The same, refused beyond the limit or for another version.
pub fn working_reversion(version: u64, reversion: u64) -> Result<u64, Refusal>
    ensures { answer_of result ≡ working_answer version reversion }
{
    if limits::MOST_REVERSION < reversion {
        return Err(Refusal::Reversion);
    }
    if !is_version(version) {
        return Err(Refusal::Quote);
    }
    Ok(working_or_same(version, reversion))
}

// The variance of a step over that of version 1, in billionths; refused beyond the limit or for another version.
pub fn variance_ratio(version: u64, reversion: u64) -> Result<u64, Refusal>
    ensures { answer_of result ≡ ratio_answer version reversion }
{
    if limits::MOST_REVERSION < reversion {
        return Err(Refusal::Reversion);
    }
    if !is_version(version) {
        return Err(Refusal::Quote);
    }
    if version == 1 {
        return Ok(ONE);
    }
    if reversion == 0 {
        return Ok(ONE);
    }
    Ok(exact_ratio(reversion))
}
