// The spacing of the nodes.
#![tactic(auto)]

ghost use Rattle.std.specs.Prelude.{◌≡◌, ◌+◌, ◌*◌, ◌≤◌, ◌<◌};
ghost use Rattle.arithmetic.specs.Refusals.{answer_of};
ghost use Rattle.spacing.specs.Spacing.{spacing_answer, version_spacing_answer};

use arithmetic::Refusal;

// The spacing of the nodes by version, for a listed number of steps a year, a yearly volatility in millionths and a reversion in
// ten-thousandths a step; refused for another number of steps, beyond the limits or for another version.
pub fn version_spacing(
    version: u64,
    frequency: u64,
    volatility: u64,
    reversion: u64,
) -> Result<u64, Refusal>
    ensures { answer_of result ≡ version_spacing_answer version frequency volatility reversion }
{
    if !arithmetic::is_frequency(frequency) {
        return Err(Refusal::Frequency);
    }
    if limits::MOST_REVERSION < reversion {
        return Err(Refusal::Reversion);
    }
    if 50_000 < volatility {
        return Err(Refusal::Volatility);
    }
    let ratio = reversion::variance_ratio(version, reversion)?;
    // 3 × (1,000 s)² × c / one, without the powers of ten that it shares.
    let variance = 3 * (volatility * volatility) * ratio / 1_000;
    let cube = frequency * frequency * frequency;
    Ok((variance / cube).isqrt())
}

// The spacing of version 1, for which the reversion does not count.
pub fn spacing(frequency: u64, volatility: u64) -> Result<u64, Refusal>
    ensures { answer_of result ≡ spacing_answer frequency volatility }
{
    version_spacing(1, frequency, volatility, 0)
}
