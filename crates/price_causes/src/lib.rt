// Causes of refusal about a bond's flows and about an option.
#![tactic(auto)]

ghost use Rattle.std.specs.Prelude.{◌≡◌};
ghost use Rattle.arithmetic.specs.Refusals.{cause_of};
ghost use Rattle.price_causes.specs.Causes.{flows_cause, option_cause, terms_cause};

use arithmetic::Refusal;

const MOST_STRIKE: u64 = 4_000_000_000;

// The cause about flows: 6 where they are not as many as the steps, then 10 for one above its limit.
pub fn flows_cause(steps: usize, flows: &[u64]) -> Result<(), Refusal>
    ensures { cause_of result ≡ flows_cause steps flows.now }
{
    if flows.len() != steps {
        return Err(Refusal::LengthOrRow);
    }
    if !arithmetic::all_between(0, 2_000_000_000, flows) {
        return Err(Refusal::Flow);
    }
    Ok(())
}

// The cause about an option's kind, expiry and strike.
pub fn option_cause(steps: usize, kind: u64, expiry: usize, strike: u64) -> Result<(), Refusal>
    ensures { cause_of result ≡ option_cause steps kind expiry strike }
{
    if kind < 1 {
        return Err(Refusal::Option);
    }
    if 4 < kind {
        return Err(Refusal::Option);
    }
    if steps <= expiry {
        return Err(Refusal::Option);
    }
    if MOST_STRIKE < strike {
        return Err(Refusal::Option);
    }
    Ok(())
}

// The cause about a dated option's side and strike.
pub fn terms_cause(side: u64, strike: u64) -> Result<(), Refusal>
    ensures { cause_of result ≡ terms_cause side strike }
{
    if side < 1 {
        return Err(Refusal::Option);
    }
    if 2 < side {
        return Err(Refusal::Option);
    }
    if MOST_STRIKE < strike {
        return Err(Refusal::Option);
    }
    Ok(())
}
