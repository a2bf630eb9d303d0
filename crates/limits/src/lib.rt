// The limits of steps, reversions, discounts and values, tested in one place, and memories of the widest tree.
#![tactic(auto)]

ghost use Rattle.std.specs.Prelude.{◌≡◌, length};
ghost use Rattle.limits.specs.Limits.{most_discounts, most_state_prices, is_steps, is_reversion, is_discount, shape_cause, limit_cause};
ghost use Rattle.arithmetic.specs.Refusals.{cause_of};

use arithmetic::Refusal;

pub const MOST_STEPS: usize = 60;

// Row 0 and a row after each step.
pub const MOST_ROWS: usize = MOST_STEPS + 1;

pub const MOST_REVERSION: u64 = 6_000;

pub const MOST_DISCOUNT: u64 = 1_100_000_000;

pub const VALUE_LIMIT: u64 = 8_000_000_000;

pub const MOST_NODES: usize = 121;

pub const MOST_DISCOUNTS: usize = 3_600;

pub const MOST_STATE_PRICES: usize = 3_721;

// Whether the steps are 1 to 60.
pub fn is_steps(steps: usize) -> bool
    ensures { result ≡ is_steps steps }
{
    if steps < 1 {
        return false;
    }
    steps <= MOST_STEPS
}

// Whether the reversion is at most 6,000.
pub fn is_reversion(reversion: u64) -> bool
    ensures { result ≡ is_reversion reversion }
{
    reversion <= MOST_REVERSION
}

// Whether a number is a node discount, 1 to 1,100,000,000.
pub fn is_discount(discount: u64) -> bool
    ensures { result ≡ is_discount discount }
{
    if discount < 1 {
        return false;
    }
    discount <= MOST_DISCOUNT
}

// Whether steps and reversion are those of a tree.
pub fn shape_cause(steps: usize, reversion: u64) -> Result<(), Refusal>
    ensures { cause_of result ≡ shape_cause steps reversion }
{
    if !is_steps(steps) {
        return Err(Refusal::Steps);
    }
    if !is_reversion(reversion) {
        return Err(Refusal::Reversion);
    }
    Ok(())
}

// Whether a value is at most 8.
pub fn limit_cause(value: u64) -> Result<(), Refusal>
    ensures { cause_of result ≡ limit_cause value }
{
    if VALUE_LIMIT < value {
        Err(Refusal::Value)
    } else {
        Ok(())
    }
}

// Room for the discounts of the widest tree.
pub fn discount_room() -> [u64; MOST_DISCOUNTS]
    ensures { length result ≡ most_discounts }
{
    [0; MOST_DISCOUNTS]
}

// Room for the state prices of the widest tree.
pub fn state_price_room() -> [u64; MOST_STATE_PRICES]
    ensures { length result ≡ most_state_prices }
{
    [0; MOST_STATE_PRICES]
}
