// A tree whose discounts are lent.
#![tactic(auto)]

ghost use Rattle.std.specs.Prelude.{◌≡◌};
ghost use Rattle.arithmetic.specs.Refusals.{cause_of};
ghost use Rattle.lent_tree.specs.LentTree.{room_cause, discounts_cause};

use arithmetic::Refusal;

// The first cause about a tree's numbers and the room of its lent discounts, which are not looked at.
pub fn room_cause(steps: usize, reversion: u64, discounts: &[u64]) -> Result<(), Refusal>
    ensures { cause_of result ≡ room_cause steps reversion discounts.now }
{
    let needed = lattice::discounts_needed(steps, reversion)?;
    if discounts.len() < needed as usize {
        return Err(Refusal::LengthOrRow);
    }
    Ok(())
}

// The first cause about a tree's numbers and its lent discounts.
pub fn discounts_cause(steps: usize, reversion: u64, discounts: &[u64]) -> Result<(), Refusal>
    ensures { cause_of result ≡ discounts_cause steps reversion discounts.now }
{
    let needed = lattice::discounts_needed(steps, reversion)?;
    let size = needed as usize;
    if discounts.len() < size {
        return Err(Refusal::LengthOrRow);
    }
    if !arithmetic::all_between(1, limits::MOST_DISCOUNT, &discounts[..size]) {
        return Err(Refusal::Discount);
    }
    Ok(())
}
