// The causes 2 to 8 of a fit.

ghost use Rattle.std.specs.Prelude.{◌≡◌};
ghost use Rattle.arithmetic.specs.Refusals.{cause_of, answer_of};
ghost use Rattle.fitting.specs.inside.Plans.{SpacingKnown, Planned, plan_answer};

use arithmetic::Refusal;

// What a fit needs to know of its numbers: the spacing of the nodes, and the half width of the last row with discounts.
#[derive(Clone, Copy)]
pub(crate) struct Plan {
    pub(crate) spacing: u64,
    pub(crate) widest: usize,
}

// `reversion` is the tree's working reversion, `spaced` its spacing, and `converted` tells whether its quotes have discounts.
pub(crate) fn plan_of(
    steps: usize,
    reversion: u64,
    spaced: Result<u64, Refusal>,
    converted: Result<(), Refusal>,
    discounts: usize,
    state_prices: usize,
) -> Result<Plan, Refusal>
    requires { SpacingKnown (answer_of spaced) }
    ensures { Planned steps reversion (cause_of converted) (answer_of spaced).number (answer_of spaced).value discounts state_prices
        (plan_answer result) }
{
    let tree = lattice::discounts_needed(steps, reversion);
    let memory = lattice::memory_cause(steps, reversion, discounts, state_prices);
    arithmetic::lowest_refusal(
        arithmetic::lowest_refusal(converted, tree),
        arithmetic::lowest_refusal(spaced, memory),
    )?;
    let spacing = spaced.unwrap();
    let widest = lattice::half_width(reversion, steps - 1).unwrap();
    if arithmetic::ONE < widest * spacing {
        return Err(Refusal::Spacing);
    }
    Ok(Plan {
        spacing,
        widest: widest as usize,
    })
}
