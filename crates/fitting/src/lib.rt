// The fit of a rate tree to quoted discounts.
#![tactic(auto)]

mod causes;
mod rows;
mod step;
mod tables;

ghost use Rattle.std.specs.Prelude.{◌≡◌, length};
ghost use Rattle.fitting.specs.inside.Plans.{SpacingKnown};
ghost use Rattle.arithmetic.specs.Refusals.{cause_of, answer_of};
ghost use Rattle.fitted_laws.specs.Entry.{
  fitted_number,
  fit_memory,
  fit_discounts,
  fit_state_prices,
  fit_number,
  discounts_after,
  state_prices_after,
  version_number,
  version_discounts_after,
  version_state_prices_after,
};

use arithmetic::Refusal;
use tables::Grid;

// Fits a tree of a working reversion and a spacing.
fn fit_tree(
    frequency: u64,
    steps: usize,
    reversion: u64,
    spaced: Result<u64, Refusal>,
    rows: &[u64],
    kinds: &[u8],
    figures: &[f64],
    discounts: &mut [u64],
    state_prices: &mut [u64],
) -> Result<(), Refusal>
    requires { SpacingKnown (answer_of spaced) }
    ensures number { cause_of result ≡ fitted_number frequency steps reversion (answer_of spaced).number (answer_of spaced).value
        rows.now kinds.now figures.now (length discounts.old) (length state_prices.old) }
    ensures discounted { discounts.new ≡ fit_memory (fitted_number frequency steps reversion (answer_of spaced).number (answer_of spaced).value
        rows.now kinds.now figures.now (length discounts.old) (length state_prices.old))
        (fit_discounts frequency steps reversion (answer_of spaced).value kinds.now figures.now) discounts.old }
    ensures priced { state_prices.new ≡ fit_memory (fitted_number frequency steps reversion (answer_of spaced).number (answer_of spaced).value
        rows.now kinds.now figures.now (length discounts.old) (length state_prices.old))
        (fit_state_prices frequency steps reversion (answer_of spaced).value kinds.now figures.now) state_prices.old }
{
    let mut quotes = [0u64; limits::MOST_STEPS];
    let converted = curve::convert(frequency, steps, rows, kinds, figures, &mut quotes);
    let plan = causes::plan_of(
        steps,
        reversion,
        spaced,
        converted,
        discounts.len(),
        state_prices.len(),
    )?;
    let grid = Grid {
        reversion: reversion,
        spacing: plan.spacing,
        widest: plan.widest,
    };
    tables::fit_quotes(grid, &quotes[..steps], discounts, state_prices)
}

// Fits a tree: discounts of rows 0 to n - 1 and state prices of rows 0 to n at the start of the two memories, row after row.
// 2 the steps a year, 3 the steps, 4 the reversion, 5 the volatility, 6 the quotes' number or place or a memory too short,
// 7 a quote, 8 nodes too far apart, 9 a node discount: then zeros in the needed parts. Any other refusal leaves both memories.
pub fn fit(
    frequency: u64,
    steps: usize,
    reversion: u64,
    volatility: u64,
    rows: &[u64],
    kinds: &[u8],
    figures: &[f64],
    discounts: &mut [u64],
    state_prices: &mut [u64],
) -> Result<(), Refusal>
    ensures number { cause_of result ≡ fit_number frequency steps reversion volatility rows.now kinds.now figures.now
        (length discounts.old) (length state_prices.old) }
    ensures discounted { discounts.new ≡ discounts_after frequency steps reversion volatility
        rows.now kinds.now figures.now discounts.old state_prices.old }
    ensures priced { state_prices.new ≡ state_prices_after frequency steps reversion volatility
        rows.now kinds.now figures.now discounts.old state_prices.old }
{
    let spaced = spacing::spacing(frequency, volatility);
    fit_tree(
        frequency,
        steps,
        reversion,
        spaced,
        rows,
        kinds,
        figures,
        discounts,
        state_prices,
    )
}

// The same by version, 1 or 2: rows, branching and prices go by the working reversion. 7 another version, after 6 for memories that are too short
// for the reversion itself.
pub fn fit_version(
    version: u64,
    frequency: u64,
    steps: usize,
    reversion: u64,
    volatility: u64,
    rows: &[u64],
    kinds: &[u8],
    figures: &[f64],
    discounts: &mut [u64],
    state_prices: &mut [u64],
) -> Result<(), Refusal>
    ensures number { cause_of result ≡ version_number version frequency steps reversion volatility
        rows.now kinds.now figures.now (length discounts.old) (length state_prices.old) }
    ensures discounted { discounts.new ≡ version_discounts_after version frequency steps reversion volatility
        rows.now kinds.now figures.now discounts.old state_prices.old }
    ensures priced { state_prices.new ≡ version_state_prices_after version frequency steps reversion volatility
        rows.now kinds.now figures.now discounts.old state_prices.old }
{
    let working = reversion::working_or_same(version, reversion);
    let spaced = spacing::version_spacing(version, frequency, volatility, reversion);
    fit_tree(
        frequency,
        steps,
        working,
        spaced,
        rows,
        kinds,
        figures,
        discounts,
        state_prices,
    )
}
