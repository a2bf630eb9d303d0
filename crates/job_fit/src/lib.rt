// A job's record handed to the conversion of quotes and to the fit.
#![tactic(auto)]

mod columns;

ghost use Rattle.std.specs.Prelude.{◌≡◌, length};
ghost use Rattle.arithmetic.specs.Refusals.{cause_of};
ghost use Rattle.fitted_laws.specs.Entry.{fit_memory};
ghost use Rattle.job_laws.specs.RecordFit.{
  meant_version,
  meant_reversion,
  record_quotes,
  record_fit,
  job_quotes,
  job_discounts,
  job_state_prices,
  memory_after,
};

use arithmetic::Refusal;
use job_record::Job;

// The version that a record means, with 0 where it has none.
fn meant_version(version: u64) -> u64
    ensures { result ≡ meant_version version }
{
    if version == 0 { 1 } else { version }
}

// What stands for the reversion of a record in rows, branching and prices.
pub fn meant_reversion(version: u64, reversion: u64) -> u64
    ensures { result ≡ meant_reversion version reversion }
{
    reversion::working_or_same(meant_version(version), reversion)
}

// The quoted discounts of rows 1 to n at the start of the lent memory. 1 a record with more than 255 steps; then the causes of the conversion.
// A refusal leaves the memory as it was.
pub fn quotes_of_record(job: Job, quotes: &mut [u64]) -> Result<(), Refusal>
    ensures number { cause_of result ≡ record_quotes job (length quotes.old) }
    ensures memory { quotes.new ≡ memory_after (record_quotes job (length quotes.old)) (job_quotes job) quotes.old }
{
    let steps = job.steps;
    if steps > job_record::MOST_STEPS {
        return Err(Refusal::Job);
    }
    let kinds = job.kinds;
    let patterns = job.figures;
    let rows = columns::rows_of(steps);
    let figures = columns::figures_of(patterns, steps);
    curve::convert(
        job.frequency,
        steps,
        &rows[..steps],
        &kinds[..steps],
        &figures[..steps],
        quotes,
    )
}

// The fit of a record, at the start of both lent memories. 1 a record with more than 255 steps; then the causes of the fit, which leave
// the memories as the fit does.
pub fn fit_of_record(
    job: Job,
    discounts: &mut [u64],
    state_prices: &mut [u64],
) -> Result<(), Refusal>
    ensures number { cause_of result ≡ record_fit job (length discounts.old) (length state_prices.old) }
    ensures discounted { discounts.new ≡ fit_memory
        (record_fit job (length discounts.old) (length state_prices.old))
        (job_discounts job) discounts.old }
    ensures priced { state_prices.new ≡ fit_memory
        (record_fit job (length discounts.old) (length state_prices.old))
        (job_state_prices job) state_prices.old }
{
    let steps = job.steps;
    if steps > job_record::MOST_STEPS {
        return Err(Refusal::Job);
    }
    let kinds = job.kinds;
    let patterns = job.figures;
    let rows = columns::rows_of(steps);
    let figures = columns::figures_of(patterns, steps);
    fitting::fit_version(
        meant_version(job.version),
        job.frequency,
        steps,
        job.reversion,
        job.volatility,
        &rows[..steps],
        &kinds[..steps],
        &figures[..steps],
        discounts,
        state_prices,
    )
}
