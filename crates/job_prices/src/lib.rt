// The prices of a job: its bytes or its record in; number, bond and option out, and the tree in lent memory.
#![tactic(auto)]

mod memories;
mod priced;

ghost use Rattle.std.specs.Prelude.{◌≡◌, length};
ghost use Rattle.job_laws.specs.RecordFit.{job_discounts, job_state_prices, memory_after};
ghost use Rattle.job_record.specs.Reader.{reading_of};
ghost use Rattle.job_laws.specs.JobPrices.{record_number, record_prices, fitted_memory, bytes_number, bytes_prices, bytes_memory};

use job_laws::JobPrices;
use job_record::Job;

// The prices of a record whose tree is fitted and priced in the lent memories themselves. 1 a record that no job's bytes give, by its steps or its
// option's form; then the lowest of the causes of its fit and of 6 for a memory that is too short; then the option's number where there is an option,
// else the bond's. The memories are as the fit leaves them, also where a price is refused.
pub fn prices_in_place(job: Job, discounts: &mut [u64], state_prices: &mut [u64]) -> JobPrices
    ensures answer { result ≡ record_prices job (length discounts.old) (length state_prices.old) }
    ensures discounted { discounts.new ≡ fitted_memory job
        (length discounts.old) (length state_prices.old) (job_discounts job) discounts.old }
    ensures priced { state_prices.new ≡ fitted_memory job
        (length discounts.old) (length state_prices.old) (job_state_prices job) state_prices.old }
{
    let option = job.option;
    if let Err(refusal) = priced::option_form(option.tag, option.count) {
        return priced::refused(refusal.number());
    }
    if let Err(refusal) = job_fit::fit_of_record(job, discounts, state_prices) {
        return priced::refused(refusal.number());
    }
    let steps = job.steps;
    let reversion = job_fit::meant_reversion(job.version, job.reversion);
    let flows = job.flows;
    let count = lattice::discounts_needed(steps, reversion).unwrap();
    priced::tree_prices(
        steps,
        reversion,
        &discounts[..count as usize],
        &flows[..steps],
        option,
    )
}

// The prices of a record, its tree at the start of both lent memories. Numbers as above; any refusal leaves both memories as they were, so that the
// tree is fitted and priced apart where they are long enough. Where one is too short, the fit refuses before it writes.
pub fn prices_of_record(job: Job, discounts: &mut [u64], state_prices: &mut [u64]) -> JobPrices
    ensures answer { result ≡ record_prices job (length discounts.old) (length state_prices.old) }
    ensures discounted { discounts.new ≡ memory_after
        (record_number job (length discounts.old) (length state_prices.old)) (job_discounts job) discounts.old }
    ensures priced { state_prices.new ≡ memory_after
        (record_number job (length discounts.old) (length state_prices.old)) (job_state_prices job) state_prices.old }
{
    let steps = job.steps;
    let working = job_fit::meant_reversion(job.version, job.reversion);
    let memory = lattice::memory_cause(steps, working, discounts.len(), state_prices.len());
    if memory.is_err() {
        return prices_in_place(job, discounts, state_prices);
    }
    let mut fitted_discounts = limits::discount_room();
    let mut fitted_prices = limits::state_price_room();
    let prices = prices_in_place(job, &mut fitted_discounts, &mut fitted_prices);
    if prices.number != 0 {
        return prices;
    }
    let discount_count = lattice::discounts_needed(steps, working).unwrap();
    let price_count = lattice::state_prices_needed(steps, working).unwrap();
    memories::place(&fitted_discounts[..discount_count as usize], discounts);
    memories::place(&fitted_prices[..price_count as usize], state_prices);
    prices
}

// The prices of a job's bytes: 1 where they are no job's, then as for its record.
pub fn prices_of_job(job: &[u8], discounts: &mut [u64], state_prices: &mut [u64]) -> JobPrices
    ensures answer { result ≡ bytes_prices job.now (length discounts.old) (length state_prices.old) }
    ensures discounted { discounts.new ≡ memory_after
        (bytes_number job.now (length discounts.old) (length state_prices.old))
        (job_discounts (reading_of job.now).job) discounts.old }
    ensures priced { state_prices.new ≡ memory_after
        (bytes_number job.now (length discounts.old) (length state_prices.old))
        (job_state_prices (reading_of job.now).job) state_prices.old }
{
    let reading = job_reader::read(job);
    if reading.number != 0 {
        return priced::refused(reading.number);
    }
    prices_of_record(reading.job, discounts, state_prices)
}

// The same in the lent memories themselves, which are as they were where the bytes are no job's, and as the fit of its record leaves them otherwise.
pub fn job_in_place(job: &[u8], discounts: &mut [u64], state_prices: &mut [u64]) -> JobPrices
    ensures answer { result ≡ bytes_prices job.now (length discounts.old) (length state_prices.old) }
    ensures discounted { discounts.new ≡ bytes_memory job.now
        (length discounts.old) (length state_prices.old) job_discounts discounts.old }
    ensures priced { state_prices.new ≡ bytes_memory job.now
        (length discounts.old) (length state_prices.old) job_state_prices state_prices.old }
{
    let read = job_reader::read(job);
    if read.number != 0 {
        return priced::refused(read.number);
    }
    prices_in_place(read.job, discounts, state_prices)
}
