// The prices of a job in a field, its tree left in the lent memories, which hold every tree.
ghost use Rattle.std.specs.Prelude.{◌≡◌};
ghost use Rattle.limits.specs.Limits.{most_discounts, most_state_prices};
ghost use Rattle.job_laws.specs.RecordFit.{job_discounts, job_state_prices};
ghost use Rattle.job_laws.specs.JobPrices.{bytes_memory};
ghost use Rattle.book_laws.specs.Bounds.{job_prices};

use job_laws::JobPrices;

pub(crate) fn prices_of(
    job: &[u8],
    discounts: &mut [u64; limits::MOST_DISCOUNTS],
    state_prices: &mut [u64; limits::MOST_STATE_PRICES],
) -> JobPrices
    ensures answer { result ≡ job_prices job.now }
    ensures discounted { discounts.new ≡ bytes_memory job.now most_discounts most_state_prices job_discounts discounts.old }
    ensures priced { state_prices.new
        ≡ bytes_memory job.now most_discounts most_state_prices job_state_prices state_prices.old }
{
    job_prices::job_in_place(job, discounts, state_prices)
}
