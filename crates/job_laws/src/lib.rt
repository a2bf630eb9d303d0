// The prices of a job, laid out for C, with the definitions and laws of what a job's fit and prices are. No code: the entries are in job_fit and job_prices.
#![tactic(auto)]

use price_laws::Price;

// The prices of a job: number 0 with the bond and, where the job has one, the option; a refusal's number with zeros.
#[repr(C)]
#[derive(Clone, Copy)]
pub struct JobPrices {
    pub number: u64,
    pub bond: Price,
    pub has_option: bool,
    pub option: Price,
}
