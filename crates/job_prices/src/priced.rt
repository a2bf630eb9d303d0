// The prices of a tree whose discounts are lent.
ghost use Rattle.std.specs.Prelude.{◌≡◌, ◌≤◌};
ghost use Rattle.arithmetic.specs.Refusals.{cause_of};
ghost use Rattle.job_record.specs.Form.{most_dates};
ghost use Rattle.price_laws.specs.Prices.{bond_price};
ghost use Rattle.job_laws.specs.JobPrices.{refused_prices, prices_of, option_form, tagged_option};
ghost use Rattle.job_laws.specs.inside.TreePrices.{tree_prices};

use arithmetic::Refusal;
use job_laws::JobPrices;
use job_record::OptionRecord;
use price_laws::{BondAndOption, Price};

fn no_price() -> Price
    ensures { result ≡ record { number = 0; value = 0; bound = 0 } }
{
    Price {
        number: 0,
        value: 0,
        bound: 0,
    }
}

pub(crate) fn refused(number: u64) -> JobPrices
    ensures { result ≡ refused_prices number }
{
    JobPrices {
        number,
        bond: no_price(),
        has_option: false,
        option: no_price(),
    }
}

fn prices_of(number: u64, bond: Price, has_option: bool, option: Price) -> JobPrices
    ensures { result ≡ prices_of number bond has_option option }
{
    if number != 0 {
        return refused(number);
    }
    JobPrices {
        number: 0,
        bond,
        has_option,
        option,
    }
}

// Whether a record's option has a form that a job's bytes give; the job is refused for another tag or number of dates.
pub(crate) fn option_form(tag: u64, count: usize) -> Result<(), Refusal>
    ensures { cause_of result ≡ option_form tag count }
{
    if job_record::MOST_DATES < count {
        return Err(Refusal::Job);
    }
    if tag == 0 {
        return Ok(());
    }
    if tag == 8 {
        return Ok(());
    }
    if tag == 10 {
        return Ok(());
    }
    Err(Refusal::Job)
}

// The bond and the option on it, by the option's tag.
fn both_of(
    steps: usize,
    reversion: u64,
    discounts: &[u64],
    flows: &[u64],
    option: OptionRecord,
) -> BondAndOption
    requires { option.count ≤ most_dates }
    ensures bond { result.bond ≡ bond_price steps reversion discounts.now flows.now }
    ensures option { result.option ≡ tagged_option steps reversion discounts.now flows.now option }
{
    let kind = option.kind;
    let strike = option.strike;
    if option.tag == 8 {
        let expiry = option.expiry as usize;
        return pricing::bond_and_option(steps, reversion, discounts, flows, kind, expiry, strike);
    }
    let dates = option.dates;
    let count = option.count;
    pricing::bond_and_dated_option(
        steps,
        reversion,
        discounts,
        flows,
        kind,
        &dates[..count],
        strike,
    )
}

// The bond and, where there is one, the option, whose number then decides.
pub(crate) fn tree_prices(
    steps: usize,
    reversion: u64,
    discounts: &[u64],
    flows: &[u64],
    option: OptionRecord,
) -> JobPrices
    requires { option.count ≤ most_dates }
    ensures { result ≡ tree_prices steps reversion discounts.now flows.now option }
{
    if option.tag == 0 {
        let bond = pricing::bond_price(steps, reversion, discounts, flows);
        return prices_of(bond.number, bond, false, no_price());
    }
    let both = both_of(steps, reversion, discounts, flows, option);
    prices_of(both.option.number, both.bond, true, both.option)
}
