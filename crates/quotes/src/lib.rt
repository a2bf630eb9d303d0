// Quoted points, and the discounts that they give.
#![tactic(auto)]

ghost use Rattle.std.specs.Prelude.{◌≡◌, ◌≤◌, nat_abs};
ghost use Rattle.limits.specs.Limits.{most_steps};
ghost use Rattle.arithmetic.specs.Refusals.{answer_of};
ghost use Rattle.continuous.specs.Continuous.{continuous_answer};
ghost use Rattle.quotes.specs.Quotes.{factor_discount, rate_discount, yield_discount, ranged_answer, figure_answer, quote_answer, kind_answer, lone_answer};

use arithmetic::{ONE, Refusal};

// Quotes exist for rows 1 to 60.
const LAST_ROW: u64 = limits::MOST_STEPS as u64;

// A quoted point: a row number and a figure.
#[repr(C)]
#[derive(Drop)]
pub struct Point {
    pub row: u64,
    pub figure: f64,
}

// A figure by its kind: a discount factor (kind 5), a simple yearly rate (kind 6) or a yearly yield by continuous compounding (kind 9).
#[derive(Drop)]
pub enum Quote {
    DiscountFactor(f64),
    YearlyRate(f64),
    YearlyYield(f64),
}

// A discount within its range.
fn ranged(discount: u64) -> Result<u64, Refusal>
    ensures { answer_of result ≡ ranged_answer discount }
{
    if discount < 100_000_000 {
        return Err(Refusal::Quote);
    }
    if discount > 2_000_000_000 {
        return Err(Refusal::Quote);
    }
    Ok(discount)
}

// The discount of a discount factor.
fn of_factor(figure: f64) -> Result<u64, Refusal>
    ensures { answer_of result ≡ figure_answer figure factor_discount }
{
    let value = figure::billionths(figure)?;
    if value < 0 {
        return Err(Refusal::Quote);
    }
    ranged(value as u64)
}

// The discount of a yearly rate in billionths.
fn of_billionths(frequency: u64, row: u64, rate: i64) -> Result<u64, Refusal>
    requires { (frequency ≤ 12) × (row ≤ most_steps) × (nat_abs rate ≤ 10000000000) }
    ensures { answer_of result ≡ ranged_answer (rate_discount frequency row rate) }
{
    let divisor = (frequency * ONE) as i64 + (row as i64) * rate;
    if divisor <= 0 {
        return Err(Refusal::Quote);
    }
    ranged(ONE * ONE * frequency / (divisor as u64))
}

// The discount of a yearly rate.
fn of_rate(frequency: u64, row: u64, figure: f64) -> Result<u64, Refusal>
    requires { (frequency ≤ 12) × (row ≤ most_steps) }
    ensures { answer_of result ≡ figure_answer figure (rate_discount frequency row) }
{
    let rate = figure::billionths(figure)?;
    of_billionths(frequency, row, rate)
}

// The discount of an amount by continuous compounding.
fn of_amount(amount: i64) -> Result<u64, Refusal>
    ensures { answer_of result ≡ ranged_answer (continuous_answer amount).value }
{
    ranged(continuous::discount(amount)?)
}

// The discount of a yearly yield in billionths. Its amount is rounded down, so away from zero below it.
fn of_yearly(frequency: u64, row: u64, rate: i64) -> Result<u64, Refusal>
    requires { (1 ≤ frequency) × (frequency ≤ 12) × (row ≤ most_steps) × (nat_abs rate ≤ 10000000000) }
    ensures { answer_of result ≡ ranged_answer (yield_discount frequency row rate) }
{
    let size = row * arithmetic::magnitude(rate);
    if rate < 0 {
        return of_amount(-(((size + (frequency - 1)) / frequency) as i64));
    }
    of_amount((size / frequency) as i64)
}

// The discount of a yearly yield.
fn of_yield(frequency: u64, row: u64, figure: f64) -> Result<u64, Refusal>
    requires { (1 ≤ frequency) × (frequency ≤ 12) × (row ≤ most_steps) }
    ensures { answer_of result ≡ figure_answer figure (yield_discount frequency row) }
{
    let rate = figure::billionths(figure)?;
    of_yearly(frequency, row, rate)
}

// The discount of a quote for a row, case by case.
fn of_quote(frequency: u64, row: u64, quote: Quote) -> Result<u64, Refusal>
    requires { (1 ≤ frequency) × (frequency ≤ 12) × (row ≤ most_steps) }
    ensures { answer_of result ≡ quote_answer frequency row quote }
{
    match quote {
        Quote::DiscountFactor(x) => of_factor(x),
        Quote::YearlyRate(x) => of_rate(frequency, row, x),
        Quote::YearlyYield(x) => of_yield(frequency, row, x),
    }
}

// The discount of a point whose kind is told by its number.
fn of_point(frequency: u64, kind: u8, point: Point) -> Result<u64, Refusal>
    requires { (1 ≤ frequency) × (frequency ≤ 12) × (point.row ≤ most_steps) }
    ensures { answer_of result ≡ kind_answer frequency kind point }
{
    let row = point.row;
    let figure = point.figure;
    if kind == 5 {
        return of_quote(frequency, row, Quote::DiscountFactor(figure));
    }
    if kind == 6 {
        return of_quote(frequency, row, Quote::YearlyRate(figure));
    }
    if kind == 9 {
        return of_quote(frequency, row, Quote::YearlyYield(figure));
    }
    Err(Refusal::Quote)
}

// The discount of a lone point. Refusals, the lowest first: the steps a year, the row, then the kind, the figure or the discount. Inside its
// callers its result stays in registers.
#[inline(always)]
pub fn lone_point(frequency: u64, kind: u8, point: Point) -> Result<u64, Refusal>
    ensures { answer_of result ≡ lone_answer frequency kind point }
{
    if !arithmetic::is_frequency(frequency) {
        return Err(Refusal::Frequency);
    }
    let row = point.row;
    if row < 1 {
        return Err(Refusal::LengthOrRow);
    }
    if row > LAST_ROW {
        return Err(Refusal::LengthOrRow);
    }
    of_point(frequency, kind, point)
}
