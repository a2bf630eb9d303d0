// Rounding, sums and rows that every layer shares, answers with their causes, the powers of ten, and tests of slices.
#![tactic(auto)]

ghost use Rattle.std.specs.Prelude.{◌≡◌, ◌<◌, ◌≤◌, ◌^◌, max, nat_abs, length};
ghost use Rattle.arithmetic.specs.Sum.{greatest};
ghost use Rattle.arithmetic.specs.Row.{values, greatest_of, each, between};
ghost use Rattle.arithmetic.specs.Power.{power_of_ten};
ghost use Rattle.arithmetic.specs.Frequency.{is_frequency};
ghost use Rattle.arithmetic.specs.Answers.{lowest_cause};
ghost use Rattle.arithmetic.specs.Refusals.{number_of, cause_of, answer_of};

// One, in billionths.
pub const ONE: u64 = 1_000_000_000;

// Why a call is refused, in the order of the numbers that a desk sees, 1 to 19.
#[derive(Clone, Copy, Debug, PartialEq, Eq, PartialOrd, Ord)]
pub enum Refusal {
    Job,
    Frequency,
    Steps,
    Reversion,
    Volatility,
    LengthOrRow,
    Quote,
    Spacing,
    Discount,
    Flow,
    Option,
    Value,
    Dates,
    Nodes,
    Name,
    Band,
    NoBand,
    SeveralBands,
    PairSteps,
}

impl Refusal {
    // The number that stands for it outside the engine.
    pub fn number(self) -> u64
        ensures { result ≡ number_of self }
    {
        match self {
            Refusal::Job => 1,
            Refusal::Frequency => 2,
            Refusal::Steps => 3,
            Refusal::Reversion => 4,
            Refusal::Volatility => 5,
            Refusal::LengthOrRow => 6,
            Refusal::Quote => 7,
            Refusal::Spacing => 8,
            Refusal::Discount => 9,
            Refusal::Flow => 10,
            Refusal::Option => 11,
            Refusal::Value => 12,
            Refusal::Dates => 13,
            Refusal::Nodes => 14,
            Refusal::Name => 15,
            Refusal::Band => 16,
            Refusal::NoBand => 17,
            Refusal::SeveralBands => 18,
            Refusal::PairSteps => 19,
        }
    }
}

// The number of what was refused, or 0.
pub fn cause<A: Copy>(outcome: Result<A, Refusal>) -> u64
    ensures { result ≡ cause_of outcome }
{
    match outcome {
        Ok(_) => 0,
        Err(refusal) => refusal.number(),
    }
}

// The refusal that comes first, the lower number's, of two tests.
pub fn lowest_refusal<A: Copy, B: Copy>(
    a: Result<A, Refusal>,
    b: Result<B, Refusal>,
) -> Result<(), Refusal>
    ensures { cause_of result ≡ lowest_cause (cause_of a) (cause_of b) }
{
    let Err(first) = a else {
        return match b {
            Ok(_) => Ok(()),
            Err(second) => Err(second),
        };
    };
    let Err(second) = b else {
        return Err(first);
    };
    Err(if first.number() < second.number() {
        first
    } else {
        second
    })
}

// An answer that can be a refusal: number 0 with the value, or the refusal's number with value 0.
#[repr(C)]
#[derive(Drop)]
pub struct Answer {
    pub number: u64,
    pub value: u64,
}

impl From<Result<u64, Refusal>> for Answer {
    ghost from_gives = { λ result answer. answer ≡ answer_of result };

    fn from(outcome: Result<u64, Refusal>) -> Answer {
        match outcome {
            Ok(value) => Answer { number: 0, value },
            Err(refusal) => Answer {
                number: refusal.number(),
                value: 0,
            },
        }
    }
}

// 10^0 to 10^18.
const POWERS_OF_TEN: [u64; 19] = [
    1,
    10,
    100,
    1_000,
    10_000,
    100_000,
    1_000_000,
    10_000_000,
    100_000_000,
    1_000_000_000,
    10_000_000_000,
    100_000_000_000,
    1_000_000_000_000,
    10_000_000_000_000,
    100_000_000_000_000,
    1_000_000_000_000_000,
    10_000_000_000_000_000,
    100_000_000_000_000_000,
    1_000_000_000_000_000_000,
];

fn table_entry(exponent: usize) -> u64
    requires { exponent < 19 }
    ensures { result ≡ 10 ^ exponent }
{
    POWERS_OF_TEN[exponent]
}

// The power of ten with this exponent, or 0 where the table has none.
pub fn power_of_ten(exponent: usize) -> u64
    ensures { result ≡ power_of_ten exponent }
{
    if exponent < 19 {
        table_entry(exponent)
    } else {
        0
    }
}

// Whether the steps a year are 1, 2, 4 or 12.
pub fn is_frequency(frequency: u64) -> bool
    ensures { result ≡ is_frequency frequency }
{
    if frequency == 1 {
        return true;
    }
    if frequency == 2 {
        return true;
    }
    if frequency == 4 {
        return true;
    }
    frequency == 12
}

// The lowest of two causes; 0 stands for none.
pub fn lowest_cause(a: u64, b: u64) -> u64
    ensures { result ≡ lowest_cause a b }
{
    if a == 0 {
        return b;
    }
    if b == 0 {
        return a;
    }
    if a < b { a } else { b }
}

// The size of a number with a sign.
pub fn magnitude(number: i64) -> u64
    ensures { result ≡ nat_abs number }
{
    // The one number whose negation an i64 does not hold.
    if number < -9_223_372_036_854_775_807 {
        return 9_223_372_036_854_775_808;
    }
    if number < 0 {
        let size = 0 - number;
        return size as u64;
    }
    number as u64
}

// The larger of two numbers.
pub fn larger(x: u64, y: u64) -> u64
    ensures { result ≡ max x y }
{
    if x < y { y } else { x }
}

// The next place with a number above the greatest so far; the length where there is none.
fn next_above(xs: &[u64], best: u64, from: usize) -> usize
    requires { (from ≤ length xs.now) × (best ≡ greatest from (values xs.now)) }
    ensures { (from ≤ result) × (result ≤ length xs.now) × (best ≡ greatest result (values xs.now)) }
{
    for k in from..xs.len() {
        if best < xs[k] {
            return k;
        }
    }
    xs.len()
}

// The greatest of a row, 0 where it is empty. A search between the few places where it grows costs less than a choice at each.
pub fn greatest_of(xs: &[u64]) -> u64
    ensures { result ≡ greatest_of xs.now }
{
    let mut best: u64 = 0;
    let mut k: usize = 0;
    while k < xs.len() {
        let x = xs[k];
        if best < x {
            best = x;
        }
        k = next_above(xs, best, k + 1);
    }
    best
}

// Whether each number of a slice is from low to high.
pub fn all_between(low: u64, high: u64, xs: &[u64]) -> bool
    ensures { result ≡ each (length xs.now) (between low high (values xs.now)) }
{
    for x in xs {
        if *x < low {
            return false;
        }
        if high < *x {
            return false;
        }
    }
    true
}
