// Haircut bands: whether a table of bands covers each row and price precisely once.
// A table is five slices of one length: first rows, last rows, lowest prices, highest prices, haircuts.
#![tactic(auto)]

ghost use Rattle.std.specs.Prelude.{◌≡◌, ◌+◌, ◌<◌, ◌≤◌, length, MatchOption};
ghost use Rattle.arithmetic.specs.Row.{values};
ghost use Rattle.limits.specs.Limits.{most_steps, value_limit};
ghost use Rattle.bands.specs.Bands.{sound, bands_of, bad_index, failing_price, failing_row, pairs_verdict, same_lengths, verdict};
ghost use Rattle.bands.specs.Faults.{fault_verdict, result_verdict};
ghost use Rattle.bands.specs.inside.Lists.{Parallel};
ghost use Rattle.bands.specs.Stops.{Added};
ghost use Rattle.bands.specs.inside.Stops.{StopAt};

use arithmetic::Refusal;

// The price after the highest.
const END: u64 = limits::VALUE_LIMIT + 1;

// The last row that a bond may have.
pub const LAST_ROW: u64 = limits::MOST_STEPS as u64;

const MOST_BANDS: usize = 40;

// The place that a refusal shows where only the number of bands is wrong.
const TOO_MANY: u64 = MOST_BANDS as u64 + 1;

// All of a price, in ten-thousandths.
pub const MOST_HAIRCUT: u64 = 10_000;

// Why a table is not accepted: a refusal that no band decides; the place of the first bad band, counted from 1 (41 where only the number of
// bands is wrong); or the first failing pair, which is in no band or in several.
#[derive(Clone, Copy, Debug, PartialEq, Eq)]
pub enum Fault {
    Refused(Refusal),
    BadBand(u64),
    NoBand { row: u64, price: u64 },
    SeveralBands { row: u64, price: u64 },
}

// The answer to a table: 0 where it is accepted, else the number of the refusal, with the first failing pair (17 in no band,
// 18 in two or more) or the place of the first bad band, counted from 1 (16; 41 where only the number of bands is wrong).
#[repr(C)]
#[derive(Drop)]
pub struct Verdict {
    pub number: u64,
    pub row: u64,
    pub price: u64,
    pub place: u64,
}

impl From<Fault> for Verdict {
    ghost from_gives = { λ fault verdict. verdict ≡ fault_verdict fault };

    fn from(fault: Fault) -> Verdict {
        match fault {
            Fault::Refused(refusal) => Verdict {
                number: refusal.number(),
                row: 0,
                price: 0,
                place: 0,
            },
            Fault::BadBand(place) => Verdict {
                number: 16,
                row: 0,
                price: 0,
                place,
            },
            Fault::NoBand { row, price } => Verdict {
                number: 17,
                row,
                price,
                place: 0,
            },
            Fault::SeveralBands { row, price } => Verdict {
                number: 18,
                row,
                price,
                place: 0,
            },
        }
    }
}

impl From<Result<(), Fault>> for Verdict {
    ghost from_gives = { λ outcome verdict. verdict ≡ result_verdict outcome };

    fn from(outcome: Result<(), Fault>) -> Verdict {
        match outcome {
            Ok(()) => Verdict {
                number: 0,
                row: 0,
                price: 0,
                place: 0,
            },
            Err(fault) => Verdict::from(fault),
        }
    }
}

// How many bands contain a price of a row, and the next price at which that may change.
#[derive(Drop)]
struct Stop {
    covering: u64,
    next: u64,
}

// A stop with one band more.
fn add_band(stop: Stop, first: u64, last: u64, low: u64, high: u64, row: u64, price: u64) -> Stop
    requires { (stop.covering < 18446744073709551615) × (price < stop.next) × (stop.next ≤ value_limit + 1) }
    ensures { Added first last low high row price stop.covering stop.next result.covering result.next }
{
    if row < first {
        return stop;
    }
    if last < row {
        return stop;
    }
    if price < low {
        if stop.next <= low {
            return stop;
        }
        return Stop {
            covering: stop.covering,
            next: low,
        };
    }
    if high < price {
        return stop;
    }
    if high < stop.next {
        return Stop {
            covering: stop.covering + 1,
            next: high + 1,
        };
    }
    Stop {
        covering: stop.covering + 1,
        next: stop.next,
    }
}

// The bands that contain the pair, and the next price at which their number may change.
fn stop_at(
    firsts: &[u64],
    lasts: &[u64],
    lowests: &[u64],
    highests: &[u64],
    row: u64,
    price: u64,
) -> Stop
    requires { Parallel firsts.now lasts.now lowests.now highests.now × (price < value_limit + 1) }
    ensures { StopAt (bands_of firsts.now lasts.now lowests.now highests.now) row price
        (length firsts.now) result.covering result.next }
{
    let mut stop = Stop {
        covering: 0,
        next: END,
    };
    for k in 0..firsts.len() {
        stop = add_band(
            stop,
            firsts[k],
            lasts[k],
            lowests[k],
            highests[k],
            row,
            price,
        );
    }
    stop
}

// The lowest price of a row that is in no band or in several, if there is one. Between two stops the number of bands that contain a price
// does not change, so that only the stops are looked at.
fn failing_price(
    firsts: &[u64],
    lasts: &[u64],
    lowests: &[u64],
    highests: &[u64],
    row: u64,
) -> Option<u64>
    requires { Parallel firsts.now lasts.now lowests.now highests.now }
    ensures { MatchOption result (value_limit + 1 ≡ failing_price (bands_of firsts.now lasts.now lowests.now highests.now) row)
        (λ price. (price ≡ failing_price (bands_of firsts.now lasts.now lowests.now highests.now) row) × (price ≤ value_limit)) }
{
    let mut price = 0u64;
    while price < END {
        let stop = stop_at(firsts, lasts, lowests, highests, row, price);
        let covering = stop.covering;
        if covering != 1 {
            return Some(price);
        }
        price = stop.next;
    }
    None
}

// The first row with a failing price, and its lowest, if there is one. Inside the whole judgement the walk takes a fifth longer.
#[inline(never)]
fn failing_pair(
    firsts: &[u64],
    lasts: &[u64],
    lowests: &[u64],
    highests: &[u64],
) -> Option<(u64, u64)>
    requires { Parallel firsts.now lasts.now lowests.now highests.now }
    ensures { MatchOption result (most_steps + 1 ≡ failing_row (bands_of firsts.now lasts.now lowests.now highests.now))
        (λ pair. (pair.0 ≡ failing_row (bands_of firsts.now lasts.now lowests.now highests.now)) × (pair.0 ≤ most_steps)
        × (pair.1 ≡ failing_price (bands_of firsts.now lasts.now lowests.now highests.now) pair.0)) }
{
    for row in 1..LAST_ROW + 1 {
        if let Some(price) = failing_price(firsts, lasts, lowests, highests, row) {
            return Some((row, price));
        }
    }
    None
}

// The verdict on the pairs.
fn judge_pairs(
    firsts: &[u64],
    lasts: &[u64],
    lowests: &[u64],
    highests: &[u64],
) -> Result<(), Fault>
    requires { Parallel firsts.now lasts.now lowests.now highests.now }
    ensures { result_verdict result ≡ pairs_verdict (bands_of firsts.now lasts.now lowests.now highests.now) }
{
    let Some((row, price)) = failing_pair(firsts, lasts, lowests, highests) else {
        return Ok(());
    };
    let stop = stop_at(firsts, lasts, lowests, highests, row, price);
    let covering = stop.covering;
    if covering == 0 {
        return Err(Fault::NoBand { row, price });
    }
    Err(Fault::SeveralBands { row, price })
}

// Whether a band's ends are in order and in range, and its haircut in range.
fn is_sound(first: u64, last: u64, lowest: u64, highest: u64, haircut: u64) -> bool
    ensures { result ≡ sound first last lowest highest haircut }
{
    if first < 1 {
        return false;
    }
    if last < first {
        return false;
    }
    if LAST_ROW < last {
        return false;
    }
    if highest < lowest {
        return false;
    }
    if limits::VALUE_LIMIT < highest {
        return false;
    }
    if MOST_HAIRCUT < haircut {
        return false;
    }
    true
}

// The index of the first bad band, if there is one.
fn first_bad(
    firsts: &[u64],
    lasts: &[u64],
    lowests: &[u64],
    highests: &[u64],
    haircuts: &[u64],
) -> Option<usize>
    requires { Parallel firsts.now lasts.now lowests.now highests.now × (length haircuts.now ≡ length firsts.now) }
    ensures { MatchOption result (length firsts.now ≡ bad_index (bands_of firsts.now lasts.now lowests.now highests.now) (values haircuts.now))
        (λ k. (k ≡ bad_index (bands_of firsts.now lasts.now lowests.now highests.now) (values haircuts.now)) × (k < length firsts.now)) }
{
    for k in 0..firsts.len() {
        if !is_sound(firsts[k], lasts[k], lowests[k], highests[k], haircuts[k]) {
            return Some(k);
        }
    }
    None
}

// Whether the five slices have one length.
pub fn have_one_length(
    firsts: &[u64],
    lasts: &[u64],
    lowests: &[u64],
    highests: &[u64],
    haircuts: &[u64],
) -> bool
    ensures { result ≡ same_lengths firsts.now lasts.now lowests.now highests.now
        haircuts.now }
{
    if lasts.len() != firsts.len() {
        return false;
    }
    if lowests.len() != firsts.len() {
        return false;
    }
    if highests.len() != firsts.len() {
        return false;
    }
    if haircuts.len() != firsts.len() {
        return false;
    }
    true
}

// The verdict on a table. Refusals: 6 lengths that differ, then 16 over the whole table, then whichever of 17 and 18 comes at the
// earlier pair, by row and then price.
pub fn check_bands(
    firsts: &[u64],
    lasts: &[u64],
    lowests: &[u64],
    highests: &[u64],
    haircuts: &[u64],
) -> Result<(), Fault>
    ensures { result_verdict result ≡ verdict firsts.now lasts.now lowests.now highests.now haircuts.now }
{
    if !have_one_length(firsts, lasts, lowests, highests, haircuts) {
        return Err(Fault::Refused(Refusal::LengthOrRow));
    }
    if let Some(k) = first_bad(firsts, lasts, lowests, highests, haircuts) {
        return Err(Fault::BadBand((k + 1) as u64));
    }
    if MOST_BANDS < firsts.len() {
        return Err(Fault::BadBand(TOO_MANY));
    }
    judge_pairs(firsts, lasts, lowests, highests)
}
