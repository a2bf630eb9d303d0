// The quotes of rows 1 to n, converted to discounts in lent memory.
#![tactic(auto)]

ghost use Rattle.std.specs.Prelude.{◌≡◌, ◌≤◌, ◌<◌, length};
ghost use Rattle.arithmetic.specs.Refusals.{cause_of, answer_of};
ghost use Rattle.arithmetic.specs.Row.{row, place, each};
ghost use Rattle.curve.specs.Curve.{answer_at, discount_at, converts_at, place_at, in_place, curve_number, curve_memory};

use arithmetic::Refusal;
use quotes::Point;

// Whether each point's row is its place.
fn in_order(rows: &[u64]) -> bool
    ensures { result ≡ each (length rows.now) (place_at rows.now) }
{
    for (i, row) in rows.iter().enumerate() {
        if *row != (i + 1) as u64 {
            return false;
        }
    }
    true
}

// Whether there are as many rows, kinds and figures as steps, room for the discounts, and each row in its place.
fn is_in_place(steps: usize, rows: &[u64], kinds: &[u8], figures: &[f64], room: usize) -> bool
    ensures { result ≡ in_place steps rows.now kinds.now figures.now room }
{
    if rows.len() != steps {
        return false;
    }
    if kinds.len() != steps {
        return false;
    }
    if figures.len() != steps {
        return false;
    }
    if room < steps {
        return false;
    }
    in_order(rows)
}

// The answer to the point at a place.
fn answer_at(frequency: u64, kinds: &[u8], figures: &[f64], i: usize) -> Result<u64, Refusal>
    requires { (i < length kinds.now) × (i < length figures.now) }
    ensures { answer_of result ≡ answer_at frequency kinds.now figures.now i }
{
    let point = Point {
        row: (i + 1) as u64,
        figure: figures[i],
    };
    quotes::lone_point(frequency, kinds[i], point)
}

// Whether each point has a discount.
fn all_convert(frequency: u64, kinds: &[u8], figures: &[f64]) -> bool
    requires { length figures.now ≡ length kinds.now }
    ensures { result ≡ each (length kinds.now) (converts_at frequency kinds.now figures.now) }
{
    for i in 0..kinds.len() {
        if answer_at(frequency, kinds, figures, i).is_err() {
            return false;
        }
    }
    true
}

// The refusal, the lowest first, where there is one.
fn cause(
    frequency: u64,
    steps: usize,
    rows: &[u64],
    kinds: &[u8],
    figures: &[f64],
    room: usize,
) -> Result<(), Refusal>
    ensures { cause_of result ≡ curve_number frequency steps rows.now kinds.now figures.now room }
{
    if !arithmetic::is_frequency(frequency) {
        return Err(Refusal::Frequency);
    }
    if !limits::is_steps(steps) {
        return Err(Refusal::Steps);
    }
    if !is_in_place(steps, rows, kinds, figures, room) {
        return Err(Refusal::LengthOrRow);
    }
    if !all_convert(frequency, kinds, figures) {
        return Err(Refusal::Quote);
    }
    Ok(())
}

// The discounts of the points, at the start of the memory.
fn store(frequency: u64, kinds: &[u8], figures: &[f64], discounts: &mut [u64])
    requires { (length figures.now ≡ length kinds.now) × (length kinds.now ≤ length discounts.old) }
    ensures { discounts.new ≡ place discounts.old 0
        (row (length kinds.now) (discount_at frequency kinds.now figures.now)) }
{
    for i in 0..kinds.len() {
        discounts[i] = answer_at(frequency, kinds, figures, i).unwrap_or(0);
    }
}

// The discounts of rows 1 to n at the start of the lent memory, what stands past them left as it was. A refusal leaves all of it:
// the steps a year, the steps, a length that is not n, too short a memory or a row out of place, then a kind, figure or discount.
pub fn convert(
    frequency: u64,
    steps: usize,
    rows: &[u64],
    kinds: &[u8],
    figures: &[f64],
    discounts: &mut [u64],
) -> Result<(), Refusal>
    ensures number { cause_of result ≡ curve_number frequency steps
        rows.now kinds.now figures.now (length discounts.old) }
    ensures memory { discounts.new ≡ curve_memory frequency steps
        rows.now kinds.now figures.now discounts.old }
{
    cause(frequency, steps, rows, kinds, figures, discounts.len())?;
    store(frequency, kinds, figures, discounts);
    Ok(())
}
