// The dates on which an option may be exercised: their cause of refusal, a mark for each listed row, and the dates of a kind.
#![tactic(auto)]

ghost use Rattle.std.specs.Prelude.{◌≡◌, ◌<◌, cond, leb};
ghost use Rattle.arithmetic.specs.Row.{row};
ghost use Rattle.pricing_laws.specs.Schedule.{last_date, rising, dates_cause};
ghost use Rattle.exercise_dates.specs.Dates.{marks_of, dated_terms, dates_of_kind};
ghost use Rattle.exercise_dates.specs.inside.Dates.{dates_to};

use exercise::Terms;
use limits::MOST_ROWS;

// A list of rows: its rows stand in the first `count` places, zeros after them.
#[derive(Drop)]
pub struct Dates {
    pub count: usize,
    pub rows: [u8; MOST_ROWS],
}

// Whether each row of the list is below the next.
fn is_rising(dates: &[u8]) -> bool
    ensures { result ≡ rising dates.now }
{
    dates.is_sorted_by(|row, next| row < next)
}

// The last row of a list; 0 for an empty one.
pub fn last_date(dates: &[u8]) -> usize
    ensures { result ≡ last_date dates.now }
{
    let count = dates.len();
    if count == 0 {
        return 0;
    }
    dates[count - 1] as usize
}

// The cause about a list: 13 where it is empty, does not rise strictly or reaches the last row of the tree; 0 where there is none.
pub fn dates_cause(steps: usize, dates: &[u8]) -> u64
    ensures { result ≡ dates_cause steps dates.now }
{
    if dates.len() == 0 {
        return 13;
    }
    if !is_rising(dates) {
        return 13;
    }
    if steps <= last_date(dates) {
        return 13;
    }
    0
}

// A mark for each row, 1 where it is listed. Rows that no tree has are passed over.
pub fn marks_of(dates: &[u8]) -> [u8; MOST_ROWS]
    ensures { result ≡ marks_of dates.now }
{
    let mut marks = [0u8; MOST_ROWS];
    for date in dates {
        let row = *date as usize;
        if row < MOST_ROWS {
            marks[row] = 1;
        }
    }
    marks
}

// The terms of an option on these dates: side 1 a call, any other a put.
pub fn terms_on(side: u64, dates: &[u8], strike: u64) -> Terms
    ensures { result ≡ dated_terms side dates.now strike }
{
    Terms {
        call: side == 1,
        strike,
        last: last_date(dates),
    }
}

fn row_to(row: u8, expiry: usize) -> u8
    ensures { result ≡ cond (leb row expiry) row 0 }
{
    if expiry < row as usize {
        return 0;
    }
    row
}

// Every row to expiry, zeros after them.
fn dates_to(expiry: usize) -> [u8; MOST_ROWS]
    ensures { result ≡ dates_to expiry }
{
    let mut rows = [0u8; MOST_ROWS];
    for (row, place) in rows.iter_mut().enumerate() {
        *place = row_to(row as u8, expiry);
    }
    rows
}

// The list of a kind: expiry alone for 1 and 2, every row from 0 to expiry for 3 and 4. An expiry that no tree has gives no list.
pub fn dates_of_kind(kind: u64, expiry: usize) -> Dates
    ensures { result ≡ dates_of_kind kind expiry }
{
    if limits::MOST_STEPS < expiry {
        return Dates {
            count: 0,
            rows: [0u8; MOST_ROWS],
        };
    }
    if kind < 3 {
        let mut rows = [0u8; MOST_ROWS];
        rows[0] = expiry as u8;
        return Dates { count: 1, rows };
    }
    Dates {
        count: expiry + 1,
        rows: dates_to(expiry),
    }
}
