// Definitions and laws of reports of books that add up: the totals over the fields of any number of files.
#![tactic(auto)]

ghost use Rattle.std.specs.Prelude.{◌≡◌};
ghost use Rattle.report_laws.specs.Reports.{empty_report};
ghost use Rattle.report_laws.specs.Joins.{joined_of};

use arithmetic::Refusal;

// The books of a report and their fields together are at most so many: as many bonds of the highest price are worth less than 2 ^ 64, and one more is not.
pub const MOST_SIZE: u64 = 2_305_843_009;

// The totals over so many books. The count of refusals with number k stands at place k - 1. The dearest bond is that of the field `place` of the book
// with the number `book`, both from 1, and both are 0 where none is priced.
#[repr(C)]
#[derive(Clone, Copy)]
pub struct Report {
    pub books: u64,
    pub fields: u64,
    pub priced: u64,
    pub refused: [u64; 13],
    pub bonds: u64,
    pub options: u64,
    pub error_bounds: u64,
    pub dearest: u64,
    pub book: u64,
    pub place: u64,
}

// The report of no book.
pub fn empty() -> Report
    ensures { result ≡ empty_report }
{
    Report {
        books: 0,
        fields: 0,
        priced: 0,
        refused: [0u64; 13],
        bonds: 0,
        options: 0,
        error_bounds: 0,
        dearest: 0,
        book: 0,
        place: 0,
    }
}

// Number 0 and a report, or a refusal's number with the empty report.
#[repr(C)]
#[derive(Drop)]
pub struct Joined {
    pub number: u64,
    pub report: Report,
}

impl From<Result<Report, Refusal>> for Joined {
    ghost from_gives = { λ outcome joined. joined ≡ joined_of outcome };

    fn from(outcome: Result<Report, Refusal>) -> Joined {
        match outcome {
            Ok(report) => Joined { number: 0, report },
            Err(refusal) => Joined {
                number: refusal.number(),
                report: empty(),
            },
        }
    }
}
