// Definitions and laws of a book of jobs: what its fields add to it, what a file gives, and its lines.
#![tactic(auto)]

ghost use Rattle.std.specs.Prelude.{◌≡◌};
ghost use Rattle.book_laws.specs.Report.{text_of};

use arithmetic::Refusal;

// A file has at most so many fields.
pub const MOST_FIELDS: u64 = 500;

// No error bound of a bond is larger.
pub const MOST_ERROR_BOUND: u64 = 1_000_000;

// A book so far. The count of refusals with number k stands at place k - 1; `place` counts all fields from 1, and is 0 where none is priced.
#[repr(C)]
#[derive(Clone, Copy)]
pub struct Book {
    pub fields: u64,
    pub ended: bool,
    pub priced: u64,
    pub refused: [u64; 13],
    pub bonds: u64,
    pub options: u64,
    pub error_bounds: u64,
    pub dearest: u64,
    pub place: u64,
}

// The lines of a book, which stand at the end of the lent room and are so many bytes long; a refusal's number with a zero.
#[repr(C)]
#[derive(Drop)]
pub struct BookText {
    pub number: u64,
    pub size: usize,
}

impl From<Result<usize, Refusal>> for BookText {
    ghost from_gives = { λ outcome text. text ≡ text_of outcome };

    fn from(outcome: Result<usize, Refusal>) -> BookText {
        match outcome {
            Ok(size) => BookText { number: 0, size },
            Err(refusal) => BookText {
                number: refusal.number(),
                size: 0,
            },
        }
    }
}
