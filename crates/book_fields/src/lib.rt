// A book of jobs, field by field: how many are priced and refused, the sums of what they are worth, and the dearest bond.
#![tactic(auto)]

mod books;
mod jobs;

ghost use Rattle.std.specs.Prelude.{◌≡◌};
ghost use Rattle.job_laws.specs.RecordFit.{job_discounts, job_state_prices};
ghost use Rattle.book_laws.specs.Books.{empty_book, with_field, field_memory, broken_book, closed_book};

use book_laws::Book;

pub fn empty() -> Book
    ensures { result ≡ empty_book }
{
    Book {
        fields: 0,
        ended: false,
        priced: 0,
        refused: [0u64; 13],
        bonds: 0,
        options: 0,
        error_bounds: 0,
        dearest: 0,
        place: 0,
    }
}

// A book with one more field, whose job is fitted and priced in the lent memories, so that a whole file has one pair of them. A book that ended, that
// has 500 fields or that no calls reach is given back as it is, and so are the memories.
pub fn with_field_in(
    book: Book,
    job: &[u8],
    discounts: &mut [u64; limits::MOST_DISCOUNTS],
    state_prices: &mut [u64; limits::MOST_STATE_PRICES],
) -> Book
    ensures answer { result ≡ with_field book job.now }
    ensures discounted { discounts.new ≡ field_memory book job.now job_discounts discounts.old }
    ensures priced { state_prices.new ≡ field_memory book job.now job_state_prices state_prices.old }
{
    if !books::is_open(book) {
        return book;
    }
    if book_laws::MOST_FIELDS <= book.fields {
        return book;
    }
    books::with_prices(book, jobs::prices_of(job, discounts, state_prices))
}

// The same without lent memories.
pub fn with_field(book: Book, job: &[u8]) -> Book
    ensures { result ≡ with_field book job.now }
{
    let mut discounts = limits::discount_room();
    let mut state_prices = limits::state_price_room();
    with_field_in(book, job, &mut discounts, &mut state_prices)
}

// A book that ends because its file is broken, with one more refusal under 1. One that ended or that no calls reach is given back as it is.
pub fn broken(book: Book) -> Book
    ensures { result ≡ broken_book book }
{
    if !books::is_open(book) {
        return book;
    }
    books::ended(book)
}

// A book at the end of its file, of which so many bytes could not be taken.
pub fn closed(book: Book, left: usize) -> Book
    ensures { result ≡ closed_book book left }
{
    if left == 0 {
        return book;
    }
    broken(book)
}
