// What is added to a book that is still open.
ghost use Rattle.std.specs.Prelude.{◌≡◌, true, cond, ◌≤◌, ◌<◌};
ghost use Rattle.book_laws.specs.Bounds.{most_number, Bounded};
ghost use Rattle.book_laws.specs.Books.{
  most_fields,
  counts_within,
  is_open,
  counted,
  with_refused,
  option_of,
  is_dearer,
  with_priced,
  with_prices,
  ended_book,
};

use book_laws::Book;
use job_laws::JobPrices;

pub(crate) fn is_open(book: Book) -> bool
    ensures { result ≡ is_open book }
{
    if book.ended {
        return false;
    }
    if book_laws::MOST_FIELDS < book.fields {
        return false;
    }
    if book.fields < book.priced {
        return false;
    }
    if book.fields * limits::VALUE_LIMIT < book.bonds {
        return false;
    }
    if book.fields * limits::VALUE_LIMIT < book.options {
        return false;
    }
    if book.fields * book_laws::MOST_ERROR_BOUND < book.error_bounds {
        return false;
    }
    if book.fields < book.place {
        return false;
    }
    let counts = book.refused;
    arithmetic::all_between(0, book.fields, &counts)
}

fn chosen(test: bool, yes: u64, no: u64) -> u64
    ensures { result ≡ cond test yes no }
{
    if test { yes } else { no }
}

fn option_of(prices: JobPrices) -> u64
    ensures { result ≡ option_of prices }
{
    chosen(prices.has_option, prices.option.value, 0)
}

fn is_dearer(book: Book, bond: u64) -> bool
    ensures { result ≡ is_dearer book bond }
{
    if book.place == 0 {
        return true;
    }
    book.dearest < bond
}

// One more under a number.
fn counted(counts: [u64; 13], number: u64) -> [u64; 13]
    requires { (0 < number) × (number ≤ most_number) × (counts_within counts most_fields ≡ true) }
    ensures { result ≡ counted counts number }
{
    let mut next = counts;
    let at = number as usize - 1;
    next[at] += 1;
    next
}

fn with_refused(book: Book, number: u64) -> Book
    requires { (is_open book ≡ true) × (0 < number) × (number ≤ most_number) }
    ensures { result ≡ with_refused book number }
{
    let former = book.refused;
    let counts = counted(former, number);
    Book {
        fields: book.fields + 1,
        refused: counts,
        ..book
    }
}

fn with_priced(book: Book, prices: JobPrices) -> Book
    requires { (is_open book ≡ true) × Bounded prices }
    ensures { result ≡ with_priced book prices }
{
    let dearer = is_dearer(book, prices.bond.value);
    let place = book.fields + 1;
    Book {
        fields: place,
        priced: book.priced + 1,
        bonds: book.bonds + prices.bond.value,
        options: book.options + option_of(prices),
        error_bounds: book.error_bounds + prices.bond.bound,
        dearest: chosen(dearer, prices.bond.value, book.dearest),
        place: chosen(dearer, place, book.place),
        ..book
    }
}

// A book with the prices of one more job, or its refusal.
pub(crate) fn with_prices(book: Book, prices: JobPrices) -> Book
    requires { (is_open book ≡ true) × Bounded prices }
    ensures { result ≡ with_prices book prices }
{
    if prices.number != 0 {
        return with_refused(book, prices.number);
    }
    with_priced(book, prices)
}

// A book that ends, with one more refusal under 1.
pub(crate) fn ended(book: Book) -> Book
    requires { is_open book ≡ true }
    ensures { result ≡ ended_book book }
{
    let former = book.refused;
    let counts = counted(former, 1);
    Book {
        ended: true,
        refused: counts,
        ..book
    }
}
