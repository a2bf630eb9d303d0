// Reports of books that add up: of no book, of one, and of two reports together.
#![tactic(auto)]

mod sums;
mod tests;

ghost use Rattle.std.specs.Prelude.{◌≡◌};
ghost use Rattle.report_laws.specs.Reports.{empty_report, book_report};
ghost use Rattle.report_laws.specs.FileReports.{file_report};
ghost use Rattle.report_laws.specs.Joins.{joined_of, joined_report};

use arithmetic::Refusal;
use book_laws::Book;
use report_laws::Report;

pub fn empty() -> Report
    ensures { result ≡ empty_report }
{
    report_laws::empty()
}

// The report of one book, which has the number 1.
pub fn of_book(book: Book) -> Report
    ensures { result ≡ book_report book }
{
    let counts = book.refused;
    Report {
        books: 1,
        fields: book.fields,
        priced: book.priced,
        refused: counts,
        bonds: book.bonds,
        options: book.options,
        error_bounds: book.error_bounds,
        dearest: book.dearest,
        book: sums::chosen(book.place == 0, 0, 1),
        place: book.place,
    }
}

// The report of one whole file in memory.
pub fn of_file(file: &[u8]) -> Report
    ensures { result ≡ file_report file.now }
{
    of_book(book_report::file_book(file))
}

// The report of the books of both, the second's numbered after the first's. 1 for a report that no files give, and 12 for more than 2,305,843,009 books
// and fields, whose sums could pass 64 bits.
pub fn joined(first: Report, second: Report) -> Result<Report, Refusal>
    ensures { joined_of result ≡ joined_report first second }
{
    if !tests::is_report(first) {
        return Err(Refusal::Job);
    }
    if !tests::is_report(second) {
        return Err(Refusal::Job);
    }
    let size = first.books + first.fields + (second.books + second.fields);
    if report_laws::MOST_SIZE < size {
        return Err(Refusal::Value);
    }
    Ok(sums::sum_of(first, second))
}
