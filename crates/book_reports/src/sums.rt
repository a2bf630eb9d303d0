// The sum of two reports.
ghost use Rattle.std.specs.Prelude.{◌≡◌, true, cond, ◌+◌, ◌≤◌};
ghost use Rattle.arithmetic.specs.Row.{row, values};
ghost use Rattle.book_laws.specs.Bounds.{most_number};
ghost use Rattle.book_laws.specs.Books.{counts_within};
ghost use Rattle.report_laws.specs.Reports.{is_later, sum_report};
ghost use Rattle.report_laws.specs.Joins.{size_of, most_size, is_report};

use report_laws::Report;

pub(crate) fn chosen(test: bool, yes: u64, no: u64) -> u64
    ensures { result ≡ cond test yes no }
{
    if test { yes } else { no }
}

// Whether the dearest bond of both is the second's.
fn is_later(first: Report, second: Report) -> bool
    ensures { result ≡ is_later first second }
{
    if second.place == 0 {
        return false;
    }
    if first.place == 0 {
        return true;
    }
    first.dearest < second.dearest
}

// Count by count.
fn counts_of(first: [u64; 13], second: [u64; 13]) -> [u64; 13]
    requires { (counts_within first most_size ≡ true) × (counts_within second most_size ≡ true) }
    ensures { result ≡ row most_number (λ k. values first k + values second k) }
{
    let mut sums = [0u64; 13];
    for k in 0..13 {
        sums[k] = first[k] + second[k];
    }
    sums
}

pub(crate) fn sum_of(first: Report, second: Report) -> Report
    requires { (is_report first ≡ true) × (is_report second ≡ true) × (size_of first + size_of second ≤ most_size) }
    ensures { result ≡ sum_report first second }
{
    let first_counts = first.refused;
    let second_counts = second.refused;
    let counts = counts_of(first_counts, second_counts);
    let later = is_later(first, second);
    Report {
        books: first.books + second.books,
        fields: first.fields + second.fields,
        priced: first.priced + second.priced,
        refused: counts,
        bonds: first.bonds + second.bonds,
        options: first.options + second.options,
        error_bounds: first.error_bounds + second.error_bounds,
        dearest: chosen(later, second.dearest, first.dearest),
        book: chosen(later, first.books + second.book, first.book),
        place: chosen(later, second.place, first.place),
    }
}
