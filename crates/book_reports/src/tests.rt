// Whether a report has figures that so many books can give.
ghost use Rattle.std.specs.Prelude.{◌≡◌, ◌^◌, ◌≤◌, ◌<◌, sum};
ghost use Rattle.report_laws.specs.Joins.{size_of, most_size, is_named, is_counted, is_report};

use report_laws::Report;

// The dearest bond has a place in a book exactly where there is a priced one.
fn is_named(report: Report) -> bool
    ensures { result ≡ is_named report }
{
    if report.priced == 0 {
        if report.place != 0 {
            return false;
        }
        return report.book == 0;
    }
    if report.place < 1 {
        return false;
    }
    if book_laws::MOST_FIELDS < report.place {
        return false;
    }
    if report.book < 1 {
        return false;
    }
    report.book <= report.books
}

// The refusals of all numbers.
fn counts_total(counts: [u64; 13]) -> u64
    requires { sum counts < 2 ^ 64 }
    ensures { result ≡ sum counts }
{
    counts.iter().sum()
}

// Every field is priced or refused, and each book may have one refusal more, for a broken end.
fn is_counted(report: Report) -> bool
    requires { (size_of report ≤ most_size) × (report.priced ≤ report.fields) }
    ensures { result ≡ is_counted report }
{
    let counts = report.refused;
    let most = report.fields + report.books;
    if !arithmetic::all_between(0, most, &counts) {
        return false;
    }
    let total = report.priced + counts_total(counts);
    if total < report.fields {
        return false;
    }
    total <= most
}

pub(crate) fn is_report(report: Report) -> bool
    ensures { result ≡ is_report report }
{
    if report_laws::MOST_SIZE < report.books {
        return false;
    }
    if report.books * book_laws::MOST_FIELDS < report.fields {
        return false;
    }
    if report_laws::MOST_SIZE < report.books + report.fields {
        return false;
    }
    if report.fields < report.priced {
        return false;
    }
    if report.priced * limits::VALUE_LIMIT < report.bonds {
        return false;
    }
    if report.priced * limits::VALUE_LIMIT < report.options {
        return false;
    }
    if report.priced * book_laws::MOST_ERROR_BOUND < report.error_bounds {
        return false;
    }
    if report.bonds < report.dearest {
        return false;
    }
    if !is_named(report) {
        return false;
    }
    is_counted(report)
}
