// Reads files from standard input, each after its length in two bytes, and writes the report of all of them twice: joined one by one, and
// joined by twos first. vectors.py makes the input, and the reference works the output out apart.
#![tactic(auto)]

use report_laws::Report;

// All files one by one, and by twos: the pairs so far, and the file that waits for its second.
#[derive(Clone, Copy)]
struct Totals {
    single: Report,
    paired: Report,
    waiting: Report,
    waits: bool,
}

fn write_from(room: &[u8], start: usize) {
    if start <= room.len() {
        io::write_all(1, &room[start..]);
    }
}

fn write_whole(room: &mut [u8], word: &[u8], number: u64) {
    if let Ok(start) = text::whole_line(room, room.len(), word, number) {
        write_from(room, start);
    }
}

fn write_pair(room: &mut [u8], word: &[u8], first: u64, second: u64) {
    if let Ok(start) = text::pair_line(room, room.len(), word, first, second) {
        write_from(room, start);
    }
}

fn write_amount(room: &mut [u8], word: &[u8], value: u64) {
    if let Ok(start) = text::amount_line(room, room.len(), word, value) {
        write_from(room, start);
    }
}

fn write_refusals(room: &mut [u8], counts: [u64; 13]) {
    for (k, count) in counts.iter().enumerate() {
        write_pair(room, b"refused ", k as u64 + 1, *count);
    }
}

fn write_counts(room: &mut [u8], report: Report) {
    write_whole(room, b"books ", report.books);
    write_whole(room, b"fields ", report.fields);
    write_whole(room, b"priced ", report.priced);
    let counts = report.refused;
    write_refusals(room, counts);
}

fn write_sums(room: &mut [u8], report: Report) {
    write_amount(room, b"bonds ", report.bonds);
    write_amount(room, b"options ", report.options);
    write_whole(room, b"allowances ", report.error_bounds);
}

fn write_dearest(room: &mut [u8], report: Report) {
    write_amount(room, b"price ", report.dearest);
    write_pair(room, b"dearest ", report.book, report.place);
}

fn write_report(room: &mut [u8], report: Report) {
    write_counts(room, report);
    write_sums(room, report);
    write_dearest(room, report);
}

// A join that is refused is the empty report.
fn sum_of(first: Report, second: Report) -> Report {
    book_reports::joined(first, second).unwrap_or(book_reports::empty())
}

fn with_report(totals: Totals, report: Report) -> Totals {
    let before = totals.single;
    let single = sum_of(before, report);
    let pairs = totals.paired;
    let waiting = totals.waiting;
    if totals.waits {
        let pair = sum_of(waiting, report);
        let paired = sum_of(pairs, pair);
        return Totals {
            single,
            paired,
            waiting,
            waits: false,
        };
    }
    Totals {
        single,
        paired: pairs,
        waiting: report,
        waits: true,
    }
}

fn no_totals() -> Totals {
    let none = book_reports::empty();
    Totals {
        single: none,
        paired: none,
        waiting: none,
        waits: false,
    }
}

// The files by twos, with the one that still waits.
fn all_paired(totals: Totals) -> Report {
    let pairs = totals.paired;
    if !totals.waits {
        return pairs;
    }
    let waiting = totals.waiting;
    sum_of(pairs, waiting)
}

fn read_all(input: &[u8]) -> Totals {
    let mut totals = no_totals();
    let mut rest = input;
    while let Some((file, after)) = frames::split_frame(rest) {
        totals = with_report(totals, book_reports::of_file(file));
        rest = after;
    }
    totals
}

fn main() {
    let mut input = frames::input_room();
    let count = io::read_full(0, &mut input);
    let totals = read_all(&input[..count]);
    let mut room = io::buffer();
    let single = totals.single;
    write_report(&mut room, single);
    write_report(&mut room, all_paired(totals));
}
