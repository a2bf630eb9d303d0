// The report of the jobs on standard input, each in a field of tag 10 (hex), on standard output. The input is never held whole.
#![tactic(auto)]

ghost use Rattle.std.specs.Prelude.{◌≤◌, length};

use book_laws::Book;

// The book with the next field, and whether the input goes on after it.
#[derive(Drop)]
struct Step {
    book: Book,
    more: bool,
}

fn next_field(
    book: Book,
    buffer: &mut [u8],
    discounts: &mut [u64; limits::MOST_DISCOUNTS],
    state_prices: &mut [u64; limits::MOST_STATE_PRICES],
) -> Step
    requires { 65536 ≤ length buffer.old }
{
    let mut head = [0u8; 3];
    let count = io::read_full(0, &mut head);
    if count == 0 {
        return Step { book, more: false };
    }
    let Some(size) = book_report::head_of(&head[..count]) else {
        let ended = book_fields::broken(book);
        return Step {
            book: ended,
            more: false,
        };
    };
    let got = io::read_full(0, &mut buffer[..size]);
    if got < size {
        let ended = book_fields::broken(book);
        return Step {
            book: ended,
            more: false,
        };
    }
    let next = book_fields::with_field_in(book, &buffer[..size], discounts, state_prices);
    Step {
        book: next,
        more: true,
    }
}

// All fields, and what is left after 500.
fn read_book(buffer: &mut [u8]) -> Book
    requires { 65536 ≤ length buffer.old }
{
    let mut discounts = limits::discount_room();
    let mut state_prices = limits::state_price_room();
    let mut book = book_fields::empty();
    for _ in 0..book_laws::MOST_FIELDS {
        let step = next_field(book, buffer, &mut discounts, &mut state_prices);
        book = step.book;
        if !step.more {
            return book;
        }
    }
    let mut last = [0u8; 1];
    let count = io::read_full(0, &mut last);
    book_fields::closed(book, count)
}

fn main() {
    let mut buffer = io::large_buffer();
    let book = read_book(&mut buffer);
    let mut room = io::buffer();
    if let Ok(size) = book_lines::lines(book, &mut room) {
        let start = room.len() - size;
        io::write_all(1, &room[start..]);
    }
}
