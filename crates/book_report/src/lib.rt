// The report of a whole file of jobs, and the head of one of its fields.
#![tactic(auto)]

ghost use Rattle.std.specs.Prelude.{◌≡◌, ◌≤◌, ◌<◌, length};
ghost use Rattle.book_laws.specs.Files.{head_with, head_of, file_book};
ghost use Rattle.book_laws.specs.inside.Files.{field_end};
ghost use Rattle.book_laws.specs.Report.{book_lines, text_of, lines_answer, lines_memory};

use arithmetic::Refusal;
use book_laws::Book;

// The length of a field's data, from the three bytes of its head. Fewer, or another tag, are no head.
pub fn head_of(bytes: &[u8]) -> Option<usize>
    ensures value { head_with result ≡ head_of bytes.now }
    ensures size_bound { (head_with result).size < 65536 }
{
    if bytes.len() < 3 {
        return None;
    }
    if bytes[0] != 16 {
        return None;
    }
    Some(usize::from(bytes[1]) * 256 + usize::from(bytes[2]))
}

// The end of the field that stands at a place, or the place itself where no whole field stands there.
fn field_end(file: &[u8], at: usize) -> usize
    requires { at ≤ length file.now }
    ensures { result ≡ field_end file.now at }
{
    let Some(size) = head_of(&file[at..]) else {
        return at;
    };
    let room = file.len() - at;
    if room < 3 + size {
        return at;
    }
    at + 3 + size
}

// The book of a whole file in memory: one pair of memories for the trees of all its jobs.
pub fn file_book(file: &[u8]) -> Book
    ensures { result ≡ file_book file.now }
{
    let mut discounts = limits::discount_room();
    let mut state_prices = limits::state_price_room();
    let mut book = book_fields::empty();
    let mut at = 0usize;
    for _ in 0..book_laws::MOST_FIELDS {
        let end = field_end(file, at);
        if end == at {
            return book_fields::closed(book, file.len() - at);
        }
        let from = at + 3;
        let field = &file[from..end];
        book = book_fields::with_field_in(book, field, &mut discounts, &mut state_prices);
        at = end;
    }
    book_fields::closed(book, file.len() - at)
}

// The lines of a whole file in memory, as `lines` puts them.
pub fn report(file: &[u8], out: &mut [u8]) -> Result<usize, Refusal>
    ensures answer { text_of result ≡ lines_answer (book_lines (file_book file.now)) (length out.old) }
    ensures within { (text_of result).size ≤ length out.old }
    ensures memory { out.new ≡ lines_memory (book_lines (file_book file.now)) out.old }
{
    book_lines::lines(file_book(file), out)
}
