// The lines of a book, put into a lent buffer from its end.
#![tactic(auto)]

ghost use Rattle.std.specs.Prelude.{◌≡◌, ◌+◌, ◌*◌, ◌≤◌, length};
ghost use Rattle.text_laws.specs.Lines.{longest_line};
ghost use Rattle.text_laws.specs.inside.Put.{Put};
ghost use Rattle.book_laws.specs.Bounds.{most_number};
ghost use Rattle.book_laws.specs.Report.{refusal_lines, sum_lines, book_lines, book_room, text_of, lines_answer, lines_memory};

use arithmetic::Refusal;
use book_laws::Book;

// Room for eighteen lines.
const BOOK_ROOM: usize = 2_304;

fn put_sums(
    out: &mut [u8],
    end: usize,
    bonds: u64,
    options: u64,
    error_bounds: u64,
    place: u64,
) -> usize
    requires { (512 ≤ end) × (end ≤ length out.old) }
    ensures { Put out.old end (sum_lines bonds options error_bounds place) result out.new }
{
    let dearest = text::whole_line(out, end, b"dearest ", place).unwrap();
    let allowed = text::whole_line(out, dearest, b"allowances ", error_bounds).unwrap();
    let optional = text::amount_line(out, allowed, b"options ", options).unwrap();
    text::amount_line(out, optional, b"bonds ", bonds).unwrap()
}

// The last number's line comes first, so that the lines stand in order.
fn put_refusals(out: &mut [u8], end: usize, counts: &[u64]) -> usize
    requires { (length counts.now ≡ most_number) × (longest_line * most_number ≤ end) × (end ≤ length out.old) }
    ensures put { Put out.old end (refusal_lines counts.now) result out.new }
    ensures end_bound { end ≤ result + longest_line * most_number }
{
    let mut start = end;
    for index in (0..counts.len()).rev() {
        start = text::pair_line(out, start, b"refused ", index as u64 + 1, counts[index]).unwrap();
    }
    start
}

// All lines, before a place.
fn put_book(out: &mut [u8], end: usize, book: Book) -> usize
    requires { (book_room ≤ end) × (end ≤ length out.old) }
    ensures { Put out.old end (book_lines book) result out.new }
{
    let sums_start = put_sums(
        out,
        end,
        book.bonds,
        book.options,
        book.error_bounds,
        book.place,
    );
    let counts = book.refused;
    let refusals_start = put_refusals(out, sums_start, &counts);
    text::whole_line(out, refusals_start, b"priced ", book.priced).unwrap()
}

// The eighteen lines of a book, at the end of the lent room: 2,304 bytes are enough, and fewer are refused with 6 and left as they were.
pub fn lines(book: Book, out: &mut [u8]) -> Result<usize, Refusal>
    ensures answer { text_of result ≡ lines_answer (book_lines book) (length out.old) }
    ensures within { (text_of result).size ≤ length out.old }
    ensures memory { out.new ≡ lines_memory (book_lines book) out.old }
{
    let room = out.len();
    if room < BOOK_ROOM {
        return Err(Refusal::LengthOrRow);
    }
    let start = put_book(out, room, book);
    Ok(room - start)
}
