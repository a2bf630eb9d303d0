// The lines of the sheet, put into a lent buffer from its end: each function puts its text just before a place and answers where the
// text starts, so that the line that stands above it is put before that. A line that has no room is refused with 6, and the buffer stays.
#![tactic(auto)]

ghost use Rattle.std.specs.Prelude.{◌≡◌, [], ◌∷◌, ◌++◌, ◌+◌, ◌-◌, ◌≤◌, ◌<◌, length};
ghost use Rattle.text_laws.specs.Lines.{
  longest_line,
  space,
  newline,
  whole_number,
  amount,
  node_line,
  row_line,
  price_line,
  bond_line,
  option_line,
  refused_line,
  line_of_node,
  line_number,
  node_number,
  line_answer,
  with_line,
};
ghost use Rattle.text_laws.specs.Decimal.{natural, decimal, sign_of, signed_decimal};
ghost use Rattle.text_laws.specs.inside.Decimal.{fraction};
ghost use Rattle.text_laws.specs.Put.{place_of, placed_of, with_text};
ghost use Rattle.arithmetic.specs.Refusals.{cause_of};
ghost use Rattle.text_laws.specs.inside.Put.{Put};
ghost use Rattle.text_laws.specs.WordLines.{whole_line, pair_line, amount_line, word_number, word_answer, with_word};

use arithmetic::Refusal;
use text_laws::LONGEST_LINE;

// No word that a caller chooses is longer.
const LONGEST_WORD: usize = 16;

// Refused with 6 where a line has no room before a place.
fn line_cause(size: usize, end: usize) -> Result<(), Refusal>
    ensures { cause_of result ≡ line_number size end }
{
    if end < LONGEST_LINE {
        return Err(Refusal::LengthOrRow);
    }
    if size < end {
        return Err(Refusal::LengthOrRow);
    }
    Ok(())
}

fn put_word(out: &mut [u8], end: usize, word: &[u8]) -> usize
    requires { (length word.now ≤ end) × (end ≤ length out.old) }
    ensures { Put out.old end word.now result out.new }
{
    let start = end - word.len();
    // Words are of a few bytes: a copy byte by byte is faster than a call of the library's.
    for index in (0..word.len()).rev() {
        out[start + index] = word[index];
    }
    start
}

// The point and the decimals of a number; nothing where it has none.
fn put_fraction(out: &mut [u8], end: usize, number: u64, decimals: usize) -> usize
    requires { (length (fraction decimals number) ≤ end) × (end ≤ length out.old) }
    ensures { Put out.old end (fraction decimals number) result out.new }
{
    if decimals == 0 {
        return end;
    }
    let mut rest = number;
    let point = end - decimals - 1;
    for place in (point + 1..end).rev() {
        out[place] = 48 + (rest % 10) as u8;
        rest /= 10;
    }
    out[point] = b'.';
    point
}

// The digits of a number, with no zeros in front.
fn put_natural(out: &mut [u8], end: usize, number: u64) -> usize
    requires { (length (natural number) ≤ end) × (end ≤ length out.old) }
    ensures { Put out.old end (natural number) result out.new }
{
    let mut rest = number;
    let mut start = end;
    while rest > 9 {
        start -= 1;
        out[start] = 48 + (rest % 10) as u8;
        rest /= 10;
    }
    start -= 1;
    out[start] = 48 + rest as u8;
    start
}

// A number over a power of ten, with as many decimals.
fn put_decimal(out: &mut [u8], end: usize, number: u64, decimals: usize) -> usize
    requires { (decimals < 19) × (length (decimal decimals number) ≤ end) × (end ≤ length out.old) }
    ensures { Put out.old end (decimal decimals number) result out.new }
{
    let point = put_fraction(out, end, number, decimals);
    put_natural(out, point, number / arithmetic::power_of_ten(decimals))
}

// A number and the byte that follows it.
fn put_field(out: &mut [u8], end: usize, number: u64, decimals: usize, follower: u8) -> usize
    requires { (decimals < 19) × (length (decimal decimals number ++ (follower ∷ [])) ≤ end) × (end ≤ length out.old) }
    ensures { Put out.old end (decimal decimals number ++ (follower ∷ [])) result out.new }
{
    let after = end - 1;
    out[after] = follower;
    put_decimal(out, after, number, decimals)
}

// A minus where the number is negative.
fn put_sign(out: &mut [u8], end: usize, number: i64) -> usize
    requires { (length (sign_of number) ≤ end) × (end ≤ length out.old) }
    ensures { Put out.old end (sign_of number) result out.new }
{
    if number < 0 {
        let start = end - 1;
        out[start] = b'-';
        return start;
    }
    end
}

// A number with its sign and the byte that follows it.
fn put_signed_field(out: &mut [u8], end: usize, number: i64, decimals: usize, follower: u8) -> usize
    requires { (decimals < 19) × (length (signed_decimal decimals number ++ (follower ∷ [])) ≤ end) × (end ≤ length out.old) }
    ensures { Put out.old end (signed_decimal decimals number ++ (follower ∷ [])) result out.new }
{
    let unsigned = put_field(out, end, arithmetic::magnitude(number), decimals, follower);
    put_sign(out, unsigned, number)
}

// A line's word and the whole number that follows it.
fn put_label(out: &mut [u8], end: usize, word: &[u8], number: u64, follower: u8) -> usize
    requires { (length word.now + 22 ≤ end) × (end ≤ length out.old) }
    ensures { Put out.old end (word.now ++ (whole_number number ++ (follower ∷ []))) result out.new }
{
    let start = put_field(out, end, number, 0, follower);
    put_word(out, start, word)
}

// An amount and its error bound, with which a line ends.
fn put_bounded(out: &mut [u8], end: usize, value: u64, bound: u64) -> usize
    requires { (53 ≤ end) × (end ≤ length out.old) }
    ensures { Put out.old end ((amount value ++ space) ++ (whole_number bound ++ newline)) result out.new }
{
    let start = put_field(out, end, bound, 0, b'\n');
    put_field(out, start, value, 9, b' ')
}

// The fields of a node's line: the rate is in billionths, and is put in percent.
fn put_node(out: &mut [u8], end: usize, row: u64, node: i64, discount: u64, rate: i64) -> usize
    requires { (longest_line ≤ end) × (end ≤ length out.old) }
    ensures { Put out.old end (node_line row node discount rate) result out.new }
{
    let rate_start = put_signed_field(out, end, rate, 7, b'\n');
    let discount_start = put_field(out, rate_start, discount, 9, b' ');
    let node_start = put_signed_field(out, discount_start, node, 0, b' ');
    put_label(out, node_start, b"node ", row, b' ')
}

// `node ROW NODE DISCOUNT RATE`, with the step rate of the discount. Refused with 6 without room, then with 9 for a discount of 0 or above 1.1.
pub fn node_line(
    out: &mut [u8],
    end: usize,
    row: u64,
    node: i64,
    discount: u64,
) -> Result<usize, Refusal>
    ensures value { placed_of result ≡ place_of (node_number (length out.old) end discount) end (line_of_node row node discount) }
    ensures out_after { out.new ≡ with_text (node_number (length out.old) end discount) out.old end (line_of_node row node discount) }
{
    line_cause(out.len(), end)?;
    let rate = step_rate::of_discount(discount)?;
    Ok(put_node(out, end, row, node, discount, rate))
}

// `row ROW QUOTE SUM ALLOWANCE`.
pub fn row_line(
    out: &mut [u8],
    end: usize,
    row: u64,
    quote: u64,
    total: u64,
    bound: u64,
) -> Result<usize, Refusal>
    ensures value { placed_of result ≡ line_answer out.old end (row_line row quote total bound) }
    ensures out_after { out.new ≡ with_line out.old end (row_line row quote total bound) }
{
    line_cause(out.len(), end)?;
    let total_start = put_bounded(out, end, total, bound);
    let quote_start = put_field(out, total_start, quote, 9, b' ');
    Ok(put_label(out, quote_start, b"row ", row, b' '))
}

// A word, a price and its error bound.
fn price_line(
    out: &mut [u8],
    end: usize,
    word: &[u8],
    price: u64,
    bound: u64,
) -> Result<usize, Refusal>
    requires { length word.now ≤ 8 }
    ensures value { placed_of result ≡ line_answer out.old end (price_line word.now price bound) }
    ensures out_after { out.new ≡ with_line out.old end (price_line word.now price bound) }
{
    line_cause(out.len(), end)?;
    let price_start = put_bounded(out, end, price, bound);
    Ok(put_word(out, price_start, word))
}

// `bond PRICE ALLOWANCE`.
pub fn bond_line(out: &mut [u8], end: usize, price: u64, bound: u64) -> Result<usize, Refusal>
    ensures value { placed_of result ≡ line_answer out.old end (bond_line price bound) }
    ensures out_after { out.new ≡ with_line out.old end (bond_line price bound) }
{
    price_line(out, end, b"bond ", price, bound)
}

// `option PRICE ALLOWANCE`.
pub fn option_line(out: &mut [u8], end: usize, price: u64, bound: u64) -> Result<usize, Refusal>
    ensures value { placed_of result ≡ line_answer out.old end (option_line price bound) }
    ensures out_after { out.new ≡ with_line out.old end (option_line price bound) }
{
    price_line(out, end, b"option ", price, bound)
}

// `refused NUMBER`.
pub fn refused_line(out: &mut [u8], end: usize, number: u64) -> Result<usize, Refusal>
    ensures value { placed_of result ≡ line_answer out.old end (refused_line number) }
    ensures out_after { out.new ≡ with_line out.old end (refused_line number) }
{
    line_cause(out.len(), end)?;
    Ok(put_label(out, end, b"refused ", number, b'\n'))
}

// Refused with 6 where a word is too long or its line has no room before a place.
fn word_cause(word: usize, size: usize, end: usize) -> Result<(), Refusal>
    ensures { cause_of result ≡ word_number word size end }
{
    if LONGEST_WORD < word {
        return Err(Refusal::LengthOrRow);
    }
    line_cause(size, end)
}

// A word and a whole number. A word of more than 16 bytes is refused with 6.
pub fn whole_line(out: &mut [u8], end: usize, word: &[u8], number: u64) -> Result<usize, Refusal>
    ensures value { placed_of result ≡ word_answer word.now out.old end (whole_line word.now number) }
    ensures out_after { out.new ≡ with_word word.now out.old end (whole_line word.now number) }
{
    word_cause(word.len(), out.len(), end)?;
    Ok(put_label(out, end, word, number, b'\n'))
}

// A word and two whole numbers. A word of more than 16 bytes is refused with 6.
pub fn pair_line(
    out: &mut [u8],
    end: usize,
    word: &[u8],
    first: u64,
    second: u64,
) -> Result<usize, Refusal>
    ensures value { placed_of result ≡ word_answer word.now out.old end (pair_line word.now first second) }
    ensures out_after { out.new ≡ with_word word.now out.old end (pair_line word.now first second) }
{
    word_cause(word.len(), out.len(), end)?;
    let second_start = put_field(out, end, second, 0, b'\n');
    Ok(put_label(out, second_start, word, first, b' '))
}

// A word and an amount. A word of more than 16 bytes is refused with 6.
pub fn amount_line(out: &mut [u8], end: usize, word: &[u8], value: u64) -> Result<usize, Refusal>
    ensures value { placed_of result ≡ word_answer word.now out.old end (amount_line word.now value) }
    ensures out_after { out.new ≡ with_word word.now out.old end (amount_line word.now value) }
{
    word_cause(word.len(), out.len(), end)?;
    let value_start = put_field(out, end, value, 9, b'\n');
    Ok(put_word(out, value_start, word))
}
