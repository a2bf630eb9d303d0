// Reads tables of haircut bands from standard input, each after its length in two bytes, and writes what both entries answer. vectors.py makes the
// input, and works the output out apart.
//
// A table comes as numbers of eight bytes, high byte first: the five lengths of its lists and the number of pairs, the lists themselves, then the
// rows and the prices of the pairs.
#![tactic(auto)]

ghost use Rattle.std.specs.Prelude.{◌+◌, ◌≤◌, length};

use bands::Verdict;
use lending::Worth;

const HEAD: usize = 6;

fn show(number: u64) {
    io::write_all(1, b" ");
    io::print_decimal(1, number);
}

fn show_verdict(verdict: Verdict) {
    show(verdict.number);
    show(verdict.row);
    show(verdict.price);
    show(verdict.place);
    io::write_all(1, b"\n");
}

// The number at a place, or 0 where the bytes end before it does.
fn number_at(bytes: &[u8], at: usize) -> u64 {
    if bytes.len() < 8 {
        return 0;
    }
    if bytes.len() - 8 < at {
        return 0;
    }
    let mut eight = [0u8; 8];
    eight.copy_from_slice(&bytes[at..at + 8]);
    u64::from_be_bytes(eight)
}

fn read_numbers(bytes: &[u8], numbers: &mut [u64])
    requires { length numbers.old ≤ 320 }
{
    for (k, number) in numbers.iter_mut().enumerate() {
        *number = number_at(bytes, 8 * k);
    }
}

fn count_of(number: u64) -> usize
    ensures { result ≤ 64 }
{
    if 64 < number {
        return 64;
    }
    number as usize
}

// So many numbers from a place on, or all where there are fewer.
fn numbers_from(numbers: &[u64], start: usize, count: usize) -> &[u64] {
    if numbers.len() < start {
        return numbers;
    }
    if numbers.len() - start < count {
        return numbers;
    }
    let end = start + count;
    &numbers[start..end]
}

fn show_worth(
    firsts: &[u64],
    lasts: &[u64],
    lowests: &[u64],
    highests: &[u64],
    haircuts: &[u64],
    row: u64,
    price: u64,
) {
    let answer = Worth::from(lending::lending_worth(
        firsts, lasts, lowests, highests, haircuts, row, price,
    ));
    io::write_all(1, b"worth");
    show(answer.worth);
    show_verdict(answer.verdict);
}

fn show_worths(
    firsts: &[u64],
    lasts: &[u64],
    lowests: &[u64],
    highests: &[u64],
    haircuts: &[u64],
    rows: &[u64],
    prices: &[u64],
) {
    if rows.len() != prices.len() {
        return;
    }
    for (row, price) in rows.iter().zip(prices) {
        show_worth(firsts, lasts, lowests, highests, haircuts, *row, *price);
    }
}

fn show_table(bytes: &[u8]) {
    let mut numbers = [0u64; 320];
    read_numbers(bytes, &mut numbers);
    let lasts_at = HEAD + count_of(numbers[0]);
    let lowests_at = lasts_at + count_of(numbers[1]);
    let highests_at = lowests_at + count_of(numbers[2]);
    let haircuts_at = highests_at + count_of(numbers[3]);
    let rows_at = haircuts_at + count_of(numbers[4]);
    let pairs = count_of(numbers[5]);
    let firsts = numbers_from(&numbers, HEAD, lasts_at - HEAD);
    let lasts = numbers_from(&numbers, lasts_at, lowests_at - lasts_at);
    let lowests = numbers_from(&numbers, lowests_at, highests_at - lowests_at);
    let highests = numbers_from(&numbers, highests_at, haircuts_at - highests_at);
    let haircuts = numbers_from(&numbers, haircuts_at, rows_at - haircuts_at);
    let rows = numbers_from(&numbers, rows_at, pairs);
    let prices = numbers_from(&numbers, rows_at + pairs, pairs);
    io::write_all(1, b"table");
    show_verdict(Verdict::from(bands::check_bands(firsts, lasts, lowests, highests, haircuts)));
    show_worths(firsts, lasts, lowests, highests, haircuts, rows, prices);
}

fn main() {
    let mut input = frames::input_room();
    let count = io::read_full(0, &mut input);
    let mut rest = &input[..count];
    while let Some((table, after)) = frames::split_frame(rest) {
        show_table(table);
        rest = after;
    }
}
