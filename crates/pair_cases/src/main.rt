// Prices on two trees: figures by hand, trees of several shapes, refusals. The expected output is that of an independent model.
#![tactic(auto)]

ghost use Rattle.std.specs.Prelude.{◌≤◌, ◌<◌};

use price_laws::Price;

// Numbers from base on, below base + range, in no simple order.
fn fill(numbers: &mut [u64], base: u64, factor: u64, range: u64)
    requires { (base ≤ 1000000000) × (factor ≤ 1000000000) × (range ≤ 1000000000) × (0 < range) }
{
    for (place, number) in numbers.iter_mut().enumerate() {
        let k = (place % 3600) as u64;
        *number = base + k * factor % range;
    }
}

// The first numbers of a list, or all where it has fewer.
fn first(numbers: &[u64], count: usize) -> &[u64] {
    &numbers[..count.min(numbers.len())]
}

fn number(n: u64) {
    io::write_all(1, b" ");
    io::print_decimal(1, n);
}

fn show(p: Price) {
    number(p.number);
    number(p.value);
    number(p.bound);
    io::write_all(1, b"\n");
}

fn bond(n: usize, b: u64, rates: &[u64], m: usize, c: u64, spreads: &[u64], flows: &[u64]) {
    io::write_all(1, b"bond");
    show(pair_pricing::pair_bond_price(n, b, rates, m, c, spreads, flows));
}

fn option(
    n: usize,
    b: u64,
    rates: &[u64],
    c: u64,
    spreads: &[u64],
    flows: &[u64],
    side: u64,
    dates: &[u8],
    strike: u64,
) {
    io::write_all(1, b"option");
    show(pair_pricing::pair_dated_option_price(
        n, b, rates, n, c, spreads, flows, side, dates, strike,
    ));
}

// Figures by hand: 1.1 and 1.1; a product below a billionth; the least one above it.
fn by_hand() {
    let flows = [1_000_000_000u64];
    let high = [1_100_000_000u64];
    let low = [30_000u64];
    let least = [31_623u64];
    bond(1, 0, &high, 1, 6000, &high, &flows);
    bond(1, 0, &low, 1, 0, &low, &flows);
    bond(1, 0, &least, 1, 0, &least, &flows);
}

fn pair(n: usize, b: u64, rates: &[u64], c: u64, spreads: &[u64], all_flows: &[u64]) {
    let flows = first(all_flows, n);
    bond(n, b, rates, n, c, spreads, flows);
    option(n, b, rates, c, spreads, flows, 1, &[0, 2, 3], 400_000_000);
    option(
        n,
        b,
        rates,
        c,
        spreads,
        flows,
        2,
        &[1, 2, 4, 5],
        900_000_000,
    );
    option(n, b, rates, c, spreads, flows, 2, &[3], 900_000_000);
    option(
        n,
        b,
        rates,
        c,
        spreads,
        flows,
        1,
        &[0, 1, 5, 18],
        100_000_000,
    );
}

fn pairs(rates: &[u64], spreads: &[u64], flows: &[u64]) {
    pair(5, 0, rates, 0, spreads, flows);
    pair(6, 1840, rates, 300, spreads, flows);
    pair(19, 6000, rates, 0, spreads, flows);
    pair(20, 0, rates, 0, spreads, flows);
    pair(20, 1000, rates, 200, spreads, flows);
}

fn refusals(rates: &[u64], spreads: &[u64], flows: &[u64]) {
    bond(21, 7000, rates, 21, 0, spreads, flows);
    bond(61, 0, rates, 61, 0, spreads, flows);
    bond(20, 0, rates, 19, 0, spreads, flows);
    bond(20, 0, rates, 20, 6001, spreads, first(flows, 3));
    bond(20, 0, rates, 20, 0, first(spreads, 399), flows);
    option(20, 0, rates, 0, spreads, flows, 3, &[20], 0);
    option(20, 0, rates, 0, spreads, flows, 2, &[20], 4_000_000_001);
    option(20, 0, rates, 0, spreads, flows, 2, &[4, 4], 0);
}

fn main() {
    let mut rates = [0u64; 400];
    fill(&mut rates, 930_000_000, 7_919_003, 150_000_001);
    let mut spreads = [0u64; 400];
    fill(&mut spreads, 960_000_000, 5_333_017, 50_000_003);
    let mut flows = [0u64; 20];
    fill(&mut flows, 20_000_000, 31_415_927, 80_000_009);
    by_hand();
    pairs(&rates, &spreads, &flows);
    refusals(&rates, &spreads, &flows);
}
