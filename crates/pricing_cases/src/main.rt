// Prices of trees of several shapes, held against reference.py, which works them out from documents 01 and 02 alone.
#![tactic(auto)]

ghost use Rattle.std.specs.Prelude.{◌≤◌, ◌<◌};

use arithmetic::ONE;
use price_laws::Price;

// Numbers from base on, below base + range, in no simple order.
fn fill(numbers: &mut [u64], base: u64, factor: u64, range: u64)
    requires { (base ≤ 1000000000) × (factor ≤ 1000000000) × (range ≤ 1000000000) × (0 < range) }
{
    for (place, number) in numbers.iter_mut().enumerate() {
        let k = (place % 3600) as u64;
        *number = base + k * factor % range;
    }
}

// The first of a list, or all where it has fewer.
fn first<T>(list: &[T], count: usize) -> &[T] {
    &list[..count.min(list.len())]
}

// Rows from a first one on, each so many after the one before.
fn fill_dates(dates: &mut [u8], base: u8, step: u8)
    requires { (base ≤ 1) × (step ≤ 3) }
{
    for (place, date) in dates.iter_mut().enumerate() {
        let k = (place % 60) as u8;
        *date = base + k * step;
    }
}

// One row of a list of dates, or all where it has fewer.
fn one_date(dates: &[u8], place: usize) -> &[u8] {
    if place < dates.len() {
        let end = place + 1;
        &dates[place..end]
    } else {
        dates
    }
}

fn number(n: u64) {
    io::write_all(1, b" ");
    io::print_decimal(1, n);
}

fn show(p: Price) {
    number(p.number);
    number(p.value);
    number(p.bound);
    io::write_all(1, b"\n");
}

fn bond(steps: usize, reversion: u64, discounts: &[u64], flows: &[u64]) {
    io::write_all(1, b"bond");
    number(steps as u64);
    number(reversion);
    show(pricing::bond_price(steps, reversion, discounts, flows));
}

fn option(
    steps: usize,
    reversion: u64,
    discounts: &[u64],
    flows: &[u64],
    kind: u64,
    expiry: usize,
    strike: u64,
) {
    io::write_all(1, b"option");
    number(steps as u64);
    number(reversion);
    number(kind);
    number(expiry as u64);
    number(strike);
    show(pricing::option_price(steps, reversion, discounts, flows, kind, expiry, strike));
}

fn dated(
    steps: usize,
    reversion: u64,
    discounts: &[u64],
    flows: &[u64],
    side: u64,
    dates: &[u8],
    strike: u64,
) {
    io::write_all(1, b"dated");
    number(steps as u64);
    number(reversion);
    number(side);
    number(dates.len() as u64);
    number(strike);
    show(pricing::dated_option_price(steps, reversion, discounts, flows, side, dates, strike));
}

// The places of a strip: number, value and bound of each.
fn places(
    numbers: &[u64; price_laws::MOST_STRIKES],
    values: &[u64; price_laws::MOST_STRIKES],
    bounds: &[u64; price_laws::MOST_STRIKES],
) {
    for k in 0..price_laws::MOST_STRIKES {
        number(numbers[k]);
        number(values[k]);
        number(bounds[k]);
    }
}

fn strip(
    steps: usize,
    reversion: u64,
    discounts: &[u64],
    flows: &[u64],
    side: u64,
    dates: &[u8],
    strikes: &[u64],
) {
    io::write_all(1, b"strip");
    number(steps as u64);
    number(reversion);
    number(side);
    number(dates.len() as u64);
    number(strikes.len() as u64);
    let prices = pricing::option_strip(steps, reversion, discounts, flows, side, dates, strikes);
    number(prices.number);
    let numbers = prices.numbers;
    let values = prices.values;
    let bounds = prices.bounds;
    places(&numbers, &values, &bounds);
    io::write_all(1, b"\n");
}

// Options of a kind that expire at the first row, on the way and one row before the bond's last.
fn options(
    steps: usize,
    latest: usize,
    reversion: u64,
    discounts: &[u64],
    flows: &[u64],
    kind: u64,
) {
    option(steps, reversion, discounts, flows, kind, 0, 900_000_000);
    option(
        steps,
        reversion,
        discounts,
        flows,
        kind,
        steps / 2,
        500_000_000,
    );
    option(steps, reversion, discounts, flows, kind, latest, 30_000_000);
}

// Dates of a side: today, every row of the first half, every third row, the last row before the bond's.
fn dates_of_side(
    steps: usize,
    latest: usize,
    reversion: u64,
    discounts: &[u64],
    flows: &[u64],
    side: u64,
) {
    let mut every = [0u8; limits::MOST_STEPS];
    fill_dates(&mut every, 0, 1);
    let mut thirds = [0u8; 20];
    fill_dates(&mut thirds, 1, 3);
    let today = first(&every, 1);
    let half = first(&every, steps / 2);
    let third = first(&thirds, steps / 3);
    let last = one_date(&every, latest);
    dated(steps, reversion, discounts, flows, side, today, 900_000_000);
    dated(steps, reversion, discounts, flows, side, half, 500_000_000);
    dated(steps, reversion, discounts, flows, side, third, 500_000_000);
    dated(steps, reversion, discounts, flows, side, last, 30_000_000);
}

fn tree(steps: usize, latest: usize, reversion: u64, discounts: &[u64], all_flows: &[u64]) {
    let flows = first(all_flows, steps);
    bond(steps, reversion, discounts, flows);
    options(steps, latest, reversion, discounts, flows, 1);
    options(steps, latest, reversion, discounts, flows, 2);
    options(steps, latest, reversion, discounts, flows, 3);
    options(steps, latest, reversion, discounts, flows, 4);
    dates_of_side(steps, latest, reversion, discounts, flows, 1);
    dates_of_side(steps, latest, reversion, discounts, flows, 2);
}

// Trees that grow to their last row, and trees that are capped on the way.
fn trees(discounts: &[u64], flows: &[u64]) {
    tree(1, 0, 0, discounts, flows);
    tree(3, 2, 0, discounts, flows);
    tree(60, 59, 0, discounts, flows);
    tree(4, 3, 1000, discounts, flows);
    tree(12, 11, 1840, discounts, flows);
    tree(12, 11, 1841, discounts, flows);
    tree(30, 29, 100, discounts, flows);
    tree(60, 59, 6000, discounts, flows);
}

// The job of document 01, whose option expires on the bond's last row, and the same with an option for today.
fn example() {
    let discounts = [1_002_500_000u64];
    let flows = [ONE];
    bond(1, 0, &discounts, &flows);
    option(1, 0, &discounts, &flows, 4, 1, 1_010_000_000);
    option(1, 0, &discounts, &flows, 4, 0, 1_010_000_000);
}

// Values of 8 × one, and of one billionth more, at row 0 alone.
fn limits() {
    let level = [ONE; 16];
    let most = [2_000_000_000u64; 4];
    bond(4, 0, &level, &most);
    option(4, 0, &level, &most, 3, 3, 0);
    dated(4, 0, &level, &most, 1, &[0u8, 3], 0);
    let mut above = [ONE; 16];
    above[0] = 1_000_000_001;
    bond(4, 0, &above, &most);
    option(4, 0, &above, &most, 2, 0, 4_000_000_000);
    dated(4, 0, &above, &most, 2, &[0u8], 4_000_000_000);
}

// A coupon on the expiry row, which stays with the seller: calls and puts on a bond of 1 without it.
fn exercise_days() {
    let level = [ONE; 4];
    let flows = [100_000_000u64, ONE];
    option(2, 0, &level, &flows, 1, 1, 900_000_000);
    option(2, 0, &level, &flows, 3, 1, 900_000_000);
    option(2, 0, &level, &flows, 2, 1, 1_050_000_000);
    option(2, 0, &level, &flows, 4, 1, 1_050_000_000);
    option(2, 0, &level, &flows, 1, 2, 900_000_000);
    option(2, 0, &level, &flows, 4, 2, 1_050_000_000);
}

// The same bond with five lists of dates: one row after the other, then rows that leave one out.
fn five_lists(discounts: &[u64], flows: &[u64], side: u64, strike: u64) {
    let rows = [0u8, 1, 2];
    let ends = [0u8, 2];
    dated(3, 0, discounts, flows, side, one_date(&rows, 2), strike);
    dated(3, 0, discounts, flows, side, one_date(&rows, 1), strike);
    dated(3, 0, discounts, flows, side, one_date(&rows, 0), strike);
    dated(3, 0, discounts, flows, side, &ends, strike);
    dated(3, 0, discounts, flows, side, &rows[1..], strike);
}

// Options that are best exercised on a coupon's row before their expiry.
fn earlier_days() {
    let flows = [100_000_000u64, 100_000_000, ONE];
    let mut low = [ONE; 9];
    low[0] = 900_000_000;
    option(3, 0, &low, &flows, 3, 2, ONE);
    five_lists(&low, &flows, 1, ONE);
    let mut later = [ONE; 9];
    later[1] = 900_000_000;
    later[2] = 900_000_000;
    later[3] = 900_000_000;
    option(3, 0, &later, &flows, 4, 2, 1_050_000_000);
    five_lists(&later, &flows, 2, 1_050_000_000);
}

// A bond that passes the limit on a row before its last, and an option that expires earlier.
fn steep() {
    let steep = [1_100_000_000u64; 36];
    let flows = [
        0u64,
        2_000_000_000,
        2_000_000_000,
        2_000_000_000,
        2_000_000_000,
        2_000_000_000,
    ];
    bond(6, 0, &steep, &flows);
    option(6, 0, &steep, &flows, 2, 1, 0);
    dated(6, 0, &steep, &flows, 2, &[1u8], 0);
    let mut level = [1_100_000_000u64; 36];
    level[0] = 1;
    level[1] = 1;
    level[2] = 1;
    level[3] = 1;
    bond(6, 0, &level, &flows);
}

// A list that is not accepted comes before the bond's value, and after side and strike.
fn order_of_dates() {
    let level = [ONE; 25];
    let most = [2_000_000_000u64; 5];
    let none: [u8; 0] = [];
    dated(5, 0, &level, &most, 1, &[1u8], ONE);
    dated(5, 0, &level, &most, 1, &[5u8], ONE);
    dated(5, 0, &level, &most, 1, &[1u8, 1], ONE);
    dated(5, 0, &level, &most, 1, &none, ONE);
    dated(5, 0, &level, &most, 1, &[4u8, 3], ONE);
    dated(5, 0, &level, &most, 1, &[0u8, 255], ONE);
    dated(5, 0, &level, &most, 1, &[7u8; 256], ONE);
    dated(5, 0, &level, &most, 1, &[5u8], 4_000_000_001);
    dated(5, 0, &level, &most, 3, &none, 0);
    dated(5, 0, &level, &most, 0, &[1u8], 0);
}

// A tree, and the side of the options on it.
#[derive(Clone, Copy)]
struct Sided {
    steps: usize,
    reversion: u64,
    side: u64,
}

fn strip_on(tree: Sided, discounts: &[u64], flows: &[u64], dates: &[u8], strikes: &[u64]) {
    strip(
        tree.steps,
        tree.reversion,
        discounts,
        flows,
        tree.side,
        dates,
        strikes,
    );
}

// Strips of no strike, of one and two, of the most and one less, and of one too many.
fn lengths(tree: Sided, discounts: &[u64], flows: &[u64], dates: &[u8], strikes: &[u64]) {
    strip_on(tree, discounts, flows, dates, first(strikes, 0));
    strip_on(tree, discounts, flows, dates, first(strikes, 1));
    strip_on(tree, discounts, flows, dates, first(strikes, 2));
    strip_on(tree, discounts, flows, dates, first(strikes, 15));
    strip_on(tree, discounts, flows, dates, first(strikes, 16));
    strip_on(tree, discounts, flows, dates, strikes);
}

// The strips of a tree: equal strikes and one above its limit are among them.
fn strips(steps: usize, reversion: u64, discounts: &[u64], all_flows: &[u64], side: u64) {
    let flows = first(all_flows, steps);
    let mut strikes = [0u64; 17];
    fill(&mut strikes, 100_000_000, 97_531_000, 700_000_000);
    strikes[3] = strikes[1];
    strikes[5] = 4_000_000_001;
    let mut every = [0u8; limits::MOST_STEPS];
    fill_dates(&mut every, 0, 1);
    let dates = first(&every, steps / 2 + 1);
    let tree = Sided {
        steps,
        reversion,
        side,
    };
    lengths(tree, discounts, flows, dates, &strikes);
}

fn strips_of_trees(discounts: &[u64], flows: &[u64]) {
    strips(1, 0, discounts, flows, 1);
    strips(12, 0, discounts, flows, 2);
    strips(60, 0, discounts, flows, 2);
    strips(12, 1841, discounts, flows, 1);
    strips(60, 6000, discounts, flows, 1);
}

// One strike is refused with 12, a lower one after it is priced; a strike above its limit beside a bad list, another side and a bond above its
// own limit.
fn strike_causes(steep: &[u64], none: &[u64]) {
    let high = [5_000_000_000u64, ONE, 5_000_000_000];
    strip(
        9,
        0,
        steep,
        none,
        2,
        &[8u8],
        &[4_000_000_000u64, 3_000_000_000, 4_000_000_000, ONE],
    );
    strip(9, 0, steep, none, 2, &[3u8, 3], &high);
    strip(9, 0, steep, none, 3, &[3u8], &high);
    strip(5, 0, &[ONE; 25], &[2_000_000_000u64; 5], 1, &[1u8], &high);
}

// A cause about the tree in every place, and the strip's own causes.
fn strip_causes(steep: &[u64], none: &[u64], flows: &[u64]) {
    let strikes = [4_000_000_000u64, 3_000_000_000];
    strip(9, 0, first(steep, 80), none, 2, &[8u8], &strikes);
    strip(9, 0, steep, flows, 2, &[8u8], &strikes);
    strip(0, 6001, steep, flows, 1, &[0u8], first(&strikes, 0));
    strip(61, 0, steep, flows, 1, &[0u8], &strikes);
    strip(9, 6001, steep, flows, 1, &[0u8], first(&strikes, 0));
    strip(9, 0, steep, flows, 3, &[9u8], first(&strikes, 0));
}

fn causes_of_strips(flows: &[u64]) {
    let steep = [1_100_000_000u64; 81];
    let none = [0u64; 9];
    strike_causes(&steep, &none);
    strip_causes(&steep, &none, flows);
}

// The lower number where two causes apply.
fn tree_refusals(discounts: &[u64], flows: &[u64]) {
    bond(0, 0, discounts, first(flows, 0));
    bond(61, 7000, discounts, flows);
    bond(2, 6001, discounts, flows);
    bond(2, 0, discounts, first(flows, 3));
    bond(2, 0, first(discounts, 3), first(flows, 2));
    dated(61, 0, discounts, flows, 1, &[7u8; 256], 0);
    dated(2, 0, first(discounts, 3), first(flows, 2), 1, &[2u8], 0);
}

fn number_refusals(discounts: &[u64], flows: &[u64]) {
    let over = [2_000_000_001u64, 0];
    let zero = [ONE, ONE, ONE, 0];
    let large = [ONE, 1_100_000_001, ONE, ONE];
    bond(2, 0, &zero, &over);
    bond(2, 0, &large, &over);
    bond(2, 0, discounts, &over);
    option(2, 0, discounts, &over, 0, 1, 0);
    option(2, 0, discounts, flows, 0, 1, 0);
    option(2, 0, discounts, flows, 5, 1, 0);
    option(2, 0, discounts, flows, 1, 3, 0);
    option(2, 0, discounts, flows, 1, 2, 0);
    option(2, 0, discounts, flows, 1, 1, 4_000_000_001);
    option(2, 0, discounts, flows, 2, 1, 4_000_000_000);
    dated(2, 0, discounts, &over, 1, &[2u8], 0);
    dated(2, 0, discounts, flows, 2, &[1u8], 4_000_000_000);
}

fn main() {
    let mut discounts = [0u64; limits::MOST_DISCOUNTS];
    fill(&mut discounts, 930_000_000, 7_919_003, 150_000_001);
    let mut flows = [0u64; limits::MOST_STEPS];
    fill(&mut flows, 20_000_000, 31_415_927, 80_000_009);
    example();
    trees(&discounts, &flows);
    limits();
    exercise_days();
    earlier_days();
    steep();
    order_of_dates();
    tree_refusals(&discounts, &flows);
    number_refusals(&discounts, first(&flows, 2));
    strips_of_trees(&discounts, &flows);
    causes_of_strips(&flows);
}
