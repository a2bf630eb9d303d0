// Document 002's exhibit 2, and exhibit 3 from the document's own yields: its state prices and its rates, which are continuous. Each figure is
// held against its printed digits within the units that document 01 names, exhibit 3's rates within one. Then refusals that document 01 gives
// as run figures. What must be printed is worked out apart by reference.py.
#![tactic(auto)]

ghost use Rattle.std.specs.Prelude.{◌≤◌};

// A value times a scale, against a printed figure in units: met where they differ by at most so many units.
fn compare(value: u64, scale: u64, printed: u64, unit: u64, units: u64)
    requires { (scale ≤ 1000) × (printed ≤ 10000) × (unit ≤ 600000000) × (units ≤ 2) }
{
    io::write_all(1, b" ");
    io::print_decimal(1, value);
    if 2_000_000_000 < value {
        io::write_all(1, b" missed");
        return;
    }
    let exact = value * scale;
    let shown = printed * unit;
    let room = units * unit;
    if exact + room < shown {
        io::write_all(1, b" missed");
        return;
    }
    if shown + room < exact {
        io::write_all(1, b" missed");
        return;
    }
    io::write_all(1, b" met");
}

// A rate in hundredths of a percent.
fn rate(value: u64, printed: u64)
    requires { printed ≤ 10000 }
{
    io::write_all(1, b"rate");
    compare(value, 1, printed, 100_000, 1);
    io::write_all(1, b"\n");
}

// The continuous rate of a node's discount.
fn node_rate(discount: u64, printed: u64)
    requires { printed ≤ 10000 }
{
    let found = continuous_rate::of_discount(discount).unwrap_or(0);
    if found < 0 {
        io::write_all(1, b"rate below zero\n");
        return;
    }
    rate(found as u64, printed);
}

// The probabilities of a node of row 2, in thousandths.
fn branch(node: i64, up: u64, middle: u64, down: u64)
    requires { (up ≤ 1000) × (middle ≤ 1000) × (down ≤ 1000) }
{
    let Ok(found) = branches::branch(1000, 2, node) else {
        io::write_all(1, b"no branch\n");
        return;
    };
    let chances = found.probabilities;
    io::write_all(1, b"branch");
    compare(chances[0], 1000, up, 600_000_000, 1);
    compare(chances[1], 1000, middle, 600_000_000, 1);
    compare(chances[2], 1000, down, 600_000_000, 1);
    io::write_all(1, b"\n");
}

// A state price, in ten-thousandths.
fn price(value: u64, printed: u64)
    requires { printed ≤ 10000 }
{
    io::write_all(1, b"price");
    compare(value, 1, printed, 100_000, 2);
    io::write_all(1, b"\n");
}

fn number(word: &[u8], value: u64) {
    io::write_all(1, word);
    io::print_decimal(1, value);
    io::write_all(1, b"\n");
}

fn exhibit_two() {
    rate(spacing::spacing(1, 10_000).unwrap_or(0), 173);
    rate(spacing::spacing(1, 20_000).unwrap_or(0), 346);
    branch(0, 167, 666, 167);
    branch(1, 122, 656, 222);
    branch(-1, 222, 656, 122);
    branch(2, 887, 26, 87);
    branch(-2, 87, 26, 887);
}

// Nodes A to I as the tree stores them, each row's lowest first.
fn exhibit_three_rates(discounts: &[u64; 9]) {
    node_rate(discounts[0], 382);
    node_rate(discounts[1], 347);
    node_rate(discounts[2], 520);
    node_rate(discounts[3], 693);
    node_rate(discounts[4], 279);
    node_rate(discounts[5], 452);
    node_rate(discounts[6], 625);
    node_rate(discounts[7], 798);
    node_rate(discounts[8], 971);
}

fn exhibit_three() {
    let rows: [u64; 3] = [1, 2, 3];
    let kinds: [u8; 3] = [9, 9, 9];
    let figures: [f64; 3] = [0.0382364894294364, 0.04511618369644845, 0.05086258738130052];
    let mut discounts = [0u64; 9];
    let mut state_prices = [0u64; 14];
    let fitted = fitting::fit(
        1,
        3,
        1000,
        10_000,
        &rows,
        &kinds,
        &figures,
        &mut discounts,
        &mut state_prices,
    );
    number(b"fit ", arithmetic::cause(fitted));
    price(state_prices[1], 1604);
    price(state_prices[2], 6417);
    price(state_prices[3], 1604);
    price(state_prices[4], 189);
    price(state_prices[5], 2032);
    price(state_prices[6], 4737);
    price(state_prices[7], 1997);
    price(state_prices[8], 183);
    exhibit_three_rates(&discounts);
}

fn lone() {
    let rows: [u64; 1] = [1];
    let kinds: [u8; 1] = [5];
    let figures: [f64; 1] = [1.2];
    let mut discounts = [0u64; 1];
    let mut state_prices = [0u64; 4];
    let fitted = fitting::fit(
        1,
        1,
        0,
        0,
        &rows,
        &kinds,
        &figures,
        &mut discounts,
        &mut state_prices,
    );
    number(b"lone ", arithmetic::cause(fitted));
}

// Cause 8's pair: flat curves of 12 and of 13 rows.
fn wide(steps: usize) -> u64 {
    let rows: [u64; 13] = [1, 2, 3, 4, 5, 6, 7, 8, 9, 10, 11, 12, 13];
    let kinds: [u8; 13] = [5, 5, 5, 5, 5, 5, 5, 5, 5, 5, 5, 5, 5];
    let figures: [f64; 13] = [
        1.0, 1.0, 1.0, 1.0, 1.0, 1.0, 1.0, 1.0, 1.0, 1.0, 1.0, 1.0, 1.0,
    ];
    let mut discounts = [0u64; 169];
    let mut state_prices = [0u64; 196];
    if 13 < steps {
        return 0;
    }
    arithmetic::cause(fitting::fit(
        1,
        steps,
        0,
        50_000,
        &rows[..steps],
        &kinds[..steps],
        &figures[..steps],
        &mut discounts,
        &mut state_prices,
    ))
}

fn main() {
    exhibit_two();
    exhibit_three();
    lone();
    number(b"wide 12 ", wide(12));
    number(b"wide 13 ", wide(13));
}
