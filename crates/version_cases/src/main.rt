// The numbers of version 2 for every reversion from 0 to 6,000, a hundred at a time: the sums of the working reversions, of the ratios of the variance
// and of four spacings. vectors.py works the output out apart.
#![tactic(auto)]

ghost use Rattle.std.specs.Prelude.{◌≤◌, ℕ};

const BLOCK: u64 = 100;

const LAST_BLOCK: u64 = 60;

// The working reversion, the ratio of the variance and the spacing, each of version 2.
fn working(reversion: u64) -> u64
    ensures { result ≤ 1000000000 }
{
    reversion::working_reversion(2, reversion).unwrap_or(0)
}

fn ratio(reversion: u64) -> u64
    ensures { result ≤ 1000000000 }
{
    reversion::variance_ratio(2, reversion).unwrap_or(0)
}

fn spaced(frequency: u64, volatility: u64, reversion: u64) -> u64
    ensures { result ≤ 1000000000 }
{
    spacing::version_spacing(2, frequency, volatility, reversion).unwrap_or(0)
}

// The sum of a figure over a block of reversions, with 0 for those beyond the limit.
fn total<F: Fn(u64) -> u64>(block: u64, figure: F) -> u64
    requires within { block ≤ 60 }
    requires always { F.IsAlwaysCallable figure }
    requires small { (x y : ℕ) → F.post figure x y → y ≤ 1000000000 }
{
    let mut sum: u64 = 0;
    for index in 0..BLOCK {
        sum += figure(block * BLOCK + index);
    }
    sum
}

fn show(number: u64) {
    io::write_all(1, b" ");
    io::print_decimal(1, number);
}

fn show_block(block: u64)
    requires { block ≤ 60 }
{
    io::write_all(1, b"block");
    show(block);
    show(total(block, |b| working(b)));
    show(total(block, |b| ratio(b)));
    show(total(block, |b| spaced(1, 10_000, b)));
    show(total(block, |b| spaced(2, 49_999, b)));
    show(total(block, |b| spaced(4, 1_234, b)));
    show(total(block, |b| spaced(12, 50_000, b)));
    io::write_all(1, b"\n");
}

fn main() {
    for block in 0..=LAST_BLOCK {
        show_block(block);
    }
}
