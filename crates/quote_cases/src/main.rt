// Floats, lone points, both rates of discounts and curves, whose answers were worked out apart, in exact fractions (vectors.py).
#![tactic(auto)]

ghost use Rattle.std.specs.Prelude.{◌≤◌, ◌<◌, length};

use arithmetic::Refusal;
use quotes::Point;

// A figure's pattern; a lone point, its frequency, kind, row and pattern; a discount.
type Line = (u64, u64, u8, u64, u64, u64);

// A curve's frequency and steps, the row of its last point, kind and pattern of its first, how many kinds and how many places are lent.
type Curve = (u64, usize, u64, u8, u64, usize, usize);

const LINES: [Line; 64] = [
    (0xBF647AE147AE147B, 1, 6, 1, 0xBF647AE147AE147B, 0),
    (0x3F50000000000000, 1, 5, 1, 0x4000000000000000, 1),
    (0x8000000000000000, 1, 5, 1, 0x4000000000149DA8, 2),
    (0x0000000000000000, 1, 5, 60, 0x3FB999999999999A, 3),
    (0x0000000000000001, 1, 5, 1, 0x3FB999999705E49D, 999999999),
    (0x000FFFFFFFFFFFFF, 4, 5, 1, 0xBFE0000000000000, 1000000000),
    (0x0010000000000000, 12, 5, 7, 0x3FF00A3D70A3D70A, 1000000001),
    (0x8000000000000001, 2, 5, 30, 0x0000000000000000, 1002500000),
    (0x4024000000000000, 1, 6, 1, 0xBFE0000000000000, 1100000000),
    (0xC024000000000000, 1, 6, 1, 0xBFE000000089705F, 1100000001),
    (
        0x4024000000000001,
        1,
        6,
        1,
        0x4022000000000000,
        18446744073709551615,
    ),
    (0xC024000000000001, 1, 6, 1, 0x4022000000089706, 327680000),
    (0x4023FFFFFFFFFFFF, 1, 6, 1, 0xBFF0000000000000, 524288),
    (0x7FF8000000000000, 12, 6, 60, 0xBFC999999999999A, 2621440),
    (0x7FF0000000000000, 12, 6, 60, 0xBFB999999999999A, 13107200),
    (0xFFF0000000000000, 12, 6, 60, 0x4024000000000000, 65536000),
    (0xFFF0000000000001, 3, 6, 61, 0x7FF8000000000000, 500000000),
    (0x7FEFFFFFFFFFFFFF, 0, 5, 1, 0x3FF0000000000000, 666666667),
    (0x3FF0000000000000, 13, 5, 1, 0x3FF0000000000000, 999999998),
    (0x3FF00A3D70A3D70A, 1, 5, 0, 0x3FF0000000000000, 1000000002),
    (0xBF68000000000000, 1, 5, 61, 0x7FF0000000000000, 1000500000),
    (0x4023FF8000000000, 2, 7, 1, 0x3FF0000000000000, 950000000),
    (0xC023FF8000000000, 2, 0, 1, 0x3FF0000000000000, 10),
    (0x3E012E0BE826D695, 2, 255, 60, 0x3FF0000000000000, 7),
    (0x3E012E0BE826D696, 1, 5, 1, 0x7FF8000000000000, 331602951),
    (0xBE012E0BE826D694, 1, 6, 1, 0xFFF0000000000000, 800076082),
    (0x3FD5555555555555, 1, 6, 1, 0x4024000000000001, 339576555),
    (0xBFB999999999999A, 4, 6, 60, 0x3F9EB851EB851EB8, 355005224),
    (0x3E00000000000000, 2, 6, 7, 0xBE00D615E8A0F102, 769846995),
    (0x3E19C511DC3A41DF, 12, 6, 1, 0xBE112E0BE826D695, 288008171),
    (0x4023FFFFFFFBB47D, 1, 6, 60, 0x3FC3333333333333, 380205376),
    (0xC023FFFFFFFAD896, 1, 6, 60, 0x3FC333333558F4B0, 658545236),
    (0xBEB058ABE5363557, 12, 6, 44, 0x3FBD5D4D97747FE5, 545342831),
    (0x3E70B581FF53BC68, 4, 6, 19, 0x3FBA1F39368D981F, 1041621031),
    (0xBEE3DDD07D578155, 1, 6, 38, 0x3F988527ACC7BA7F, 954317692),
    (0x3E3965237A1C158A, 2, 6, 2, 0x3FB0BD15D75DC1EB, 403601361),
    (0x3F18ED765D60CCB8, 12, 6, 15, 0x3FB5523E032D6857, 595982914),
    (0x3FD771F1D994B270, 12, 6, 20, 0x3FB9804492733119, 806415239),
    (0x3E80701448876AA8, 2, 6, 18, 0x3FA91B9B60023F8E, 985402268),
    (0x3ECA2E852844E8EA, 1, 6, 2, 0x3FAE4BFBE3950B52, 393961920),
    (0xBE99467039EC30AE, 2, 9, 1, 0x3E3E1094D643F784, 18315637),
    (0x3F0D1C2075D6DE39, 2, 9, 1, 0xBE3E1094D643F784, 18315638),
    (0x3ECD03090C534A7F, 1, 9, 1, 0x4010000000000000, 18315639),
    (0x3F8751EC1B24B7CD, 1, 9, 1, 0xC010000000000000, 999999996),
    (0xBFE24A82A30BB58C, 1, 9, 1, 0x4010000000112E0C, 999999997),
    (0x3F471DF456973173, 12, 9, 60, 0x3FE999999999999A, 999999999),
    (
        0xBF056E756BC58ADE,
        12,
        9,
        60,
        0xBFE999999999999A,
        1000000003,
    ),
    (0x3FED8D5682E5FFA0, 1, 9, 60, 0xC024000000000000, 1000000004),
    (0xBE8231F478E2406D, 1, 9, 1, 0x40026BB1BA5DF087, 484106437),
    (0xBE8EA04A8A6AA36A, 1, 9, 1, 0x40026BB1BA804C9F, 853004019),
    (0xBF4A8E7164772E3E, 1, 9, 1, 0xBFE62E4306BADA31, 853004020),
    (0x3EC6F833194C0946, 1, 9, 1, 0xBFE62E4307444A90, 1099999999),
    (0xBF133E6C35277E2F, 1, 9, 1, 0x7FF8000000000000, 367879441),
    (0x3ED4C2C3ABBDD065, 2, 9, 3, 0x7FF0000000000000, 135335283),
    (0x3EADA672F5058849, 12, 9, 1, 0x4024000000000000, 49787068),
    (0x3E50EE185224CF78, 12, 9, 1, 0x4024000000000001, 20000000),
    (0xBEE27F51A9612091, 1, 9, 1, 0x8000000000000000, 1000000005),
    (0x3FE5FD44B5512484, 4, 9, 7, 0x3FA3333333333333, 1000000006),
    (0x3EDC59519A0D9D5E, 1, 9, 60, 0xBF878D4FDF3B645A, 1050000000),
    (0x3F4635D18548A30C, 12, 9, 60, 0x3FD999999999999A, 990049834),
    (0x3F5CEB415F6801C3, 3, 9, 1, 0x3FA999999999999A, 904837418),
    (0xBEE46EC9BD3B55B1, 1, 9, 61, 0x3FA999999999999A, 740818221),
    (0x3EE43BE585180151, 12, 9, 59, 0xBF647AE147AE147B, 606530660),
    (0xBFC8F867E480A8C0, 4, 9, 3, 0xBE112E0BE826D695, 1001000500),
];

const CURVES: [Curve; 20] = [
    (1, 3, 3, 5, 0x3FEEB851EB851EB8, 3, 5),
    (2, 3, 3, 6, 0xBF647AE147AE147B, 3, 3),
    (1, 3, 3, 5, 0x7FF8000000000000, 3, 5),
    (1, 3, 2, 5, 0x7FF8000000000000, 3, 5),
    (1, 3, 4, 5, 0x3FEEB851EB851EB8, 3, 5),
    (1, 3, 3, 5, 0x7FF8000000000000, 2, 5),
    (1, 3, 3, 5, 0x3FEEB851EB851EB8, 3, 2),
    (1, 3, 3, 5, 0x7FF8000000000000, 3, 0),
    (1, 2, 3, 5, 0x3FEEB851EB851EB8, 3, 5),
    (1, 4, 3, 5, 0x3FEEB851EB851EB8, 3, 5),
    (1, 0, 9, 5, 0x7FF8000000000000, 3, 5),
    (1, 61, 9, 5, 0x7FF8000000000000, 3, 5),
    (5, 61, 9, 5, 0x7FF8000000000000, 3, 0),
    (12, 3, 3, 7, 0x3FEEB851EB851EB8, 3, 4),
    (4, 3, 3, 5, 0x4004000000000000, 3, 5),
    (1, 3, 3, 9, 0x3FA47AE147AE147B, 3, 5),
    (4, 3, 3, 9, 0xBF647AE147AE147B, 3, 4),
    (1, 3, 3, 9, 0x4010000000112E0C, 3, 5),
    (2, 3, 3, 9, 0x7FF8000000000000, 3, 3),
    (2, 3, 3, 8, 0x3FEEB851EB851EB8, 3, 5),
];

fn print_refusal(refusal: Refusal) {
    io::write_all(1, b"refused ");
    io::print_decimal(1, refusal.number());
}

fn print_whole(outcome: Result<u64, Refusal>) {
    match outcome {
        Ok(value) => {
            io::print_decimal(1, value);
        }
        Err(refusal) => print_refusal(refusal),
    }
}

fn print_signed(outcome: Result<i64, Refusal>) {
    match outcome {
        Ok(value) => {
            if value < 0 {
                io::write_all(1, b"-");
            }
            io::print_decimal(1, value.unsigned_abs());
        }
        Err(refusal) => print_refusal(refusal),
    }
}

fn show_figure(bits: u64) {
    print_signed(figure::billionths(figure::of_pattern(bits)));
}

fn show_point(frequency: u64, kind: u8, row: u64, bits: u64) {
    let point = Point {
        row,
        figure: figure::of_pattern(bits),
    };
    print_whole(quotes::lone_point(frequency, kind, point));
}

fn show_rate(discount: u64) {
    print_signed(step_rate::of_discount(discount));
}

fn show_continuous_rate(discount: u64) {
    print_signed(continuous_rate::of_discount(discount));
}

// A figure, a discount and a discount's two rates, on a line.
fn show_line(line: Line) {
    let (pattern, frequency, kind, row, figure, discount) = line;
    show_figure(pattern);
    io::write_all(1, b", ");
    show_point(frequency, kind, row, figure);
    io::write_all(1, b", ");
    show_rate(discount);
    io::write_all(1, b", ");
    show_continuous_rate(discount);
    io::write_all(1, b"\n");
}

fn print_memory(memory: &[u64]) {
    for number in memory {
        io::write_all(1, b" ");
        io::print_decimal(1, *number);
    }
    io::write_all(1, b"\n");
}

// The number of a curve, and the memory afterwards, of which the first `room` places are lent.
fn show_lent(
    frequency: u64,
    steps: usize,
    rows: &[u64],
    kinds: &[u8],
    figures: &[f64],
    memory: &mut [u64],
    room: usize,
)
    requires { room ≤ length memory.old }
{
    let converted = curve::convert(frequency, steps, rows, kinds, figures, &mut memory[..room]);
    io::print_decimal(1, arithmetic::cause(converted));
    print_memory(memory);
}

// A curve of three points, the last without its kind where two kinds are lent, and a memory of five.
fn show_curve(curve: Curve) {
    let (frequency, steps, last_row, kind, bits, lent, places) = curve;
    let rows = [1, 2, last_row];
    let kinds = [kind, 6, 5];
    let figures = [figure::of_pattern(bits), 0.05, 0.875];
    let mut memory = [4u64; 5];
    if places > 5 {
        return;
    }
    show_lent(
        frequency,
        steps,
        &rows,
        &kinds[..lent.min(3)],
        &figures,
        &mut memory,
        places,
    );
}

fn main() {
    for line in LINES {
        show_line(line);
    }
    for curve in CURVES {
        show_curve(curve);
    }
}
