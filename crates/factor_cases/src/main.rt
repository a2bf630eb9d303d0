// Spacings and factors, held against figures that were worked out apart in exact fractions.
#![tactic(auto)]

use arithmetic::{Answer, Refusal};

const HIGHEST: u64 = 18_446_744_073_709_551_615;

const HIGHEST_NODE: i64 = 9_223_372_036_854_775_807;

const LOWEST_NODE: i64 = -9_223_372_036_854_775_808;

const FARTHEST: u64 = 9_223_372_036_854_775_808;

fn show_number(number: u64) {
    io::write_all(1, b" ");
    io::print_decimal(1, number);
}

// The number of a refusal or 0, then the value or 0.
fn show_answer(outcome: Result<u64, Refusal>) {
    let answer = Answer::from(outcome);
    show_number(answer.number);
    show_number(answer.value);
}

// Frequency, volatility, and the answer.
fn show_spacing(frequency: u64, volatility: u64) {
    io::write_all(1, b"spacing");
    show_number(frequency);
    show_number(volatility);
    show_answer(spacing::spacing(frequency, volatility));
    io::write_all(1, b"\n");
}

// Distance with a sign below the middle, spacing, and the answers by distance and side and by the signed node.
fn show_factor(distance: u64, below: bool, node: i64, spacing: u64) {
    io::write_all(1, b"factor");
    if below {
        io::write_all(1, b" below");
    } else {
        io::write_all(1, b" above");
    }
    show_number(distance);
    show_number(spacing);
    show_answer(factor::factor(distance, below, spacing));
    show_answer(factor::factor_of_node(node, spacing));
    io::write_all(1, b"\n");
}

// With no reversion the half width of row n - 1 is n - 1: the steps, and whether they pass cause 8.
fn show_steps(steps: u64, half_width: u64) {
    io::write_all(1, b"steps");
    show_number(steps);
    let spaced = spacing::spacing(1, 50_000).unwrap_or(0);
    show_number(arithmetic::cause(factor::factor(half_width, false, spaced)));
    io::write_all(1, b"\n");
}

fn show_spacings() {
    show_spacing(1, 10_000);
    show_spacing(12, 10_000);
    show_spacing(1, 0);
    show_spacing(12, 0);
    show_spacing(1, 50_000);
    show_spacing(2, 12_345);
    show_spacing(4, 9_999);
    show_spacing(12, 50_000);
    show_spacing(12, 1);
    show_spacing(4, 1);
    show_spacing(3, 10_000);
    show_spacing(0, 10_000);
    show_spacing(1, 50_001);
    show_spacing(6, 60_000);
    show_spacing(HIGHEST, HIGHEST);
    show_spacing(1, HIGHEST);
}

fn show_factors() {
    show_factor(1, true, -1, 1_000_000_000);
    show_factor(1, false, 1, 1_000_000_000);
    show_factor(0, false, 0, 1_000_000_000);
    show_factor(11, false, 11, 86_602_540);
    show_factor(11, true, -11, 86_602_540);
    show_factor(12, false, 12, 86_602_540);
    show_factor(12, true, -12, 86_602_540);
    show_factor(1, false, 1, 17_320_508);
    show_factor(1, true, -1, 17_320_508);
    show_factor(59, false, 59, 416_666);
    show_factor(59, true, -59, 416_666);
    show_factor(7, false, 7, 142_857_142);
    show_factor(7, true, -7, 142_857_142);
    show_factor(1, false, 1, 1);
    show_factor(1, true, -1, 1);
    show_factor(3, false, 3, 333_333_333);
    show_factor(3, true, -3, 333_333_333);
    show_factor(2, false, 2, 500_000_000);
    show_factor(2, true, -2, 499_999_999);
}

// Refusals, and the ends of the types.
fn show_extremes() {
    show_factor(0, false, 0, HIGHEST);
    show_factor(1, false, 1, 1_000_000_001);
    show_factor(1, true, -1, 1_000_000_001);
    show_factor(FARTHEST - 1, false, HIGHEST_NODE, 0);
    show_factor(FARTHEST, true, LOWEST_NODE, 0);
    show_factor(FARTHEST, true, LOWEST_NODE, 1);
    show_factor(FARTHEST, true, LOWEST_NODE, HIGHEST);
    show_factor(FARTHEST - 1, false, HIGHEST_NODE, HIGHEST);
    show_factor(4_294_967_296, false, 4_294_967_296, 4_294_967_296);
    show_factor(1_000_000_000, false, 1_000_000_000, 1);
    show_factor(1_000_000_000, true, -1_000_000_000, 1);
    show_factor(1_000_000_001, false, 1_000_000_001, 1);
}

fn main() {
    show_spacings();
    show_factors();
    show_extremes();
    show_steps(12, 11);
    show_steps(13, 12);
}
