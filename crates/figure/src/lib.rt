// A quoted float, taken apart by its bits, to the nearest whole number of billionths.
#![tactic(auto)]

ghost use Rattle.std.specs.Prelude.{◌≡◌, ◌*◌, ◌/◌, ◌%◌, ◌^◌, ◌<◌, ◌≤◌};
ghost use Rattle.std.specs.Float.{binary64};
ghost use Rattle.std.specs.Float.Ieee.{of_bits};
ghost use Rattle.arithmetic.specs.Rounding.{one, nearest};
ghost use Rattle.figure.specs.Figure.{magnitude_of, beyond, figure_given, figure_of, pattern_float};

use arithmetic::Refusal;

// significand × one / 2^shift, to the nearest. The product does not fit 64 bits, so the significand is split at 2^30. A shift above 84
// leaves less than a half.
fn scaled(significand: u64, shift: u64) -> u64
    requires { (significand < 2 ^ 53) × (49 ≤ shift) }
    ensures { result ≡ nearest (significand * one) (2 ^ shift) }
{
    if 84 < shift {
        return 0;
    }
    let one = arithmetic::power_of_ten(9);
    let high = significand / 1_073_741_824;
    let low = significand % 1_073_741_824;
    let whole = high * one + low * one / 1_073_741_824;
    let half = 1u64 << (shift - 31);
    (whole + half) / (half * 2)
}

// The size, in billionths, of the float with these bits. The exponent's field is at most 1026 where the size is at most 10.
fn magnitude(bits: u64) -> u64
    requires { bits % 2 ^ 63 / 2 ^ 52 ≤ 1026 }
    ensures { result ≡ magnitude_of (of_bits binary64 bits) }
{
    let field = bits % 0x8000_0000_0000_0000 / 0x10_0000_0000_0000;
    let digits = bits % 0x10_0000_0000_0000;
    if field == 0 {
        return scaled(digits, 1074);
    }
    scaled(digits + 0x10_0000_0000_0000, 1075 - field)
}

// Whether the float is NaN, infinite or beyond 10 either way.
fn is_beyond(x: f64) -> bool
    ensures { result ≡ beyond x }
{
    if x != x {
        return true;
    }
    if x > 10.0 {
        return true;
    }
    x < -10.0
}

// The figure in billionths, to the nearest, a half going away from zero.
pub fn billionths(x: f64) -> Result<i64, Refusal>
    ensures { figure_given result ≡ figure_of x }
{
    if is_beyond(x) {
        return Err(Refusal::Quote);
    }
    let bits = f64::to_bits(x);
    let size = magnitude(bits);
    if bits < 0x8000_0000_0000_0000 {
        return Ok(size as i64);
    }
    Ok(-(size as i64))
}

// The float with these bits, for a reader of bytes. No float is made of a NaN's pattern, so it gives an infinity, which is refused alike.
pub fn of_pattern(bits: u64) -> f64
    ensures { result ≡ pattern_float bits }
{
    if bits % 0x8000_0000_0000_0000 > 0x7FF0_0000_0000_0000 {
        return f64::from_bits(0x7FF0_0000_0000_0000);
    }
    f64::from_bits(bits)
}
