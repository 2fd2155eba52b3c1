// The square root of an f64, by the whole square root of a whole number.
#![tactic(auto)]

ghost use Rattle.std.specs.Prelude.{◌≡◌, true, false, ◌+◌, ◌*◌, ◌^◌, ◌≤◌, ◌<◌, T, pos};
ghost use Rattle.std.specs.Float.Ieee as Ieee;
ghost use Rattle.std.specs.Float.{binary64};
ghost use Rattle.spec_arithmetic.specs.Root.{root_of};
ghost use Rattle.tonekit_root.specs.Nearest.{Near};

use tonekit_float::Positive;

// The whole number nearest to the root of a * 2^52: the whole root of a and 26 more binary digits,
// each with what is left over, and then one more if what is left is past the half.
fn digits_root(a: u64) -> u64
    requires { (2 ^ 52 ≤ a) × (a < 2 ^ 54) }
    ensures { Near (a * 2 ^ 52) result × (result ≤ 2 ^ 53) }
{
    let mut r = a.isqrt();
    let mut left = a - r * r;
    for _ in 0..26u64 {
        r *= 2;
        left *= 4;
        if 2 * r < left {
            left -= 2 * r + 1;
            r += 1;
        }
    }
    if r < left { r + 1 } else { r }
}

// q * 2^(f - 1023), exactly.
fn times(q: u64, f: u64) -> f64
    requires { (0 < q) × (q ≤ 2 ^ 53) × (0 < f) × (f < 2046) }
    ensures { result ≡ Ieee.round binary64 false (q * 2 ^ f) (2 ^ 1023) }
{
    (q as f64) * f64::from_bits(f * 0x10_0000_0000_0000)
}

// A number a = x * 4^n.
#[derive(Drop)]
pub struct Scaled {
    pub a: u64,
    pub n: u64,
}

// x * 4^n, with the n at which it has 53 or 54 digits.
fn raised(x: u64) -> Scaled
    requires { (0 < x) × (x < 2 ^ 52) }
    ensures { (result.a ≡ x * 4 ^ result.n) × (2 ^ 52 ≤ result.a) × (result.a < 2 ^ 54) × (result.n ≤ 26) }
{
    let n = (53 - x.ilog2()) / 2;
    Scaled {
        a: x << (2 * n),
        n: u64::from(n),
    }
}

// The root of a float above 0 and below infinity.
fn root_above(x: Positive) -> f64
    requires { T (Ieee.lt x.value (Ieee.inf false)) }
    ensures { result ≡ root_of x.value }
{
    let b = f64::to_bits(x.value);
    let field = b / 0x10_0000_0000_0000;
    let digits = b % 0x10_0000_0000_0000;
    if field == 0 {
        let s = raised(digits);
        times(digits_root(s.a), 460 - s.n)
    } else {
        let g = field - 1;
        let d = digits + 0x10_0000_0000_0000;
        if g % 2 == 0 {
            times(digits_root(d), 460 + g / 2)
        } else {
            times(digits_root(2 * d), 460 + g / 2)
        }
    }
}

// The square root, rounded to the nearest f64. A zero gives itself, +infinity itself, a negative
// number and NaN give NaN.
pub fn sqrt(x: f64) -> f64
    ensures { result ≡ root_of x }
{
    if x > 0.0 {
        if x < f64::INFINITY {
            root_above(Positive { value: x })
        } else {
            x
        }
    } else if x == 0.0 {
        x
    } else {
        f64::NAN
    }
}
