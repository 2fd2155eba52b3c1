// Floats of any bit pattern: bits, conversions, minimum and maximum, whole parts and
// the comparisons that Rust has as methods.
#![tactic(auto)]

ghost use Rattle.std.specs.Prelude.{◌≡◌, ℕ, ◌+◌, ◌-◌, true, false, T, pos, from_bits, to_bits, refl};
ghost use Rattle.std.specs.Float.Ieee as Ieee;
ghost use Rattle.std.specs.Float.{Float, Format, binary32, binary64, inf, fin};
ghost use Rattle.std.specs.Ordering.{float_partial_cmp};
ghost use Rattle.std.specs.Float.Ieee.{of_int};
ghost use Rattle.std.specs.Float.Ieee.Scale.{finite};
ghost use Rattle.spec_arithmetic.specs.Narrow.{narrowed};
ghost use Rattle.spec_arithmetic.specs.Pick.{lesser, greater};
ghost use Rattle.spec_arithmetic.specs.Magnitude.{total_le};
ghost use Rattle.spec_arithmetic.specs.Whole.{whole_part, round_up};

use std::ops::Sub;

// A float of either width: its bits, its order, its differences and its infinities.
pub trait AnyFloat: PartialOrd + Copy + Sub<Output = Self> {
    // The whole number of as many bits.
    type Bits: Copy;

    ghost format: { Format };

    // A value as the clauses see a float, and bits as they see a number.
    ghost float: { Self → Float };

    ghost number: { Self.Bits → ℕ };

    const INFINITY: Self;

    ghost INFINITY: { Self };

    const MINUS_INFINITY: Self;

    ghost MINUS_INFINITY: { Self };

    // The float of any bits: every NaN pattern gives the one NaN.
    fn of_bits(b: Self::Bits) -> Self
        ensures { float result ≡ from_bits format (number b) };

    // The bits of any float: a NaN's are the quiet one's with a clear sign.
    fn bits(self) -> Self::Bits
        ensures { number result ≡ to_bits format (float self) };

    // The comparisons are those of floats.
    ghost eq_law: { (a b : Self) → Self.eq a b ≡ Ieee.eq (float a) (float b) };

    ghost order_law: { (a b : Self)
        → Self.partial_cmp a b ≡ float_partial_cmp (float a) (float b) };

    // Any two have a difference, and it is that of floats.
    ghost can_sub_law: { (a b : Self) → Self.can_sub a b };

    ghost sub_law: { (a b d : Self)
        → Self.sub_gives a b d → float d ≡ Ieee.sub format (float a) (float b) };

    ghost infinity_law: { float INFINITY ≡ inf false };

    ghost minus_infinity_law: { float MINUS_INFINITY ≡ inf true };
}

impl AnyFloat for f32 {
    type Bits = u32;

    ghost format = { binary32 };

    ghost float = { λ x. x };

    ghost number = { λ b. b };

    const INFINITY: f32 = f32::INFINITY;

    ghost INFINITY = { inf false };

    const MINUS_INFINITY: f32 = f32::NEG_INFINITY;

    ghost MINUS_INFINITY = { inf true };

    fn of_bits(b: u32) -> f32 {
        std::num::f32_from_bits_with_nan(b)
    }

    fn bits(self) -> u32 {
        std::num::f32_to_bits_with_nan(self)
    }

    ghost eq_law = { λ a b. refl };

    ghost order_law = { λ a b. refl };

    ghost can_sub_law = { λ a b. tt };

    ghost sub_law = { λ a b d e. e };

    ghost infinity_law = { refl };

    ghost minus_infinity_law = { refl };
}

impl AnyFloat for f64 {
    type Bits = u64;

    ghost format = { binary64 };

    ghost float = { λ x. x };

    ghost number = { λ b. b };

    const INFINITY: f64 = f64::INFINITY;

    ghost INFINITY = { inf false };

    const MINUS_INFINITY: f64 = f64::NEG_INFINITY;

    ghost MINUS_INFINITY = { inf true };

    fn of_bits(b: u64) -> f64 {
        std::num::f64_from_bits_with_nan(b)
    }

    fn bits(self) -> u64 {
        std::num::f64_to_bits_with_nan(self)
    }

    ghost eq_law = { λ a b. refl };

    ghost order_law = { λ a b. refl };

    ghost can_sub_law = { λ a b. tt };

    ghost sub_law = { λ a b d e. e };

    ghost infinity_law = { refl };

    ghost minus_infinity_law = { refl };
}

// The lesser of two: of a NaN and a number the number, of two zeros the earlier.
// Stays: std's min may give either of two zeros, and the formats name the earlier.
pub fn lesser<F: AnyFloat>(a: F, b: F) -> F
    ensures { F.float result ≡ lesser (F.float a) (F.float b) }
{
    if a != a {
        return b;
    }
    if b < a { b } else { a }
}

// The greater of two, by the same rule.
// Stays: std's max may give either of two zeros, and the formats name the earlier.
pub fn greater<F: AnyFloat>(a: F, b: F) -> F
    ensures { F.float result ≡ greater (F.float a) (F.float b) }
{
    if a != a {
        return b;
    }
    if a < b { b } else { a }
}

// Whether x is a number: neither an infinity nor a NaN.
pub fn is_finite<F: AnyFloat>(x: F) -> bool
    ensures { result ≡ finite (F.float x) }
{
    F::MINUS_INFINITY < x && x < F::INFINITY
}

// n as an f32, rounded to nearest, ties to even.
pub fn f32_of(n: u32) -> f32
    ensures { result ≡ of_int binary32 (pos n) }
{
    std::num::nearest_u32_to_f32(n)
}

// n as an f64, rounded to nearest, ties to even.
pub fn f64_of(n: usize) -> f64
    ensures { result ≡ of_int binary64 (pos n) }
{
    if n < 0x20_0000_0000_0000 {
        (n as i64) as f64
    } else {
        std::num::nearest_u64_to_f64(n as u64)
    }
}

// The exponent's field, in an f64, of the least f32 that is not subnormal.
const LEAST_FIELD: u64 = 897;

// A float above 0.
#[derive(Clone, Copy)]
pub struct Positive {
    pub value: f64,
    ghost above: { T (Ieee.lt (fin false 0 (pos 0)) value) },
}

// The nearest f32 to a float above 0. From halfway past the largest f32 on it is infinity. Below that
// x is added to a power of two so large that the sum's last digit is the last that an f32 near x
// has, so the sum rounds as the cast would, and the rest is exact.
fn narrow_above(positive: Positive) -> f32
    ensures { result ≡ narrowed positive.value }
{
    let x = positive.value;
    if x < 340282356779733661637539395458142568448.0 {
        let field = f64::to_bits(x) / 0x10_0000_0000_0000;
        let c = f64::from_bits((field.max(LEAST_FIELD) + 29) * 0x10_0000_0000_0000);
        ((x + c) - c) as f32
    } else {
        f32::INFINITY
    }
}

// The nearest f32, ties to even; a NaN gives the NaN.
pub fn narrow(x: f64) -> f32
    ensures { result ≡ narrowed x }
{
    if x > 0.0 {
        narrow_above(Positive { value: x })
    } else if x < 0.0 {
        -narrow_above(Positive { value: -x })
    } else if x == 0.0 {
        x as f32
    } else {
        f32::NAN
    }
}

// Whether a is at most b, a NaN being the greatest. It is the order of Rust's `total_cmp` for values
// whose sign bit is clear, where a NaN stands above infinity; the port compares no others by it.
// Stays: std's `total_cmp` tells the signs of zeros and of NaNs apart, and this order doesn't.
pub fn total_le(a: f64, b: f64) -> bool
    ensures { result ≡ total_le a b }
{
    if b != b {
        return true;
    }
    a <= b
}

// The whole part of x. The caller has tested that x is not negative and is below 2^53: no index
// stands for any other float.
pub fn floor_index(x: f64) -> usize
    requires low { T (Ieee.le (fin false 0 (pos 0)) x) }
    requires high { T (Ieee.lt x (fin false 1 (pos 53))) }
    ensures { result ≡ whole_part x }
{
    std::num::truncating_f64_to_u64(x) as usize
}

// The least whole number that is x or more, and 0 for an x below 0. The caller has tested that x is
// below 2^53, and so no NaN: no index stands for any other float.
pub fn ceil_index(x: f64) -> usize
    requires { T (Ieee.lt x (fin false 1 (pos 53))) }
    ensures { result ≡ round_up x }
{
    if x > 0.0 {
        let n = floor_index(x);
        if (n as f64) < x { n + 1 } else { n }
    } else {
        0
    }
}
