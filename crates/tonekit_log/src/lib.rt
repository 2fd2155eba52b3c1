// The natural and the binary logarithm, and the exponential, each for every f64: single f64
// operations, each rounded once, in a fixed order.
#![tactic(auto)]

ghost use Rattle.std.specs.Prelude.{◌≡◌, ◌<◌, ◌≤◌, ◌≤ℤ◌, true, false, not, T, pos, neg_ℤ};
ghost use Rattle.std.specs.Float.Ieee as Ieee;
ghost use Rattle.spec_arithmetic.specs.Log.{series, centred, ln_of, log2_of};
ghost use Rattle.spec_arithmetic.specs.Exp.{exp_series, floor_of, exp_of};
ghost use Rattle.tonekit_log.specs.Found.{fields, scaled, IsPartsOf};

pub use spec_arithmetic::Parts;
use tonekit_float::Positive;

const LN2_HI: f64 = 0.6931471803691238;

const LN2_LO: f64 = 1.9082149292705877e-10;

const LOG2E: f64 = 1.4426950408889634;

// (2 s) p, with s = (m - 1) / (m + 1) and p the sum of s^(2j) / (2j + 1) for j from 0 to 11.
fn log_series(m: f64) -> f64
    ensures { result ≡ series m }
{
    // A line for each term, in the order in which the operations are to be rounded.
    // Stays: tried as a fold over the divisors; that the fold gives the definition's `log_horner` did not close.
    let s = (m - 1.0) / (m + 1.0);
    let z = s * s;
    let mut p = 1.0 / 23.0;
    p = p * z + 1.0 / 21.0;
    p = p * z + 1.0 / 19.0;
    p = p * z + 1.0 / 17.0;
    p = p * z + 1.0 / 15.0;
    p = p * z + 1.0 / 13.0;
    p = p * z + 1.0 / 11.0;
    p = p * z + 1.0 / 9.0;
    p = p * z + 1.0 / 7.0;
    p = p * z + 1.0 / 5.0;
    p = p * z + 1.0 / 3.0;
    p = p * z + 1.0 / 1.0;
    (2.0 * s) * p
}

// The digits of a normal x above 0 with the exponent of 1, and x's exponent.
fn fields(x: f64) -> Parts
    requires { T (not (Ieee.is_nan x)) }
    ensures { result ≡ fields x }
{
    let b = f64::to_bits(x);
    let m = f64::from_bits(0x3ff0_0000_0000_0000 + b % 0x10_0000_0000_0000);
    let e = std::num::nearest_u64_to_f64(b / 0x10_0000_0000_0000) - 1023.0;
    Parts { m, e }
}

// A subnormal is scaled by 2^54 first, and e lowered by 54.
fn scaled(positive: Positive) -> Parts
    requires { T (Ieee.lt positive.value (Ieee.inf false)) }
    ensures { result ≡ scaled positive.value }
{
    let x = positive.value;
    if x < 2.2250738585072014e-308 {
        let p = fields(x * 18014398509481984.0);
        Parts {
            m: p.m,
            e: p.e - 54.0,
        }
    } else {
        fields(x)
    }
}

// m above the root of 2 is halved, and e raised by 1.
fn centred(p: Parts) -> Parts
    ensures { result ≡ centred p }
{
    if p.m > 1.4142135623730951 {
        Parts {
            m: p.m * 0.5,
            e: p.e + 1.0,
        }
    } else {
        p
    }
}

// The digits and the exponent of a number above 0, centred, or what both logarithms give where
// there are none: of zero -infinity, of +infinity itself, of a negative number and NaN NaN.
fn split(x: f64) -> Result<Parts, f64>
    ensures { IsPartsOf x result }
{
    if x > 0.0 {
        if x < f64::INFINITY {
            Ok(centred(scaled(Positive { value: x })))
        } else {
            Err(x)
        }
    } else if x == 0.0 {
        Err(f64::NEG_INFINITY)
    } else {
        Err(f64::NAN)
    }
}

// The natural logarithm. Zero gives -infinity, +infinity itself, a negative number and NaN give NaN.
pub fn ln(x: f64) -> f64
    ensures { result ≡ ln_of x }
{
    match split(x) {
        Ok(p) => p.e * LN2_HI + (log_series(p.m) + p.e * LN2_LO),
        Err(limit) => limit,
    }
}

// The logarithm to base 2, with the same answers where there is none.
pub fn log2(x: f64) -> f64
    ensures { result ≡ log2_of x }
{
    match split(x) {
        Ok(p) => p.e + log_series(p.m) * LOG2E,
        Err(limit) => limit,
    }
}

// q of `exp`: for j from 13 down to 1, q becomes 1 + (r q) / j.
fn exp_series(r: f64) -> f64
    ensures { result ≡ exp_series r }
{
    // A line for each term, in the order in which the operations are to be rounded.
    // Stays: tried as a fold over the divisors; that the fold gives the definition's `exp_horner` did not close.
    let mut q = 1.0;
    q = 1.0 + (r * q) / 13.0;
    q = 1.0 + (r * q) / 12.0;
    q = 1.0 + (r * q) / 11.0;
    q = 1.0 + (r * q) / 10.0;
    q = 1.0 + (r * q) / 9.0;
    q = 1.0 + (r * q) / 8.0;
    q = 1.0 + (r * q) / 7.0;
    q = 1.0 + (r * q) / 6.0;
    q = 1.0 + (r * q) / 5.0;
    q = 1.0 + (r * q) / 4.0;
    q = 1.0 + (r * q) / 3.0;
    q = 1.0 + (r * q) / 2.0;
    q = 1.0 + (r * q) / 1.0;
    q
}

// How far below 0 the whole number at or below t is, for a t from -1022 up and below 0.
fn depth(t: f64) -> u64
    requires high { T (Ieee.lt t (Ieee.fin false 0 (pos 0))) }
    requires low { T (Ieee.le (Ieee.fin true 511 (pos 1)) t) }
    ensures { (floor_of t ≡ neg_ℤ (pos result)) × (0 < result) × (result ≤ 1022) }
{
    let y = -t;
    let u = std::num::truncating_f64_to_u64(y);
    if std::num::nearest_u64_to_f64(u) < y {
        u + 1
    } else {
        u
    }
}

// The whole number at or below t, for a t from -1022 to 1022.
fn whole_below(t: f64) -> i64
    requires low { T (Ieee.le (Ieee.fin true 511 (pos 1)) t) }
    requires high { T (Ieee.le t (Ieee.fin false 511 (pos 1))) }
    ensures value { result ≡ floor_of t }
    ensures range { (neg_ℤ (pos 1022) ≤ℤ result) × (result ≤ℤ pos 1022) }
{
    if t < 0.0 {
        -(depth(t) as i64)
    } else {
        std::num::truncating_f64_to_u64(t) as i64
    }
}

// e to the power v. NaN gives NaN, below -708 it is 0, above 708 +infinity.
pub fn exp(v: f64) -> f64
    ensures { result ≡ exp_of v }
{
    if v != v {
        return v;
    }
    if v < -708.0 {
        return 0.0;
    }
    if v > 708.0 {
        return f64::INFINITY;
    }
    let t = v * LOG2E + 0.5;
    let n = whole_below(t);
    let r = (v - (n as f64) * LN2_HI) - (n as f64) * LN2_LO;
    exp_series(r) * f64::from_bits(((1023 + n) as u64) * 0x10_0000_0000_0000)
}
