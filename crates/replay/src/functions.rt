// The single functions, on numbers by their bits.
ghost use Rattle.std.specs.Prelude.{ℕ, ◌<◌, ◌≤◌, slice_index_or};
ghost use Rattle.std.specs.Float.{nan};
ghost use Rattle.spec_lookup.specs.Knots.{Knot};
ghost use Rattle.tonekit_min_span.specs.Near.{Near};

use crate::recorded::Recorded;
use tonekit_bytes::{f32_at, u32_at};
use tonekit_core::layout;
use tonekit_float::AnyFloat;
use tonekit_min_span::Register;

// The f64 that eight bytes hold.
fn f64_of(bytes: &[u8; 8]) -> f64 {
    f64::of_bits(u64::from_le_bytes(*bytes))
}

// Whether a function answers f64s as recorded.
pub fn f64s<F: Fn(f64) -> f64>(input: &[u8], recorded: Recorded, function: F) -> bool
    requires { F.IsAlwaysCallable function }
{
    let (xs, rest) = input.as_chunks::<8>();
    let (ys, _) = recorded.bytes.as_chunks::<8>();
    recorded.has(input.len())
        && rest.is_empty()
        && xs.iter().zip(ys).all(|(x, y)| function(f64_of(x)).bits() == u64::from_le_bytes(*y))
}

// Whether narrowing answers as recorded.
pub fn narrowed(input: &[u8], recorded: Recorded) -> bool {
    let (xs, rest) = input.as_chunks::<8>();
    let (ys, _) = recorded.bytes.as_chunks::<4>();
    recorded.has(input.len() / 2)
        && rest.is_empty()
        && xs.iter().zip(ys).all(|(x, y)| tonekit_float::narrow(f64_of(x)).bits()
            == u32::from_le_bytes(*y))
}

// A knot, or 0 where a number is none: of size above 100.
fn knot(x: f32) -> f32
    ensures { Knot result }
{
    if x >= -100.0 {
        if x <= 100.0 {
            return x;
        }
    }
    0.0
}

// Ten knots of the bytes, of which those past the end are 0.
fn knots(input: &[u8]) -> [f32; 10]
    ensures { (k : ℕ) → k < 10 → Knot (slice_index_or result k nan) }
{
    let mut out = [0.0f32; 10];
    for (i, x) in out.iter_mut().enumerate() {
        *x = knot(f32_at(input, 4 * i, 0));
    }
    out
}

// Whether `expand_knots` answers as recorded.
pub fn expanded(input: &[u8], recorded: Recorded) -> bool {
    let n = input.len() / 4;
    if !recorded.has(40) || n < 1 || 10 < n {
        return false;
    }
    let points = tonekit_expect::expand_knots(&knots(input)[..n]);
    let (ys, _) = recorded.bytes.as_chunks::<4>();
    input.len() % 4 == 0
        && points
            .iter()
            .zip(ys)
            .all(|(point, y)| point.bits() == u32::from_le_bytes(*y))
}

// Whether minimum and maximum of two f64s, and of the two narrowed, are as recorded in 24 bytes.
fn pair_so(x: f64, y: f64, bytes: &[u8]) -> bool {
    let (numbers, _) = bytes.as_chunks::<8>();
    let [least, most, _] = numbers else {
        return false;
    };
    let a = tonekit_float::narrow(x);
    let b = tonekit_float::narrow(y);
    tonekit_float::lesser(x, y).bits() == u64::from_le_bytes(*least)
        && tonekit_float::greater(x, y).bits() == u64::from_le_bytes(*most)
        && tonekit_float::lesser(a, b).bits() == u32_at(bytes, 16, 0)
        && tonekit_float::greater(a, b).bits() == u32_at(bytes, 20, 0)
}

// Whether minimum and maximum of a pair are as recorded.
pub fn picked(input: &[u8], recorded: Recorded) -> bool {
    let (pair, rest) = input.as_chunks::<8>();
    let [x, y] = pair else {
        return false;
    };
    recorded.has(24) && rest.is_empty() && pair_so(f64_of(x), f64_of(y), recorded.bytes)
}

// A row of the fit's grid.
fn row_of(row: &[[u8; 8]; 4]) -> [f64; 4] {
    let [a, b, c, d] = row;
    [f64_of(a), f64_of(b), f64_of(c), f64_of(d)]
}

// Whether the first unknown of three equations is as recorded.
pub fn solved(input: &[u8], recorded: Recorded) -> bool {
    let (numbers, rest) = input.as_chunks::<8>();
    let (rows, more) = numbers.as_chunks::<4>();
    let [a, b, c] = rows else {
        return false;
    };
    let (answer, _) = recorded.bytes.as_chunks::<8>();
    let [answer] = answer else {
        return false;
    };
    let m = [row_of(a), row_of(b), row_of(c)];
    recorded.has(8)
        && rest.is_empty()
        && more.is_empty()
        && tonekit_fit::lead(m).bits() == u64::from_le_bytes(*answer)
}

// Whether the register of frames is as recorded: floor, median and ceiling.
pub fn registered(frames: &[u8], recorded: Recorded) -> bool {
    let count = (frames.len() / layout::FRAME_SIZE).min(1024);
    let register = tonekit_register::cold_register(frames, count as u16);
    recorded.has(12)
        && frames.len() == layout::FRAME_SIZE * count
        && register.floor.bits() == u32_at(recorded.bytes, 0, 0)
        && register.median.bits() == u32_at(recorded.bytes, 4, 0)
        && register.ceil.bits() == u32_at(recorded.bytes, 8, 0)
}

// An end of a register, or 0 where a number is none: of size above 8,190.
fn end(x: f32) -> f32
    ensures { Near result }
{
    if x >= -8190.0 {
        if x <= 8190.0 {
            return x;
        }
    }
    0.0
}

// Whether floor and ceiling are as recorded once they are at least 4 semitones apart.
pub fn spread(input: &[u8], recorded: Recorded) -> bool {
    let register = tonekit_min_span::at_least_min_span(Register {
        floor: end(f32_at(input, 0, 0)),
        median: 0.0,
        ceil: end(f32_at(input, 4, 0)),
    });
    recorded.has(8)
        && input.len() == 8
        && register.floor.bits() == u32_at(recorded.bytes, 0, 0)
        && register.ceil.bits() == u32_at(recorded.bytes, 4, 0)
}
