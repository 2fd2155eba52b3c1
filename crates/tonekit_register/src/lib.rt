// register.rs of the Rust, `cold_register`: a new speaker's register, from all voiced frames of a query. Frames are the part of a query's bytes that holds
// them.
#![tactic(auto)]

ghost use Rattle.std.specs.Prelude.{◌≡◌, ◌≤◌, ◌<◌, length, List, Float};
ghost use Rattle.spec_arithmetic.specs.Bounds.{In};
ghost use Rattle.spec_arithmetic.specs.Constants.{zero64, one64};
ghost use Rattle.spec_shape.specs.Register.{voiced_st, percentile, p5_p50_p95, fallback_register, cold_register, in_register};
ghost use Rattle.tonekit_register.specs.Keys.{KeysOf, ascending_values};

pub use spec_shape::{Percentiles, Register};
use tonekit_core::MeasureIssue;
use tonekit_query::Query;

// A cold register is wider than its percentiles by this much on each side.
const COLD_MARGIN_ST: f64 = 2.0;

// Percentile p, from 0 to 1, of the f32s with these keys, between its closest ranks.
fn percentile(keys: &[u32], p: f64) -> f64
    requires some { 0 < length keys.now }
    requires few { length keys.now ≤ 1024 }
    requires share { In zero64 one64 p }
    ensures { result ≡ percentile (ascending_values keys.now) p }
{
    let last = keys.len() - 1;
    let rank = p * tonekit_float::f64_of(last);
    let lo = tonekit_float::floor_index(rank);
    let hi = (lo + 1).min(last);
    let low = f64::from(tonekit_rank::ranked(keys, lo));
    let high = f64::from(tonekit_rank::ranked(keys, hi));
    low + (rank - tonekit_float::f64_of(lo)) * (high - low)
}

// The percentiles of the f32s with these keys, or none of none.
fn p5_p50_p95(keys: &[u32]) -> Option<Percentiles>
    requires { length keys.now ≤ 1024 }
    ensures { (st : List Float) → KeysOf keys.now st → result ≡ p5_p50_p95 st }
{
    if keys.is_empty() {
        return None;
    }
    Some(Percentiles {
        p5: percentile(keys, 0.05),
        p50: percentile(keys, 0.5),
        p95: percentile(keys, 0.95),
    })
}

// The percentiles of the semitones of a query's voiced frames. The keys, 4 KB, stand in this function's frame alone, which has ended before the shape's
// begins. Each logarithm is taken once.
#[inline(never)]
fn voiced_percentiles(frames: &[u8], count: u16) -> Option<Percentiles>
    requires { count ≤ 1024 }
    ensures { result ≡ p5_p50_p95 (voiced_st frames.now count) }
{
    let mut keys = [0u32; 1024];
    let mut n: usize = 0;
    for i in 0..usize::from(count) {
        if let Some(v) = tonekit_query::read_frame(frames, i) {
            let st = tonekit_fit::hz_to_st(f64::from(v.hz));
            keys[n] = tonekit_rank::key_of(tonekit_float::narrow(st));
            n += 1;
        }
    }
    p5_p50_p95(&keys[..n])
}

// What a register is of no voiced frames: that of 90, 150 and 250 Hz.
#[tactic(auto, using(crate::proofs::Literals::ninety_is, crate::proofs::Literals::hundred_fifty_is, crate::proofs::Literals::two_hundred_fifty_is), unfolding(spec_shape::specs::Register::fallback_register))]
fn fallback_register() -> Register
    ensures { result ≡ fallback_register }
{
    Register {
        floor: tonekit_float::narrow(tonekit_fit::hz_to_st(90.0)),
        median: tonekit_float::narrow(tonekit_fit::hz_to_st(150.0)),
        ceil: tonekit_float::narrow(tonekit_fit::hz_to_st(250.0)),
    }
}

// The cold register of a query: p5 - 2, p50 and p95 + 2 of all its voiced frames, whatever its span, at
// least 4 semitones wide; of no voiced frames the fallback.
pub fn cold_register(frames: &[u8], count: u16) -> Register
    requires { count ≤ 1024 }
    ensures { result ≡ cold_register (voiced_st frames.now count) }
{
    let Some(p) = voiced_percentiles(frames, count) else {
        return fallback_register();
    };
    tonekit_min_span::at_least_min_span(Register {
        floor: tonekit_float::narrow(p.p5 - COLD_MARGIN_ST),
        median: tonekit_float::narrow(p.p50),
        ceil: tonekit_float::narrow(p.p95 + COLD_MARGIN_ST),
    })
}

// The query as it is measured: under kind 55 in the cold register of its frames, with ColdStartRegister
// among its issues, and its own floor and ceiling are not looked at.
#[tactic(auto, unfolding(spec_shape::specs::Register::in_register))]
pub fn in_register(frames: &[u8], q: Query) -> Query
    requires { q.count ≤ 1024 }
    ensures { result ≡ in_register frames.now q }
{
    if !q.cold {
        return q;
    }
    let r = cold_register(frames, q.count);
    Query {
        floor: r.floor,
        ceil: r.ceil,
        issues: tonekit_core::with_issue(q.issues, MeasureIssue::ColdStartRegister),
        ..q
    }
}
