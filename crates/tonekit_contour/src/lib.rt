// Contours of ten points: where a point lies, and where a curve turns (the rule that shapes and
// deltas share).
#![tactic(auto)]

ghost use Rattle.std.specs.Prelude.{◌≡◌, ◌<◌, ◌≤◌, length, map};
ghost use Rattle.spec_shape.specs.Range.{range_in};
ghost use Rattle.spec_arithmetic.specs.Position.{position};
ghost use Rattle.spec_shape.specs.Turning.{greatest, near, first_near, last_near, extremum, stands, chosen, turning_point};

pub use spec_shape::{Excursion, Extreme};
use tonekit_float::AnyFloat;

// Where point k of a contour's ten lies among the frames or knots 0 to last.
#[tactic(auto, unfolding(spec_arithmetic::specs::Position::position))]
pub fn position(k: usize, last: usize) -> f64
    ensures { result ≡ position k last }
{
    tonekit_float::f64_of(k) / 9.0 * tonekit_float::f64_of(last)
}

// The greatest of ten points less the least, from the infinities on.
#[tactic(auto, using(tonekit_core::proofs::LoopLaws::again, tonekit_core::proofs::LoopLaws::ended))]
pub fn range_of<F: AnyFloat>(ten: &[F; 10]) -> F
    ensures { F.float result ≡ range_in F.format (map F.float ten.now) }
{
    let mut low = F::INFINITY;
    let mut high = F::MINUS_INFINITY;
    for x in ten {
        low = tonekit_float::lesser(low, *x);
        high = tonekit_float::greater(high, *x);
    }
    high - low
}

// The greatest of sign * v over the curve, from minus infinity.
#[tactic(auto, using(tonekit_core::proofs::LoopLaws::again, tonekit_core::proofs::LoopLaws::ended), unfolding(spec_shape::specs::Turning::greatest))]
fn greatest(curve: &[f64], sign: f64) -> f64
    ensures { result ≡ greatest curve.now sign }
{
    let mut best = f64::NEG_INFINITY;
    for v in curve {
        best = tonekit_float::greater(best, sign * *v);
    }
    best
}

// Whether a value of the curve is of the plateau of the greatest.
fn near(sign: f64, best: f64, v: f64) -> bool
    ensures { result ≡ near sign best v }
{
    best - 1e-9 <= sign * v
}

// The first frame of the plateau, or 0.
#[tactic(auto, using(tonekit_core::proofs::LoopLaws::to_again, tonekit_core::proofs::LoopLaws::to_stop, tonekit_core::proofs::LoopLaws::to_ended), unfolding(spec_shape::specs::Turning::first_near))]
fn first_near(curve: &[f64], sign: f64, best: f64) -> usize
    ensures { (result ≡ first_near curve.now sign best) × (result ≤ length curve.now) }
{
    for (j, v) in curve.iter().enumerate() {
        if near(sign, best, *v) {
            return j;
        }
    }
    0
}

// The last frame of the plateau, or d.
#[tactic(auto, using(tonekit_core::proofs::LoopLaws::again, tonekit_core::proofs::LoopLaws::ended), unfolding(spec_shape::specs::Turning::last_near))]
fn last_near(curve: &[f64], sign: f64, best: f64, d: usize) -> usize
    requires { d ≤ length curve.now }
    ensures { (result ≡ last_near curve.now sign best d) × (result ≤ length curve.now) }
{
    let mut found = d;
    for (j, v) in curve.iter().enumerate() {
        if near(sign, best, *v) {
            found = j;
        }
    }
    found
}

// The maximum of the curve with sign 1, its minimum with sign -1.
#[tactic(auto, unfolding(spec_shape::specs::Turning::extremum))]
fn extremum(curve: &[f64], sign: f64) -> Extreme
    requires { length curve.now ≤ 1024 }
    ensures { result ≡ extremum curve.now sign }
{
    let best = greatest(curve, sign);
    let first = first_near(curve, sign, best);
    let last = last_near(curve, sign, best, first);
    Extreme {
        value: sign * best,
        index: 0.5 * tonekit_float::f64_of(first + last),
    }
}

// Whether an excursion is large enough, and lies inside.
#[tactic(auto, unfolding(spec_shape::specs::Turning::stands))]
fn stands(e: Excursion) -> bool
    ensures { result ≡ stands e }
{
    0.5 <= e.size && 0.1 < e.at && e.at < 0.9
}

// Where the larger excursion of the two that stand lies, the maximum's where they are equal.
#[tactic(auto, unfolding(spec_shape::specs::Turning::chosen))]
fn chosen(low: Excursion, high: Excursion) -> Option<f64>
    ensures { result ≡ chosen low high }
{
    match (stands(low), stands(high)) {
        (true, true) if high.size < low.size => Some(low.at),
        (_, true) => Some(high.at),
        (true, false) => Some(low.at),
        (false, false) => None,
    }
}

// Where the curve turns, as a fraction of its length, if it does. A curve has at most 1,024 frames:
// no more are ever read.
#[tactic(auto, unfolding(spec_shape::specs::Turning::turning_point))]
pub fn turning_point(curve: &[f64]) -> Option<f64>
    requires { length curve.now ≤ 1024 }
    ensures { result ≡ turning_point curve.now }
{
    if curve.len() < 3 {
        return None;
    }
    let last = curve.len() - 1;
    let bottom = extremum(curve, -1.0);
    let top = extremum(curve, 1.0);
    let low = Excursion {
        size: tonekit_float::lesser(curve[0] - bottom.value, curve[last] - bottom.value),
        at: bottom.index / tonekit_float::f64_of(last),
    };
    let high = Excursion {
        size: tonekit_float::lesser(top.value - curve[0], top.value - curve[last]),
        at: top.index / tonekit_float::f64_of(last),
    };
    chosen(low, high)
}
