// `deltas` of the Rust: the advice for a shape against its best component, at most two differences.
#![tactic(auto)]

ghost use Rattle.std.specs.Prelude.{◌≡◌};
ghost use Rattle.spec_judgement.specs.Deltas.{no_deltas, above, kept, offer, offer_end, offer_turn, end_deltas, inner_deltas, deltas_of};

pub use spec_judgement::{Delta, Deltas};
use tonekit_core::DeltaKind;
use tonekit_score::Tolerance;
use tonekit_shape::ToneShape;

// No advice.
pub fn no_deltas() -> Deltas
    ensures { result ≡ no_deltas }
{
    Deltas {
        first: None,
        second: None,
    }
}

// Whether a difference of size z stands before d.
fn above(d: Option<Delta>, z: f64) -> bool
    ensures { result ≡ above d z }
{
    match d {
        Some(d) => d.z < z,
        None => true,
    }
}

// The two largest with one more, an earlier one before a later of the same size.
#[tactic(auto, unfolding(spec_judgement::specs::Deltas::kept))]
fn kept(ds: Deltas, d: Delta) -> Deltas
    ensures { result ≡ kept ds d }
{
    if above(ds.first, d.z) {
        return Deltas {
            first: Some(d),
            second: ds.first,
        };
    }
    if above(ds.second, d.z) {
        return Deltas {
            first: ds.first,
            second: Some(d),
        };
    }
    ds
}

// Keeps a difference whose size is above 1 where both its numbers are finite.
#[tactic(auto, unfolding(spec_judgement::specs::Deltas::offer))]
fn offer(ds: Deltas, z: f64, kind: DeltaKind, amount: f64) -> Deltas
    ensures { result ≡ offer ds z kind amount }
{
    let size = z.abs();
    let amount = tonekit_float::narrow(amount);
    if tonekit_float::is_finite(z) && 1.0 < size && tonekit_float::is_finite(amount) {
        return kept(
            ds,
            Delta {
                z: size,
                kind,
                amount,
            },
        );
    }
    ds
}

// Offers a difference d in units of s: below 0 it is of the first kind, else of the second.
#[tactic(auto, unfolding(spec_judgement::specs::Deltas::offer_end))]
fn offer_end(ds: Deltas, d: f64, s: f64, below: DeltaKind, other: DeltaKind) -> Deltas
    ensures { result ≡ offer_end ds d s below other }
{
    let kind = if d < 0.0 { below } else { other };
    offer(ds, d / s, kind, d.abs())
}

// Offers the difference in turning-point time, in milliseconds, where both have one.
#[tactic(auto, unfolding(spec_judgement::specs::Deltas::offer_turn))]
fn offer_turn(ds: Deltas, x: ToneShape, turning: Option<f64>, s: f64) -> Deltas
    ensures { result ≡ offer_turn ds x.turning turning x.duration s }
{
    match (x.turning, turning) {
        (Some(own), Some(u)) => {
            let du = f64::from(own) - u;
            let kind = if 0.0 < du {
                DeltaKind::TurnEarlier
            } else {
                DeltaKind::TurnLater
            };
            offer(ds, du / s, kind, du.abs() * f64::from(x.duration))
        }
        _ => ds,
    }
}

// The points as f64, which holds every f32.
fn curve_of(points: &[f32; 10]) -> [f64; 10]
    ensures { result ≡ points.now }
{
    let mut curve = [0.0; 10];
    for (k, v) in points.iter().enumerate() {
        curve[k] = f64::from(*v);
    }
    curve
}

// The advice from the two ends.
// Stays: the tolerances and how far they are widened go from `deltas_of` to here and to `inner_deltas`; a struct of both would be made by its one caller and
// taken apart at each `widened`.
#[tactic(auto, unfolding(spec_judgement::specs::Deltas::end_deltas))]
fn end_deltas(x: ToneShape, curve: &[f64; 10], t: Tolerance, widen: f64) -> Deltas
    ensures { result ≡ end_deltas x curve.now t widen }
{
    let onset = f64::from(x.contour[0]) - curve[0];
    let offset = f64::from(x.contour[9]) - curve[9];
    let first = offer_end(
        no_deltas(),
        onset,
        tonekit_score::widened(t.onset, widen),
        DeltaKind::StartHigher,
        DeltaKind::StartLower,
    );
    offer_end(
        first,
        offset,
        tonekit_score::widened(t.offset, widen),
        DeltaKind::EndHigher,
        DeltaKind::EndLower,
    )
}

// The advice from the ends, and from what is read off the contour.
#[tactic(auto, using(crate::proofs::Range::each_itself), unfolding(spec_judgement::specs::Deltas::inner_deltas))]
fn inner_deltas(ends: Deltas, x: ToneShape, curve: &[f64; 10], t: Tolerance, widen: f64) -> Deltas
    ensures { result ≡ inner_deltas ends x curve.now t widen }
{
    let turning = tonekit_contour::turning_point(curve);
    let turn = offer_turn(ends, x, turning, tonekit_score::widened(t.turning, widen));
    let wide = f64::from(x.range) - tonekit_contour::range_of(curve);
    offer_end(
        turn,
        wide,
        tonekit_score::widened(t.contour, widen),
        DeltaKind::WiderRange,
        DeltaKind::NarrowerRange,
    )
}

// The advice for a shape against a component of these points, the tolerances widened so much; only
// from the ends where `ends_only`.
#[tactic(auto, unfolding(spec_judgement::specs::Deltas::deltas_of))]
pub fn deltas_of(
    x: ToneShape,
    points: &[f32; 10],
    t: Tolerance,
    widen: f64,
    ends_only: bool,
) -> Deltas
    ensures { result ≡ deltas_of x points.now t widen ends_only }
{
    let curve = curve_of(points);
    let ends = end_deltas(x, &curve, t, widen);
    if ends_only {
        return ends;
    }
    inner_deltas(ends, x, &curve, t, widen)
}
