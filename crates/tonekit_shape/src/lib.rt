// `extract` of the Rust, from the part of a query that holds its frames; and the shape record.
#![tactic(auto)]

ghost use Rattle.std.specs.Prelude.{◌≡◌, ℕ, ◌+◌, ◌-◌, ◌≤◌, ◌<◌, length};
ghost use Rattle.spec_shape.specs.Turning.{turning_point};
ghost use Rattle.tonekit_core.specs.Calls.{Delivers};
ghost use Rattle.spec_shape.specs.Register.{in_register};
ghost use Rattle.spec_shape.specs.Record.{united, shaped, shape_outcome};
ghost use Rattle.spec_shape.specs.Window.{weight_at};
ghost use Rattle.tonekit_window.specs.Promises.{contour_at};
ghost use Rattle.spec_shape.specs.Extract.{extent_of, list_of, mean_of, confidence, whole32, frames_in, drawn, shape_of};
ghost use Rattle.tonekit_shape.specs.Promises.{smoothed};
ghost use Rattle.tonekit_shape.specs.Promises.{extent_turn, confidence_added, Lists, Extended, Voiced3};

mod curve;
mod record;

pub use spec_shape::{Extent, ToneShape};
use tonekit_core::{MeasureIssue, Refusal, Rejection};
use tonekit_fit::{Frames, Part};
use tonekit_query::Query;

const FRAME_MS: f32 = 10.0;

// A call's issues, with TooShort where the voiced part has fewer than 8 frames.
#[tactic(auto, unfolding(spec_shape::specs::Record::united))]
pub fn united(issues: u16, n: usize) -> u16
    ensures { result ≡ united issues n }
{
    if n < 8 {
        tonekit_core::with_issue(issues, MeasureIssue::TooShort)
    } else {
        issues
    }
}

// The extent with frame i, where that is voiced.
fn extended(frames: &[u8], i: usize, e: Extent) -> Extent
    requires { (e.count ≤ i) × (i < 65536) }
    ensures { result ≡ extent_turn frames.now i e }
{
    if tonekit_fit::voiced(frames, i) {
        Extent {
            count: e.count + 1,
            first: if e.count == 0 { i } else { e.first },
            last: i,
        }
    } else {
        e
    }
}

// The voiced frames of a query's span, clamped to the frames that are there; any span will do.
#[tactic(auto, using(tonekit_core::proofs::LoopLaws::again, tonekit_core::proofs::LoopLaws::ended, crate::proofs::Found::found_none, crate::proofs::Found::found_more), unfolding(spec_shape::specs::Extract::extent_of))]
pub fn voiced_frames(frames: &[u8], q: Query) -> Extent
    ensures { Extended frames.now q.count q.start q.end result }
{
    let mut e = Extent {
        count: 0,
        first: 0,
        last: 0,
    };
    for i in q.start as usize..(q.end as usize).min(usize::from(q.count)) {
        e = extended(frames, i, e);
    }
    e
}

// What f gives at each of ten places.
fn ten<F: Fn(usize) -> f32>(f: F) -> [f32; 10]
    requires { (k : ℕ) → k < 10 → F.pre f k }
    ensures { Lists (F.post f) result }
{
    let mut out = [0.0f32; 10];
    for (k, x) in out.iter_mut().enumerate() {
        *x = f(k);
    }
    out
}

// The ten points of a part's contour.
fn contour_of(chao: &[f64]) -> [f32; 10]
    requires { (2 ≤ length chao.now) × (length chao.now ≤ 1024) }
    ensures { result ≡ list_of (contour_at chao.now) 10 }
{
    ten(|k| tonekit_window::contour_at(chao, k))
}

// The voiced weights of the ten points, in a part of n frames.
fn weights_of(frames: Frames<'_>, n: usize) -> [f32; 10]
    requires { (1 ≤ n) × (n ≤ 1024) }
    ensures { result ≡ list_of (weight_at frames.entry.bytes.now frames.entry.first n) 10 }
{
    ten(|k| tonekit_window::weight_at(frames, n, k))
}

// The mean of a contour.
#[tactic(auto, using(tonekit_core::proofs::LoopLaws::again, tonekit_core::proofs::LoopLaws::ended), unfolding(spec_shape::specs::Extract::mean_of))]
fn mean_of(contour: &[f32; 10]) -> f32
    ensures { result ≡ mean_of contour.now }
{
    let mut sum = 0.0;
    for x in contour {
        sum = sum + *x;
    }
    sum / 10.0
}

// sum and frame i's voiced_p, where that is voiced.
#[tactic(auto, using(tonekit_query::proofs::Steps::frame_voiced_lem, tonekit_query::proofs::Steps::frame_then, tonekit_query::proofs::Steps::frame_else))]
fn confidence_added(frames: &[u8], i: usize, sum: f32) -> f32
    ensures { result ≡ confidence_added frames.now i sum }
{
    if tonekit_fit::voiced(frames, i) {
        sum + tonekit_query::frame_p(frames, i)
    } else {
        sum
    }
}

// The mean voiced_p of the voiced frames.
#[tactic(auto, using(tonekit_core::proofs::LoopLaws::again, tonekit_core::proofs::LoopLaws::ended), unfolding(spec_shape::specs::Extract::confidence))]
fn confidence_of(frames: &[u8], e: Extent) -> f32
    requires { (e.first ≤ e.last) × (e.last < 1024) × (e.count ≤ 1024) }
    ensures { result ≡ confidence frames.now e }
{
    let mut sum = 0.0;
    for j in 0..e.last - e.first + 1 {
        sum = confidence_added(frames, e.first + j, sum);
    }
    sum / tonekit_float::f32_of(e.count as u32)
}

// The frames of a span, unclamped; none where it ends before it starts.
fn span_frames(q: Query) -> f32
    ensures { result ≡ whole32 (q.end - q.start) }
{
    tonekit_float::f32_of(q.end.saturating_sub(q.start))
}

// The part's curve in Chao values, drawn over what stands there.
#[tactic(auto, unfolding(spec_shape::specs::Extract::drawn))]
fn draw(chao: &mut [f64], frames: Frames<'_>, q: Query)
    ensures { chao.new
        ≡ drawn frames.entry.bytes.now frames.entry.first (length chao.old) q.floor q.ceil }
{
    curve::semitones(chao, frames);
    curve::fill_holes(chao, frames);
    curve::chao(chao, q.floor, q.ceil);
}

// Where the smoothed curve turns; the curve is smoothed where it stands.
fn turn_of(chao: &mut [f64]) -> Option<f64>
    requires { (2 ≤ length chao.old) × (length chao.old ≤ 1024) }
    ensures { (result ≡ turning_point (smoothed chao.old))
        × (chao.new ≡ smoothed chao.old) }
{
    curve::smooth(chao);
    tonekit_contour::turning_point(chao)
}

// The shape, with a place for the part's curve, one value a frame.
fn measured(chao: &mut [f64], bytes: &[u8], e: Extent, q: Query) -> ToneShape
    requires { Voiced3 e × (length chao.old ≡ frames_in e) }
    ensures { result ≡ shape_of bytes.now e q.start q.end q.floor q.ceil }
{
    let n = e.last - e.first + 1;
    let frames = Frames {
        bytes,
        first: e.first,
    };
    let span = span_frames(q);
    let fraction = tonekit_float::f32_of(e.count as u32) / span;
    let confidence = confidence_of(bytes, e);
    let weights = weights_of(frames, n);
    draw(chao, frames, q);
    let contour = contour_of(chao);
    let part = Part {
        frames,
        chao: &chao[..],
    };
    let slope = part.line_slope(e.count);
    let curvature = part.quadratic_coefficient(e.count);
    let turn = turn_of(chao);
    ToneShape {
        contour,
        weights,
        mean: mean_of(&contour),
        slope: tonekit_float::narrow(slope),
        curvature: tonekit_float::narrow(curvature),
        turning: turn.map(tonekit_float::narrow),
        range: tonekit_contour::range_of(&contour),
        duration: span * FRAME_MS,
        fraction,
        confidence,
        frames: n,
    }
}

// The shape of the syllable in a query's span whose voiced frames are e, in the query's register.
// There are at least 3 voiced frames, which the caller has counted. Each value of the curve is
// written before it is read.
#[tactic(auto, using(crate::proofs::Built::front_length))]
pub fn shape_of(frames: &[u8], e: Extent, q: Query) -> ToneShape
    requires { Voiced3 e }
    ensures { result ≡ shape_of frames.now e q.start q.end q.floor q.ceil }
{
    let n = e.last - e.first + 1;
    let mut curve = [1.0f64; 1024];
    measured(&mut curve[..n], frames, e, q)
}

// The call `write_shape` for a query that loads, whose frames are these.
#[tactic(auto, using(tonekit_core::proofs::Calls::delivers_refused, tonekit_core::proofs::Calls::delivers_same, crate::proofs::Outcomes::few_voiced, crate::proofs::Outcomes::enough_voiced))]
fn write_shaped(frames: &[u8], q: Query, out: &mut [u8]) -> Result<usize, Rejection>
    requires { q.count ≤ 1024 }
    ensures { Delivers
        (shaped frames.now (in_register frames.now q) (extent_of frames.now q.count q.start q.end))
        out.old result out.new }
{
    let e = voiced_frames(frames, q);
    if e.count < 3 {
        return Err(Refusal::Unvoiced.at(0));
    }
    let r = tonekit_register::in_register(frames, q);
    let x = shape_of(frames, e, r);
    let bytes = record::shape_record(r, x);
    tonekit_bytes::write_record(out, &bytes)
}

// Writes the shape record of a query: 124 bytes. Refuses what the query reader refuses, fewer than
// 3 voiced frames (11), and a short buffer (9, with the length needed); then the buffer is as it was.
#[tactic(auto, using(tonekit_core::proofs::Calls::delivers_refused, tonekit_core::proofs::Calls::delivers_same, crate::proofs::Outcomes::query_good, crate::proofs::Outcomes::query_bad))]
pub fn write_shape(query: &[u8], out: &mut [u8]) -> Result<usize, Rejection>
    ensures { Delivers (shape_outcome query.now) out.old result out.new }
{
    let q = tonekit_query::load_query(query)?;
    write_shaped(tonekit_query::frames(query, q), q, out)
}
