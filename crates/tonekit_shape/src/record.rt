// The shape record, the format's kind 51.
ghost use Rattle.std.specs.Prelude.{◌≡◌};
ghost use Rattle.std.proofs.lemmas.List.Edits.{sets};
ghost use Rattle.tonekit_core.specs.declared.layout.TheConstants.{SHAPE_MEAN, SHAPE_RANGE};
ghost use Rattle.spec_shape.specs.Record.{fit_bytes, measure_bytes, shape_bytes};
ghost use Rattle.tonekit_shape.specs.Promises.{span_bytes};

use crate::{ToneShape, united};
use tonekit_core::layout::{self, SHAPE_SIZE};
use tonekit_query::Query;

// The kind and the span.
fn put_span(out: &mut [u8; SHAPE_SIZE], q: Query)
    ensures { out.new ≡ sets out.old 0 (span_bytes q.start q.end) }
{
    tonekit_bytes::put_u8(out, 0, layout::SHAPE_KIND);
    tonekit_bytes::put_u32(out, layout::SHAPE_START, q.start);
    tonekit_bytes::put_u32(out, layout::SHAPE_END, q.end);
}

// Mean, slope, curvature and turning point; without one the flag and the value are 0.
#[tactic(auto, using(crate::proofs::Parts::flag_is), unfolding(spec_shape::specs::Record::fit_bytes))]
fn put_fits(out: &mut [u8; SHAPE_SIZE], x: ToneShape)
    ensures { out.new ≡ sets out.old SHAPE_MEAN (fit_bytes x) }
{
    tonekit_bytes::put_f32(out, layout::SHAPE_MEAN, x.mean);
    tonekit_bytes::put_f32(out, layout::SHAPE_SLOPE, x.slope);
    tonekit_bytes::put_f32(out, layout::SHAPE_CURVATURE, x.curvature);
    tonekit_bytes::put_u8(out, layout::SHAPE_TURNS, u8::from(x.turning.is_some()));
    tonekit_bytes::put_f32(out, layout::SHAPE_TURNING, x.turning.unwrap_or(0.0));
}

// Range, duration, fraction, confidence and issues.
#[tactic(auto, unfolding(spec_shape::specs::Record::measure_bytes))]
fn put_measures(out: &mut [u8; SHAPE_SIZE], x: ToneShape, issues: u16)
    ensures { out.new ≡ sets out.old SHAPE_RANGE (measure_bytes x issues) }
{
    tonekit_bytes::put_f32(out, layout::SHAPE_RANGE, x.range);
    tonekit_bytes::put_f32(out, layout::SHAPE_DURATION, x.duration);
    tonekit_bytes::put_f32(out, layout::SHAPE_FRACTION, x.fraction);
    tonekit_bytes::put_f32(out, layout::SHAPE_CONFIDENCE, x.confidence);
    tonekit_bytes::put_u16(out, layout::SHAPE_ISSUES, issues);
}

// The record of a shape.
pub fn shape_record(q: Query, x: ToneShape) -> [u8; SHAPE_SIZE]
    ensures { result ≡ shape_bytes q.start q.end q.issues x }
{
    let all = united(q.issues, x.frames);
    let mut out = [0; SHAPE_SIZE];
    put_span(&mut out, q);
    tonekit_bytes::put_f32s(&mut out, layout::SHAPE_CONTOUR, &x.contour);
    tonekit_bytes::put_f32s(&mut out, layout::SHAPE_WEIGHTS, &x.weights);
    put_fits(&mut out, x);
    put_measures(&mut out, x, all);
    out
}
