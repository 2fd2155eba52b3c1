// The curve of a voiced part, one value a frame, made where it stands: semitones, unvoiced frames
// filled between voiced ones, Chao values, and the 3-frame mean for the turning point.
ghost use Rattle.std.specs.Prelude.{◌≡◌, ◌≤◌, ◌<◌, length, map};
ghost use Rattle.spec_shape.specs.Chao.{width_of, st_to_chao};
ghost use Rattle.spec_shape.specs.Extract.{list_of, gap_filled, holes_filled, mean_with};
ghost use Rattle.tonekit_shape.specs.Promises.{smoothed};
ghost use Rattle.tonekit_shape.specs.Promises.{semitone};

use tonekit_fit::Frames;

// Each frame's semitones, 0 where it is unvoiced: one logarithm a voiced frame.
pub fn semitones(curve: &mut [f64], frames: Frames<'_>)
    ensures { curve.new ≡ list_of (semitone frames.entry.bytes.now frames.entry.first) (length curve.old) }
{
    for (j, st) in curve.iter_mut().enumerate() {
        *st = frames.semitones(j);
    }
}

// The frames between prev and j, on the line from one to the other.
fn fill_gap(curve: &mut [f64], prev: usize, j: usize)
    requires { (prev < j) × (j < length curve.old) }
    ensures { curve.new ≡ gap_filled prev j curve.old }
{
    let low = curve[prev];
    let rise = curve[j] - low;
    for (k, value) in curve[prev + 1..j].iter_mut().enumerate() {
        let t = tonekit_float::f64_of(k + 1) / tonekit_float::f64_of(j - prev);
        *value = low + t * rise;
    }
}

// The unvoiced frames, filled by linear interpolation in semitones.
#[tactic(auto, using(tonekit_core::proofs::LoopLaws::again, tonekit_core::proofs::LoopLaws::ended))]
pub fn fill_holes(curve: &mut [f64], frames: Frames<'_>)
    ensures { curve.new ≡ holes_filled frames.entry.bytes.now frames.entry.first curve.old }
{
    let mut prev = 0;
    for j in 1..curve.len() {
        if frames.voiced(j) {
            fill_gap(curve, prev, j);
            prev = j;
        }
    }
}

// Chao values in the register from floor to ceil.
pub fn chao(curve: &mut [f64], floor: f32, ceil: f32)
    ensures { curve.new ≡ map (st_to_chao floor (width_of floor ceil)) curve.old }
{
    let low = f64::from(floor);
    let width = tonekit_fit::width_of(floor, ceil);
    for value in curve.iter_mut() {
        *value = tonekit_fit::st_to_chao(low, width, *value);
    }
}

// Frame j's mean with its neighbours, the one before given as its value.
fn mean_with(curve: &[f64], j: usize, before: f64) -> f64
    requires { (j < length curve.now) × (2 ≤ length curve.now) }
    ensures { result ≡ mean_with curve.now j before }
{
    if j == 0 {
        return (0.0 + curve[j] + curve[j + 1]) / 2.0;
    }
    if j == curve.len() - 1 {
        return (0.0 + before + curve[j]) / 2.0;
    }
    (0.0 + before + curve[j] + curve[j + 1]) / 3.0
}

// The 3-frame-smoothed curve. `before` keeps a frame's own value when its mean takes its place.
#[tactic(auto, using(crate::proofs::Fill::listed_none, crate::proofs::Fill::listed_more, crate::proofs::Fill::listed_all, crate::proofs::Fill::listed_rest, crate::proofs::Smooth::smooth_turn))]
pub fn smooth(curve: &mut [f64])
    requires { 2 ≤ length curve.old }
    ensures { curve.new ≡ smoothed curve.old }
{
    let mut before = 0.0;
    // Stays: each value written is read with the one behind it; an iterator lends one for writing and none
    // beside it, and a second list would take 8 KB of stack.
    for j in 0..curve.len() {
        let here = curve[j];
        curve[j] = mean_with(curve, j, before);
        before = here;
    }
}
