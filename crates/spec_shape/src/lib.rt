// Document 01's section Shape, defined: a syllable's shape and its record. No code.
#![tactic(auto)]

// An extreme value of a curve, and the middle of the frames that reach it.
#[derive(Clone, Copy)]
pub struct Extreme {
    pub value: f64,
    pub index: f64,
}

// How far an extreme stands beyond the nearer end of its curve, and where it lies, as a fraction of
// the curve.
#[derive(Clone, Copy)]
pub struct Excursion {
    pub size: f64,
    pub at: f64,
}

// A sum along the times, and one with the Chao values.
#[derive(Clone, Copy)]
pub struct Sums {
    pub x: f64,
    pub y: f64,
}

// Sums of powers of x, and of y times powers of x.
#[derive(Clone, Copy)]
pub struct Moments {
    pub s: [f64; 5],
    pub t: [f64; 3],
}

// The window about a contour point, in frames of the voiced part.
#[derive(Clone, Copy)]
pub struct Span {
    pub low: f64,
    pub high: f64,
}

// Where the sweep over a window stands: a time, the curve there, the next whole frame, and the
// area so far.
#[derive(Clone, Copy)]
pub struct Sweep {
    pub t0: f64,
    pub v0: f64,
    pub next: f64,
    pub area: f64,
}

// The first and the last frame inside a window.
#[derive(Clone, Copy)]
pub struct FrameRange {
    pub from: usize,
    pub to: usize,
}

// Which frames of a span are voiced: how many, the first and the last.
#[derive(Clone, Copy)]
pub struct Extent {
    pub count: usize,
    pub first: usize,
    pub last: usize,
}

// A syllable's shape, as in the Rust.
// Stays: ten pairs would be no plainer: the record has all points before all weights, and the mean, the range, the deltas and the ends' scores read the points alone.
#[derive(Clone, Copy)]
pub struct ToneShape {
    pub contour: [f32; 10],
    pub weights: [f32; 10],
    pub mean: f32,
    pub slope: f32,
    pub curvature: f32,
    pub turning: Option<f32>,
    pub range: f32,
    pub duration: f32,
    pub fraction: f32,
    pub confidence: f32,
    pub frames: usize,
}

// The 5th, 50th and 95th percentiles of a query's semitones.
#[derive(Clone, Copy)]
pub struct Percentiles {
    pub p5: f64,
    pub p50: f64,
    pub p95: f64,
}

// A speaker's register in semitones re 55 Hz, as in the Rust but for its count of syllables, which nothing here asks for.
#[derive(Clone, Copy)]
pub struct Register {
    pub floor: f32,
    pub median: f32,
    pub ceil: f32,
}
