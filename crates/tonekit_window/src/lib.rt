// The windows of a contour, as in extract.rs: the mean of the voiced part's curve over the window
// about each of ten points, and the share of its frames that are truly voiced. Callers hold a part
// of 2 to 1,024 frames and ask for points 0 to 9.
#![tactic(auto)]

ghost use Rattle.std.specs.Prelude.{◌≡◌, ◌+◌, ◌-◌, ◌≤◌, ◌<◌, length};
ghost use Rattle.spec_arithmetic.specs.Whole.{whole_part};
ghost use Rattle.spec_arithmetic.specs.Constants.{whole64};
ghost use Rattle.spec_arithmetic.specs.Position.{position};
ghost use Rattle.spec_shape.specs.Window.{half_width, reach, curve_at, moved_to, step_of, mean_over, rounded, weight_at};
ghost use Rattle.tonekit_window.specs.Promises.{contour_at, voiced_in};
ghost use Rattle.tonekit_window.specs.Promises.{Frame, Spans, Swept, Framed};

pub use spec_shape::{FrameRange, Span, Sweep};
use tonekit_fit::Frames;

// WINDOW_FRACTION, MIN_HALF_WINDOW and EDGE_EPS of the Rust.
const WINDOW_FRACTION: f64 = 0.05;

const MIN_HALF_WINDOW: f64 = 0.5;

const EDGE_EPS: f64 = 1e-9;

// A time in a voiced part, in frames: from 0 to 1,023, the last that a part can have.
#[derive(Clone, Copy)]
pub struct Time {
    pub at: f64,
    ghost inside: { Frame at },
}

// The curve of a voiced part, one value a frame, of which there are at least two.
#[derive(Clone, Copy)]
pub struct Curve<'a> {
    pub values: &'a [f64],
    ghost some: { 2 ≤ length values.now },
}

// Point k of ten in a part of n frames.
#[derive(Clone, Copy)]
pub struct Point {
    pub n: usize,
    pub k: usize,
    ghost some: { 1 ≤ n },
    ghost few: { n ≤ 1024 },
    ghost ten: { k ≤ 9 },
}

// Half the width of a window in a part of n frames.
#[tactic(auto, unfolding(spec_shape::specs::Window::half_width))]
fn half_width(n: usize) -> f64
    ensures { result ≡ half_width n }
{
    tonekit_float::greater(WINDOW_FRACTION * tonekit_float::f64_of(n), MIN_HALF_WINDOW)
}

impl Time {
    // The whole frame at the time or before it.
    fn whole(self) -> usize
        ensures { (result ≡ whole_part self.at) × (result ≤ 1023) }
    {
        tonekit_float::floor_index(self.at)
    }

    // The nearest whole frame, a half up.
    #[tactic(auto, unfolding(spec_shape::specs::Window::rounded))]
    fn rounded(self) -> usize
        ensures { result ≡ rounded self.at }
    {
        let w = self.whole();
        if self.at - tonekit_float::f64_of(w) < 0.5 {
            w
        } else {
            w + 1
        }
    }
}

impl Point {
    // Where the point lies among the frames.
    fn place(self) -> f64
        ensures { result ≡ position self.k (self.n - 1) }
    {
        tonekit_contour::position(self.k, self.n - 1)
    }

    // Half the width of the window about the point, which narrows at the ends of the part.
    #[tactic(auto, unfolding(spec_shape::specs::Window::reach))]
    fn reach(self) -> f64
        ensures { result ≡ reach self.n self.k }
    {
        let x = self.place();
        tonekit_float::lesser(
            tonekit_float::lesser(half_width(self.n), x),
            tonekit_float::f64_of(self.n - 1) - x,
        )
    }

    // The window about the point. It lies within the part.
    pub fn span(self) -> Span
        ensures { Spans self.n self.k result }
    {
        let x = self.place();
        let w = self.reach();
        Span {
            low: x - w,
            high: x + w,
        }
    }

    // The frames inside the window about the point; the nearest where there is none.
    pub fn frames(self) -> FrameRange
        ensures { Framed self.n self.k result }
    {
        let span = self.span();
        let from = tonekit_float::ceil_index(span.low - EDGE_EPS);
        let to = tonekit_float::floor_index(span.high + EDGE_EPS).min(self.n - 1);
        if from <= to {
            return FrameRange { from, to };
        }
        let place = Time { at: self.place() };
        let near = place.rounded().min(self.n - 1);
        FrameRange {
            from: near,
            to: near,
        }
    }
}

// One trapezoid, to time t1 where the curve is at v1.
fn moved(s: Sweep, t1: f64, v1: f64) -> Sweep
    ensures { result ≡ moved_to s t1 v1 }
{
    Sweep {
        t0: t1,
        v0: v1,
        next: s.next + 1.0,
        area: s.area + 0.5 * (s.v0 + v1) * (t1 - s.t0),
    }
}

impl Curve<'_> {
    // The curve at time t, whose whole part is w, from a line between the two frames about it.
    #[tactic(auto, unfolding(spec_shape::specs::Window::curve_at))]
    fn between(self, t: f64, w: usize) -> f64
        requires { w ≡ whole_part t }
        ensures { result ≡ curve_at self.entry.values.now t }
    {
        let i = w.min(self.values.len() - 2);
        let f = t - tonekit_float::f64_of(i);
        self.values[i] * (1.0 - f) + self.values[i + 1] * f
    }

    // The curve at a time.
    fn at(self, t: Time) -> f64
        ensures { result ≡ curve_at self.entry.values.now t.at }
    {
        self.between(t.at, t.whole())
    }

    // The next trapezoid: to the next whole frame, which is `frame`, or to b where that comes first.
    #[tactic(auto, using(crate::proofs::Walk::step_short))]
    fn step(self, b: Time, s: Sweep, frame: usize) -> Sweep
        requires { (s.next ≡ whole64 frame) × (frame ≤ 4000) }
        ensures { result ≡ step_of self.entry.values.now b.at s }
    {
        let next = s.next;
        if b.at < next {
            return moved(s, b.at, self.at(b));
        }
        moved(s, next, self.between(next, frame))
    }

    // The trapezoids between a, every whole frame inside the window, and b; the next whole frame is
    // kept as an index too.
    fn swept(self, a: Time, b: Time) -> Sweep
        ensures { Swept self.entry.values.now a.at b.at result }
    {
        let v0 = self.at(a);
        let from = a.whole();
        let next = tonekit_float::f64_of(from) + 1.0;
        let mut frame = from + 1;
        let mut s = Sweep {
            t0: a.at,
            v0,
            next,
            area: 0.0,
        };
        // Stays: a `for` over the frames would be no plainer, since it would break at the same test: the time ends the sweep.
        while s.t0 < b.at {
            s = self.step(b, s, frame);
            frame += 1;
        }
        s
    }

    // The mean of the curve over the window from a to b; its value there where the window is a
    // point.
    #[tactic(auto, unfolding(spec_shape::specs::Window::mean_over))]
    fn mean(self, a: Time, b: Time) -> f64
        ensures { result ≡ mean_over self.entry.values.now (record { low = a.at; high = b.at }) }
    {
        if b.at - a.at < EDGE_EPS {
            return self.at(a);
        }
        let s = self.swept(a, b);
        s.area / (b.at - a.at)
    }
}

// Contour point k of a part's curve.
pub fn contour_at(values: &[f64], k: usize) -> f32
    requires { (2 ≤ length values.now) × (length values.now ≤ 1024) × (k ≤ 9) }
    ensures { result ≡ contour_at values.now k }
{
    let point = Point { n: values.len(), k };
    let span = point.span();
    let curve = Curve { values };
    let low = Time { at: span.low };
    let high = Time { at: span.high };
    tonekit_float::narrow(curve.mean(low, high))
}

// How many of the part's frames in a range are voiced.
#[tactic(auto, using(tonekit_core::proofs::LoopLaws::again, tonekit_core::proofs::LoopLaws::ended))]
fn voiced_in(frames: Frames<'_>, within: FrameRange) -> usize
    requires { within.to < 1024 }
    ensures { result ≡ voiced_in frames.entry.bytes.now frames.entry.first within }
{
    let mut count = 0;
    for j in within.from..within.to + 1 {
        if frames.voiced(j) {
            count += 1;
        }
    }
    count
}

// Voiced weight k of a part of n frames: the share of the frames in the window that are truly
// voiced.
pub fn weight_at(frames: Frames<'_>, n: usize, k: usize) -> f32
    requires { (1 ≤ n) × (n ≤ 1024) × (k ≤ 9) }
    ensures { result ≡ weight_at frames.entry.bytes.now frames.entry.first n k }
{
    let within = Point { n, k }.frames();
    let count = voiced_in(frames, within);
    tonekit_float::narrow(
        tonekit_float::f64_of(count) / tonekit_float::f64_of(within.to - within.from + 1),
    )
}
