// `chao` and `fit` of the Rust: semitones and Chao values, least-squares fits over voiced frames.
// Where a function takes frames, they are the part of a query's bytes that holds its frames.
#![tactic(auto)]

ghost use Rattle.std.specs.Prelude.{◌≡◌, ℕ, ◌+◌, ◌≤◌, ◌<◌, ◌^◌, length};
ghost use Rattle.spec_query.specs.Frames.{frame_at};
ghost use Rattle.spec_shape.specs.Chao.{hz_to_st, width_of, st_to_chao, voiced};
ghost use Rattle.tonekit_fit.specs.Steps.{semitones_of};
ghost use Rattle.spec_shape.specs.Fit.{seconds, point_added, normal_equations, pivot_of, row_cleared, first_unknown, lead_of};
ghost use Rattle.tonekit_fit.specs.Steps.{below_cleared};

pub use spec_shape::{Moments, Sums};

// The frames of a query from one of them on: the bytes that hold them all, and that first one. A
// query has at most 1,024 frames.
#[derive(Clone, Copy)]
pub struct Frames<'a> {
    pub bytes: &'a [u8],
    pub first: usize,
    ghost first_in: { first ≤ 1024 },
}

// A voiced part: its frames from its first on, and its curve in Chao values, one a frame.
#[derive(Clone, Copy)]
pub struct Part<'f, 'c> {
    pub frames: Frames<'f>,
    pub chao: &'c [f64],
}

// Semitones re 55 Hz.
#[tactic(auto, using(crate::proofs::Literals::twelve_is, crate::proofs::Literals::ref_hz_is), unfolding(spec_shape::specs::Chao::hz_to_st))]
pub fn hz_to_st(hz: f64) -> f64
    ensures { result ≡ hz_to_st hz }
{
    12.0 * tonekit_log::log2(hz / 55.0)
}

// The register's width, or 4 where that is not a finite number above 0.
#[tactic(auto, using(crate::proofs::Literals::four_is), unfolding(spec_shape::specs::Chao::width_of))]
pub fn width_of(floor: f32, ceil: f32) -> f64
    ensures { result ≡ width_of floor ceil }
{
    let width = f64::from(ceil) - f64::from(floor);
    if tonekit_float::is_finite(width) && 0.0 < width {
        width
    } else {
        4.0
    }
}

// The Chao value of a semitone value in the register, unclamped.
#[tactic(auto, using(crate::proofs::Literals::four_is), unfolding(spec_shape::specs::Chao::st_to_chao))]
pub fn st_to_chao(floor: f64, width: f64, st: f64) -> f64
    ensures { result ≡ st_to_chao floor width st }
{
    1.0 + 4.0 * (st - floor) / width
}

// Whether frame i is voiced.
// Stays: `is_voiced` under this crate's definition; without it each caller cites the lemma by which the two definitions are one.
#[inline(always)]
#[tactic(auto, using(tonekit_query::proofs::Steps::frame_voiced_lem))]
pub fn voiced(frames: &[u8], i: usize) -> bool
    ensures { result ≡ voiced frames.now i }
{
    tonekit_query::is_voiced(frames, i)
}

// The semitones of frame i, 0 where it is unvoiced.
#[tactic(auto, using(tonekit_query::proofs::Steps::frame_then, tonekit_query::proofs::Steps::frame_else))]
pub fn semitones_of(frames: &[u8], i: usize) -> f64
    ensures { result ≡ semitones_of (frame_at frames.now i) }
{
    if tonekit_query::is_voiced(frames, i) {
        hz_to_st(f64::from(tonekit_query::frame_hz(frames, i)))
    } else {
        0.0
    }
}

// Time in seconds of frame j.
fn seconds(j: usize) -> f64
    ensures { result ≡ seconds j }
{
    tonekit_float::f64_of(j) * 0.01
}

impl Frames<'_> {
    // Whether frame j from the first on is voiced.
    #[inline(always)]
    pub fn voiced(self, j: usize) -> bool
        requires { j < 2 ^ 60 }
        ensures { result ≡ voiced self.entry.bytes.now (self.entry.first + j) }
    {
        voiced(self.bytes, self.first + j)
    }

    // The semitones of frame j from the first on, 0 where it is unvoiced.
    pub fn semitones(self, j: usize) -> f64
        requires { j < 2 ^ 60 }
        ensures { result ≡ semitones_of (frame_at self.entry.bytes.now (self.entry.first + j)) }
    {
        semitones_of(self.bytes, self.first + j)
    }
}

impl Part<'_, '_> {
    ghost use Rattle.spec_shape.specs.Fit.{voiced_sum, line_slope, moments_of, quadratic_coefficient};
    ghost use Rattle.std.specs.Float.{binary64};
    ghost use Rattle.std.specs.Float.Ieee.{div};
    ghost use Rattle.spec_arithmetic.specs.Constants.{whole64};
    ghost use Rattle.tonekit_fit.specs.Lent.{lent_part, Walks, point_sums, product_sums};

    // What a step makes of the voiced frames, one after the other. It is given what the earlier
    // frames gave, the frame's index in the part, and its Chao value.
    fn over_voiced<S, F: Fn(S, usize, f64) -> S>(self, start: S, step: F) -> S
        requires { F.IsAlwaysCallable step }
        ensures { Walks (F.post step) (lent_part self.entry) start result }
    {
        let mut state = start;
        for (j, y) in self.chao.iter().enumerate() {
            if self.frames.voiced(j) {
                state = step(state, j, *y);
            }
        }
        state
    }

    // The sums of the voiced frames' times and of their Chao values.
    fn sum_points(self) -> Sums
        ensures { result ≡ point_sums (lent_part self.entry) }
    {
        self.over_voiced(
            Sums { x: 0.0, y: 0.0 },
            |s, j, y| Sums {
                x: s.x + seconds(j),
                y: s.y + y,
            },
        )
    }

    // The sums of the squares of the times, and of their products with the Chao values, each from
    // its mean.
    fn sum_products(self, mx: f64, my: f64) -> Sums
        ensures { result ≡ product_sums (lent_part self.entry) mx my }
    {
        self.over_voiced(Sums { x: 0.0, y: 0.0 }, |s, j, y| {
            let d = seconds(j) - mx;
            Sums {
                x: s.x + d * d,
                y: s.y + d * (y - my),
            }
        })
    }

    // The least-squares slope of Chao values against seconds over the voiced frames, of which there
    // are `count`; 0 where the times do not vary.
    #[tactic(auto, unfolding(spec_shape::specs::Fit::line_slope))]
    pub fn line_slope(self, count: usize) -> f64
        ensures { result ≡ line_slope (lent_part self.entry) count }
    {
        let n = tonekit_float::f64_of(count);
        let sums = self.sum_points();
        let s = self.sum_products(sums.x / n, sums.y / n);
        if 0.0 < s.x { s.y / s.x } else { 0.0 }
    }

    // The sum of the voiced frames' fractions of the part; last is one less than its frames.
    fn sum_fractions(self, last: f64) -> f64
        ensures { result ≡ voiced_sum (lent_part self.entry) (λ j y. div binary64 (whole64 j) last) }
    {
        self.over_voiced(0.0, |t, j, _| t + tonekit_float::f64_of(j) / last)
    }

    // The sums of powers over the voiced frames, each fraction of the part from the mean.
    fn moments(self, last: f64, mx: f64) -> Moments
        ensures { result ≡ moments_of (lent_part self.entry) last mx }
    {
        let none = Moments {
            s: [0.0; 5],
            t: [0.0; 3],
        };
        self.over_voiced(none, |m, j, y| {
            point_added(m, tonekit_float::f64_of(j) / last - mx, y)
        })
    }

    // The leading coefficient of the least-squares quadratic of Chao values against the fraction of
    // the part, over the voiced frames, of which there are `count`; 0 where they determine no
    // parabola.
    pub fn quadratic_coefficient(self, count: usize) -> f64
        requires { 1 ≤ length self.chao.now }
        ensures { result ≡ quadratic_coefficient (lent_part self.entry) count }
    {
        let last = tonekit_float::f64_of(self.chao.len() - 1);
        let mx = self.sum_fractions(last) / tonekit_float::f64_of(count);
        lead(normal_equations(self.moments(last, mx)))
    }
}

// One point more, x from the mean.
#[tactic(auto, using(tonekit_core::proofs::LoopLaws::again, tonekit_core::proofs::LoopLaws::ended))]
fn point_added(m: Moments, x: f64, y: f64) -> Moments
    ensures { result ≡ point_added x y m }
{
    let mut s = m.s;
    let mut t = m.t;
    let mut pow = 1.0;
    for (k, sum) in s.iter_mut().enumerate() {
        *sum = *sum + pow;
        if k < 3 {
            t[k] = t[k] + pow * y;
        }
        pow = pow * x;
    }
    Moments { s, t }
}

// The normal equations for the quadratic's three coefficients.
#[tactic(auto, unfolding(spec_shape::specs::Fit::normal_equations))]
fn normal_equations(m: Moments) -> [[f64; 4]; 3]
    ensures { result ≡ normal_equations m }
{
    let s = m.s;
    let t = m.t;
    [
        [s[4], s[3], s[2], t[2]],
        [s[3], s[2], s[1], t[1]],
        [s[2], s[1], s[0], t[0]],
    ]
}

// The number of an equation or of an unknown, of which there are three.
#[derive(Clone, Copy)]
struct Number {
    at: usize,
    ghost of_three: { at < 3 },
}

// The row at or below col with the greatest size in that column, the later of equals.
#[tactic(auto, using(tonekit_core::proofs::LoopLaws::again, tonekit_core::proofs::LoopLaws::ended))]
fn pivot_of(m: [[f64; 4]; 3], col: Number) -> Number
    ensures { result.at ≡ pivot_of m col.at }
{
    let mut best = col.at;
    // Stays: by enumerate and skip it would be no plainer, since the row so far is still found by its number, which is the answer.
    for i in col.at + 1..3 {
        if tonekit_float::total_le(m[best][col.at].abs(), m[i][col.at].abs()) {
            best = i;
        }
    }
    Number { at: best }
}

// Row `row` less the multiple of row `col` that clears its column `col`.
#[tactic(auto, using(tonekit_core::proofs::LoopLaws::again, tonekit_core::proofs::LoopLaws::ended))]
fn row_cleared(m: [[f64; 4]; 3], col: Number, row: Number) -> [[f64; 4]; 3]
    ensures { result ≡ row_cleared col.at row.at m }
{
    let mut t = m;
    let f = t[row.at][col.at] / t[col.at][col.at];
    // Stays: iter_mut and zip would be no plainer: both rows would be cut from col.at on first, row col out of m, of which t is a copy.
    for k in col.at..4 {
        t[row.at][k] = t[row.at][k] - f * t[col.at][k];
    }
    t
}

// Every row below `col` cleared in that column.
#[tactic(auto, using(tonekit_core::proofs::LoopLaws::again, tonekit_core::proofs::LoopLaws::ended))]
fn below_cleared(m: [[f64; 4]; 3], col: Number) -> [[f64; 4]; 3]
    ensures { result ≡ below_cleared col.at m }
{
    let mut t = m;
    for row in col.at + 1..3 {
        let next = row_cleared(t, col, Number { at: row });
        t = next;
    }
    t
}

// The first unknown, from the triangle.
#[tactic(auto, unfolding(spec_shape::specs::Fit::first_unknown))]
fn first_of(m: [[f64; 4]; 3]) -> f64
    ensures { result ≡ first_unknown m }
{
    let c = m[2][3] / m[2][2];
    let b = (m[1][3] - m[1][2] * c) / m[1][1];
    (m[0][3] - m[0][2] * c - m[0][1] * b) / m[0][0]
}

// The first unknown of three equations; 0 where they do not determine it.
#[tactic(auto, using(tonekit_core::proofs::LoopLaws::to_again, tonekit_core::proofs::LoopLaws::to_stop, tonekit_core::proofs::LoopLaws::to_ended, std::proofs::lemmas::List::Edits::swap_is), unfolding(spec_shape::specs::Fit::lead_of))]
pub fn lead(start: [[f64; 4]; 3]) -> f64
    ensures { result ≡ lead_of start }
{
    let mut m = start;
    // Stays: no iterator over the grid can be held, since each turn changes the grid as a whole.
    for col in 0..3usize {
        let number = Number { at: col };
        let pivot = pivot_of(m, number);
        if m[pivot.at][col].abs() < 1e-12 {
            return 0.0;
        }
        m.swap(col, pivot.at);
        let next = below_cleared(m, number);
        m = next;
    }
    first_of(m)
}
