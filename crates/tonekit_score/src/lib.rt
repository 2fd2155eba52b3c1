// `score` of the Rust: how likely one shape is under looked-up components.
#![tactic(auto)]

ghost use Rattle.std.specs.Prelude.{◌≡◌, ◌<◌};
ghost use Rattle.std.specs.Float.{binary64};
ghost use Rattle.std.specs.Float.Ieee.{mul};
ghost use Rattle.spec_judgement.specs.Score.{widen_for, scoring_of, clamp_log, empty, add_to, value_of, excused};
ghost use Rattle.spec_judgement.specs.Score.{point_weight, squares_of, end_term, ends_of, distance_of, log_of};
ghost use Rattle.spec_judgement.specs.Score.{no_mixing, led, mixture_of, mixture_log, calibrate};
ghost use Rattle.tonekit_score.specs.Terms.{term_of};

pub use spec_judgement::{
    Lead, LogSumExp, Mixing, Mixture, Region, Scoring, Settings, Squares, Term, Tolerance,
};
use tonekit_core::MeasureIssue;
use tonekit_shape::ToneShape;

// The factor on every tolerance, 1 + 0.5 × b: b is 1 under LowSnr, Clipped or ColdStartRegister, else 0, in the same steps whatever the
// issues. They are counted, not joined by `|`: of a b that the compiler knows to be a bit of the issues it makes a jump.
pub fn widen_for(issues: u16) -> f32
    ensures { result ≡ widen_for issues }
{
    let count = u16::from(tonekit_core::has_issue(issues, MeasureIssue::LowSnr))
        + u16::from(tonekit_core::has_issue(issues, MeasureIssue::Clipped))
        + u16::from(tonekit_core::has_issue(issues, MeasureIssue::ColdStartRegister));
    let b = (count + 3) / 4;
    1.0 + 0.5 * f32::from(b)
}

// A tolerance widened.
pub fn widened(sigma: f32, widen: f64) -> f64
    ensures { result ≡ mul binary64 sigma widen }
{
    f64::from(sigma) * widen
}

// How a judgement scores: the tolerances widened for the issues, and the logarithm of their product,
// which every component shares.
#[tactic(auto, unfolding(spec_judgement::specs::Score::scoring_of))]
pub fn scoring_of(temperature: f32, t: Tolerance, issues: u16) -> Scoring
    ensures { result ≡ scoring_of temperature t issues }
{
    let widen = f64::from(widen_for(issues));
    let sc = widened(t.contour, widen);
    let so = widened(t.onset, widen);
    let sf = widened(t.offset, widen);
    Scoring {
        widen,
        contour: !tonekit_core::has_issue(issues, MeasureIssue::TooShort),
        temperature: f64::from(temperature),
        sigmacontour: sc,
        sigmaonset: so,
        sigmaoffset: sf,
        logsigma: tonekit_log::ln(sc * so * sf),
    }
}

// v as an f32 within -1,000,000 and 1,000,000; a NaN gives the lower bound.
#[tactic(auto, unfolding(spec_judgement::specs::Score::clamp_log))]
pub fn clamp_log(v: f64) -> f32
    ensures { result ≡ clamp_log v }
{
    if v.is_nan() {
        return tonekit_float::narrow(-1000000.0);
    }
    if v < -1000000.0 {
        return tonekit_float::narrow(-1000000.0);
    }
    if 1000000.0 < v {
        return tonekit_float::narrow(1000000.0);
    }
    tonekit_float::narrow(v)
}

// The sum of no scores: minus infinity.
pub fn empty() -> LogSumExp
    ensures { result ≡ empty }
{
    LogSumExp {
        max: f64::NEG_INFINITY,
        sum: 0.0,
    }
}

// The sum with one more score; minus infinity adds nothing.
#[tactic(auto, unfolding(spec_judgement::specs::Score::add_to))]
pub fn added(s: LogSumExp, v: f64) -> LogSumExp
    ensures { result ≡ add_to s v }
{
    if v == f64::NEG_INFINITY {
        return s;
    }
    if s.max < v {
        LogSumExp {
            max: v,
            sum: s.sum * tonekit_log::exp(s.max - v) + 1.0,
        }
    } else {
        LogSumExp {
            max: s.max,
            sum: s.sum + tonekit_log::exp(v - s.max),
        }
    }
}

// The logarithm of the sum of the scores' exponentials.
#[tactic(auto, unfolding(spec_judgement::specs::Score::value_of))]
pub fn value_of(s: LogSumExp) -> f64
    ensures { result ≡ value_of s }
{
    if 0.0 < s.sum {
        return s.max + tonekit_log::ln(s.sum);
    }
    f64::NEG_INFINITY
}

// `add` on the pair lent for writing, as in the Rust.
// Stays: docs/FORMATS.md fixes this form, to which the loops lend their own pair.
pub fn add_to(s: &mut LogSumExp, v: f64)
    ensures { s.new ≡ add_to s.old v }
{
    *s = added(*s, v);
}

// Whether point k, voiced so much, lies in the region and carries no weight.
#[tactic(auto, unfolding(spec_judgement::specs::Score::excused))]
fn excused(region: Option<Region>, k: usize, voiced: f32) -> bool
    requires { k < 10 }
    ensures { result ≡ excused region k voiced }
{
    let Some(r) = region else {
        return false;
    };
    let u = tonekit_float::f32_of(k as u32) / 9.0;
    voiced < 0.5 && r.from <= u && u <= r.to
}

// The weight of point k: none where it is excused, else at least 0.25.
#[tactic(auto, unfolding(spec_judgement::specs::Score::point_weight))]
fn point_weight(region: Option<Region>, k: usize, voiced: f32) -> f64
    requires { k < 10 }
    ensures { result ≡ point_weight region k voiced }
{
    if excused(region, k, voiced) {
        return 0.0;
    }
    f64::from(tonekit_float::greater(voiced, 0.25))
}

// The weighted squares of the shape's distances from a component's ten points.
fn squares_of(x: ToneShape, region: Option<Region>, ten: &[f32; 10]) -> Squares
    ensures { result ≡ squares_of x region ten.now }
{
    let mut q = Squares {
        weighted: 0.0,
        total: 0.0,
    };
    for (k, point) in ten.iter().enumerate() {
        let w = point_weight(region, k, x.weights[k]);
        let d = f64::from(x.contour[k]) - f64::from(*point);
        q = Squares {
            weighted: q.weighted + w * d * d,
            total: q.total + w,
        };
    }
    q
}

// Half the square of a difference in units of its tolerance.
#[tactic(auto, unfolding(spec_judgement::specs::Score::end_term))]
fn end_term(d: f64, sigma: f64) -> f64
    ensures { result ≡ end_term d sigma }
{
    0.5 * d * d / (sigma * sigma)
}

// The two ends' share of the squared distance.
#[tactic(auto, unfolding(spec_judgement::specs::Score::ends_of))]
fn ends_of(x: ToneShape, s: Scoring, ten: &[f32; 10]) -> f64
    ensures { result ≡ ends_of x s ten.now }
{
    let onset = f64::from(x.contour[0]) - f64::from(ten[0]);
    let offset = f64::from(x.contour[9]) - f64::from(ten[9]);
    end_term(onset, s.sigmaonset) + end_term(offset, s.sigmaoffset)
}

// The squared distance of a shape from a component's ten points, whose tone has that region or none.
#[tactic(auto, unfolding(spec_judgement::specs::Score::distance_of))]
pub fn distance_of(x: ToneShape, s: Scoring, region: Option<Region>, ten: &[f32; 10]) -> f64
    ensures { result ≡ distance_of x s region ten.now }
{
    let ends = ends_of(x, s, ten);
    if s.contour {
        let q = squares_of(x, region, ten);
        if 0.0 < q.total {
            return ends + q.weighted / q.total / (s.sigmacontour * s.sigmacontour);
        }
    }
    ends
}

// The log-likelihood at a squared distance, before weighting.
#[tactic(auto, unfolding(spec_judgement::specs::Score::log_of))]
fn log_of(s: Scoring, d2: f64) -> f64
    ensures { result ≡ log_of s d2 }
{
    -0.5 * d2 - s.logsigma
}

// The mixture of nothing.
pub fn no_mixing() -> Mixing
    ensures { result ≡ no_mixing }
{
    Mixing {
        total: empty(),
        best: None,
    }
}

// The best with one more that has a score; the first of equals stays.
pub fn led(best: Option<Lead>, next: Lead) -> Lead
    ensures { result ≡ led best next }
{
    match best {
        Some(best) => { if best.score < next.score { next } else { best } }
        None => next,
    }
}

// The term of a component of that weight and squared distance, none where the weight is not above 0.
#[tactic(auto, unfolding(crate::specs::Terms::term_of))]
pub fn term_of(s: Scoring, weight: f32, d2: f64) -> Option<Term>
    ensures { result ≡ term_of s weight d2 }
{
    if weight <= 0.0 {
        return None;
    }
    Some(Term {
        score: tonekit_log::ln(f64::from(weight)) + log_of(s, d2),
        distance: d2,
    })
}

// What a mixture comes to.
pub fn mixture_of(m: Mixing) -> Mixture
    ensures { result ≡ mixture_of m }
{
    match m.best {
        Some(best) => Mixture::Scored(value_of(m.total), best.index, best.distance),
        None => Mixture::Nothing,
    }
}

// A mixture's log-likelihood, minus infinity where there was nothing to score.
pub fn mixture_log(m: Mixture) -> f64
    ensures { result ≡ mixture_log m }
{
    match m {
        Mixture::Scored(ll, _, _) => ll,
        Mixture::Nothing => f64::NEG_INFINITY,
    }
}

// A log-likelihood divided by the temperature and clamped.
#[tactic(auto, unfolding(spec_judgement::specs::Score::calibrate))]
pub fn calibrate(s: Scoring, ll: f64) -> f32
    ensures { result ≡ calibrate s ll }
{
    clamp_log(ll / s.temperature)
}
