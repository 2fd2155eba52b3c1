// A register at least 4 semitones wide, as in register.rs.
#![tactic(auto)]

ghost use Rattle.std.specs.Prelude.{◌≡◌};
ghost use Rattle.spec_shape.specs.Register.{at_least_min_span};
ghost use Rattle.tonekit_min_span.specs.Near.{Near};

pub use spec_shape::Register;

// The floor-to-ceiling distance never goes below this.
const MIN_SPAN_ST: f32 = 4.0;

// The register as it is where it is at least 4 semitones wide, else 4 semitones about its middle. What
// rounding takes from the gap is given back by pushing the ends apart: it is no more than one push.
pub fn at_least_min_span(mut r: Register) -> Register
    requires { Near r.floor × Near r.ceil }
    ensures { result ≡ at_least_min_span r }
{
    if r.ceil - r.floor >= MIN_SPAN_ST {
        return r;
    }
    let mid = 0.5 * (f64::from(r.floor) + f64::from(r.ceil));
    let half = f64::from(MIN_SPAN_ST) / 2.0;
    r.floor = tonekit_float::narrow(mid - half);
    r.ceil = tonekit_float::narrow(mid + half);
    let step = tonekit_float::narrow(mid.abs() + half) * f32::EPSILON;
    while r.ceil - r.floor < MIN_SPAN_ST {
        r.floor -= step;
        r.ceil += step;
    }
    r
}
