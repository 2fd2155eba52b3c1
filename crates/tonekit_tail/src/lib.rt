// tail.rs of the Rust: a creaky tail as evidence for the tones that often end in it.
#![tactic(auto)]

ghost use Rattle.std.specs.Prelude.{◌≡◌, ◌<◌, length};
ghost use Rattle.spec_judgement.specs.Asked.{TargetsHeld};
ghost use Rattle.spec_judgement.specs.Tail.{tail_loglik, tail_term, target_tail_loglik, with_tail};
ghost use Rattle.tonekit_tail.specs.Mixed.{mixed_tail};

pub use spec_judgement::{Inventory, Target, Targets, ToneEntry};
use tonekit_core::MeasureIssue;

// What a tail is worth to a tone; 0 where the issues have none.
#[tactic(auto, unfolding(spec_judgement::specs::Tail::tail_loglik))]
pub fn tail_loglik(entry: &ToneEntry, issues: u16) -> f32
    ensures { result ≡ tail_loglik entry.now issues }
{
    if tonekit_core::has_issue(issues, MeasureIssue::CreakyTail) {
        return entry.tail;
    }
    0.0
}

// The term of one of the target's tones: the logarithm of its weight, and its tail.
fn tail_term(inventory: &Inventory, target: Target, issues: u16) -> f64
    requires { target.place < length inventory.now.items }
    ensures { result ≡ tail_term inventory.now issues target }
{
    let tail = tail_loglik(&inventory[usize::from(target.place)], issues);
    tonekit_log::ln(f64::from(target.weight)) + f64::from(tail)
}

// That of the target's tones together: the variants first, and the main tone at the end.
fn mixed_tail(inventory: &Inventory, targets: &Targets, issues: u16) -> f32
    requires { TargetsHeld (length inventory.now.items) targets.now }
    ensures { result ≡ mixed_tail inventory.now targets.now issues }
{
    let mut sum = tonekit_score::empty();
    for k in 1..targets.len() {
        tonekit_score::add_to(&mut sum, tail_term(inventory, targets[k], issues));
    }
    tonekit_score::add_to(&mut sum, tail_term(inventory, targets[0], issues));
    tonekit_float::narrow(tonekit_score::value_of(sum))
}

// What a tail is worth to a target: to its one tone, or with variants to them and the main tone together.
#[tactic(auto, unfolding(spec_judgement::specs::Tail::target_tail_loglik, crate::specs::Mixed::mixed_tail))]
pub fn target_tail_loglik(inventory: &Inventory, targets: &Targets, issues: u16) -> f32
    requires { TargetsHeld (length inventory.now.items) targets.now }
    ensures { result ≡ target_tail_loglik inventory.now targets.now issues }
{
    if 1 < targets.len() && tonekit_core::has_issue(issues, MeasureIssue::CreakyTail) {
        return mixed_tail(inventory, targets, issues);
    }
    tail_loglik(&inventory[usize::from(targets[0].place)], issues)
}

// A log-likelihood and a tail, clamped; the log-likelihood as it is where the tail is 0.
#[tactic(auto, unfolding(spec_judgement::specs::Tail::with_tail))]
pub fn with_tail(ll: f32, tail: f32) -> f32
    ensures { result ≡ with_tail ll tail }
{
    if tail == 0.0 {
        return ll;
    }
    tonekit_score::clamp_log(f64::from(ll) + f64::from(tail))
}
