// Document 01's section Judgement, defined: scores, advice, what is judged against, and the record. No code.
#![tactic(auto)]

use arrayvec::ArrayVec;
use tonekit_core::{DeltaKind, Measured, Name};
pub use tonekit_entries::{Inventory, Region, ToneEntry, ToneListing};

// The two settings that a judgement scores by: the temperature, and the posterior from which on a tone is heard.
#[derive(Clone, Copy)]
pub struct Settings {
    pub temperature: f32,
    pub threshold: f32,
}

// Gaussian scales of the graded accent, before any widening.
#[derive(Clone, Copy)]
pub struct Tolerance {
    pub contour: f32,
    pub onset: f32,
    pub offset: f32,
    pub turning: f32,
}

// How a call's issues, the graded accent and the pack's settings change scoring.
#[derive(Clone, Copy)]
pub struct Scoring {
    pub widen: f64,
    pub contour: bool,
    pub temperature: f64,
    pub sigmacontour: f64,
    pub sigmaonset: f64,
    pub sigmaoffset: f64,
    pub logsigma: f64,
}

// A running log-sum-exp: the greatest score and the running sum.
#[derive(Clone, Copy)]
pub struct LogSumExp {
    pub max: f64,
    pub sum: f64,
}

// Either a scored mixture, with its log-likelihood, the index of its best component and that one's
// squared distance; or nothing to score.
// Stays: docs/FORMATS.md fixes this form, an enum of what is scored and of nothing, which the Rust has.
#[derive(Clone, Copy)]
pub enum Mixture {
    Scored(f64, usize, f64),
    Nothing,
}

// A weighted sum of squares and the weights' sum.
#[derive(Clone, Copy)]
pub struct Squares {
    pub weighted: f64,
    pub total: f64,
}

// The best component, or tone, so far: its score, its index and its squared distance.
#[derive(Clone, Copy)]
pub struct Lead {
    pub score: f64,
    pub index: usize,
    pub distance: f64,
}

// What a component brings to a mixture.
#[derive(Clone, Copy)]
pub struct Term {
    pub score: f64,
    pub distance: f64,
}

// A mixture so far: the sum, and the best component, if there is one.
#[derive(Clone, Copy)]
pub struct Mixing {
    pub total: LogSumExp,
    pub best: Option<Lead>,
}

// Advice: its size in units of the tolerance, its kind and its amount.
#[derive(Clone, Copy)]
pub struct Delta {
    pub z: f64,
    pub kind: DeltaKind,
    pub amount: f32,
}

// The two largest so far, in order.
#[derive(Clone, Copy)]
pub struct Deltas {
    pub first: Option<Delta>,
    pub second: Option<Delta>,
}

// The tones so far: the background's sum, and the tone with the greatest score, if there is one.
#[derive(Clone, Copy)]
pub struct Ranking {
    pub background: LogSumExp,
    pub top: Option<Lead>,
}

// A component: its weight and its ten points.
#[derive(Clone, Copy)]
pub struct Slot {
    pub weight: f32,
    pub points: [f32; 10],
}

// The components' slots.
// Stays: fixed memory; `Carries` of tonekit_demand says that component j of tone t stands at 4 * t + j.
#[derive(Drop)]
pub struct Slots {
    pub list: [Slot; 32],
}

// A tone that a target may be: its place in the inventory, and its weight.
#[derive(Clone, Copy, Default)]
pub struct Target {
    pub place: u8,
    pub weight: f32,
}

// The tones that a target may be: the main tone first, then the variants.
pub type Targets = ArrayVec<Target, 5>;

// The target's best component: its distance, its name, and its part of a mixture.
#[derive(Clone, Copy)]
pub struct Nearest {
    pub distance: f32,
    pub name: Name,
    pub part: u8,
}

// A judgement, as in the Rust, with the number of the tone that is heard, if one is.
// Stays: `loglik` is eight numbers beside the inventory's count, as the record has all eight.
#[derive(Clone, Copy)]
pub struct ToneJudgement {
    pub loglik: [f32; 8],
    pub llr: f32,
    pub nearest: Option<Nearest>,
    pub heard: Option<u8>,
    pub deltas: Deltas,
    pub measured: Measured,
    pub issues: u16,
}

// What a component brings to mixtures: its weight, and its squared distance from the shape.
// Stays: tonekit_expect's Component is a curve with its name, and has no field in common but the weight.
#[derive(Clone, Copy)]
pub struct Component {
    pub weight: f32,
    pub distance: f64,
}

// What a query is judged by: whether what stood before is held, or nothing did; the settings, the
// accent's tolerances, if it is held, and for each tone its listing, if it has one.
#[derive(Drop)]
pub struct Gathered {
    pub prev: bool,
    pub settings: Settings,
    pub tolerance: Option<Tolerance>,
    pub inventory: Inventory,
}
