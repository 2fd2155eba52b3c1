// Document 01's section Lookup, defined: which curves a context takes, and what a station holds. No code.
#![tactic(auto)]

use tonekit_core::Name;

// The rule that a walk up the parents found: its accent's index and its own offset.
#[derive(Clone, Copy)]
pub struct Winner {
    pub accent: usize,
    pub rule: usize,
}

// A context, by the numbers of its accent, tone and previous tone (0 none), and whether it is the end
// of a phrase.
// Stays: `prev` is 0 for none, as rules and rows hold it and `meets` compares it; an Option would be turned back to that byte at each.
#[derive(Clone, Copy)]
pub struct Context {
    pub accent: u8,
    pub tone: u8,
    pub prev: u8,
    pub last: bool,
}

// The curves of a context: what they are called, and how many components stand at an offset.
#[derive(Clone, Copy)]
pub struct Listing {
    pub name: Name,
    pub at: usize,
    pub count: usize,
}

// One weighted curve, as in the Rust: what it is called, its weight and its ten points.
// Stays: tonekit_judge's Component is what mixtures take of a slot, and has no field in common but the weight.
#[derive(Drop)]
pub struct Component {
    pub name: Name,
    pub part: u8,
    pub weight: f32,
    pub points: [f32; 10],
}
