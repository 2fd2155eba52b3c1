// Document 01's section Query, defined: which bytes are a query, and what its frames say. No code.
#![tactic(auto)]

// What a query says before its frames: its fixed record, and whether kind 55 stands behind it, which takes
// the register from the frames. Any accent, tone, span or register may stand in the record.
// Stays: `prev` is 0 for none, as the record holds it and as a context, which takes it on, compares it.
#[derive(Clone, Copy)]
pub struct Query {
    pub accent: u8,
    pub tone: u8,
    pub prev: u8,
    pub last: bool,
    pub start: u32,
    pub end: u32,
    pub floor: f32,
    pub ceil: f32,
    pub issues: u16,
    pub variants: u8,
    pub count: u16,
    pub cold: bool,
}

// What a frame that has a pitch says.
#[derive(Clone, Copy)]
pub struct Voiced {
    pub hz: f32,
    pub voiced_p: f32,
}
