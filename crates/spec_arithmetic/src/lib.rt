// Document 01's section Arithmetic, defined: fields of bytes, floats, ln, log2, exp and the square root. No code.
#![tactic(auto)]

// A positive number as m * 2^e.
#[derive(Drop)]
pub struct Parts {
    pub m: f64,
    pub e: f64,
}
