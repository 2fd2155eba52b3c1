// Text on its way to standard output, piece by piece.
use crate::write_out;
use std::fmt;

// Text that a program writes as it comes: each word and each number by a write of its own. One that fails is told, and
// the next is tried all the same.
#[derive(Drop)]
pub struct Pieces<'a, R> {
    pub rt: &'a R,
    pub program: &'a str,
}

impl<R: Print + Eprint> fmt::Write for Pieces<'_, R> {
    // Writes a piece.
    fn write_str(&mut self, s: &str) -> fmt::Result {
        write_out(self.rt, self.program, s.as_bytes());
        Ok(())
    }
}
