// A page of text on its way to standard output.
ghost use Rattle.std.specs.Prelude.{◌≡◌, ◌<◌, []};
ghost use Rattle.arrayvec.specs.ArrayVec.{array_vec_len};

use crate::write_out;
use arrayvec::ArrayVec;
use std::fmt;

// Text that a program writes whenever a page is full.
#[derive(Drop)]
pub struct Page<'a, R> {
    rt: &'a R,
    program: &'a str,
    text: ArrayVec<u8, 4096>,
}

impl<'a, R: Print + Eprint> Page<'a, R> {
    // An empty page.
    pub fn new(rt: &'a R, program: &'a str) -> Self
        ensures { result.text.items ≡ [] }
    {
        Page {
            rt,
            program,
            text: ArrayVec::new(),
        }
    }

    // Writes what is on the page, and empties it.
    pub fn flush(&mut self)
        ensures { self.new.text.items ≡ [] }
    {
        write_out(self.rt, self.program, self.text.as_slice());
        self.text.clear();
    }

    // Makes room for a byte.
    fn make_room(&mut self)
        ensures { array_vec_len self.new.text < 4096 }
    {
        if self.text.is_full() {
            self.flush();
        }
    }
}

impl<R: Print + Eprint> fmt::Write for Page<'_, R> {
    // Adds text to the page.
    fn write_str(&mut self, s: &str) -> fmt::Result {
        for &byte in s.as_bytes() {
            self.make_room();
            self.text.push(byte);
        }
        Ok(())
    }
}
