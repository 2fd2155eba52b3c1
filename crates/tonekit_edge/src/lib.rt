// Where the programs meet the system: the input into a lent buffer, bytes to standard output, and what is told on
// standard error.
#![tactic(auto)]

ghost use Rattle.std.specs.Prelude.{◌≡◌, ℕ, ◌<◌, ◌≤◌, length, take, IfOk, IfErr};
ghost use Rattle.std.specs.Io.{ReadsAtMost};
ghost use Rattle.std.specs.Io.KnownBytes.{Consumes, IsAtEnd};
ghost use Rattle.tonekit_edge.specs.Run.{AnswersAt};

mod page;
mod pieces;

pub use crate::page::Page;
pub use crate::pieces::Pieces;
use arrayvec::ArrayString;
use std::convert::AsSlice;
use std::env::{Env, FillError};
use std::fmt::{Display, Write};
use std::io;
use std::io::Read;

// Reads until the buffer is full or the input ends, and answers how many bytes it put at the buffer's front. So it
// answers less than the buffer's length only where nothing is left of the input; a read that fails is the error.
// Stays: there is no heap for the Vec of std's read_to_end, and its read_exact does not say how much of a short input came.
pub fn read_full<R: Read>(reader: &mut R, buf: &mut [u8]) -> io::Result<usize>
    ensures bound { ReadsAtMost result buf.new }
    ensures bytes { IfOk result (λ n.
        Consumes (R.remaining reader.old) (R.remaining reader.new) (take n buf.new)) }
    ensures end { IfOk result (λ n. n < length buf.new → IsAtEnd (R.remaining reader.new)) }
{
    let mut done = 0;
    while done < buf.len() {
        let n = reader.read(&mut buf[done..])?;
        if n == 0 {
            return Ok(done);
        }
        done += n;
    }
    Ok(done)
}

// How many arguments the program was started with, its own name among them.
pub fn arg_count(rt: &impl Env) -> usize {
    for i in 0..usize::MAX {
        let mut byte = [0u8; 1];
        if let Err(FillError::NotPresent) = rt.arg(i, &mut byte) {
            return i;
        }
    }
    usize::MAX
}

// Writes a line to standard error: what failed, as the caller names it, a colon and the reason.
pub fn fail(rt: &impl Eprint, what: impl Display + Drop, error: io::Error) {
    let mut text = ArrayString::<128>::new();
    let _ = write!(text, "{error}");
    let words = reason(text.as_str());
    let _ = eprintln!(rt; "{what}: {words}");
}

// An error's text without the number that the text of a system's error ends in.
fn reason(text: &str) -> &str {
    text.split_once(" (os error ")
        .map_or(text, |(words, _)| words)
}

// Writes bytes to standard output, and tells on standard error where not all could be written.
pub fn write_out(rt: &(impl Print + Eprint), program: &str, bytes: &[u8]) {
    if let Err(error) = Print::write_all(rt, bytes) {
        fail(
            rt,
            format_args!("{program}: not all bytes could be written"),
            error,
        );
    }
}

// A program's work: reads its input, as far as there is space, calls `answer` with what was read, and writes to standard
// output as many bytes as it says that it put at the front of what is lent to it.
pub fn run<R: Read, B: AsSlice<u8>, F: Fn(&[u8], &mut B) -> usize>(
    rt: &(impl Print + Eprint),
    program: &str,
    reader: &mut R,
    space: &mut [u8],
    out: &mut B,
    answer: F,
) -> io::Result<()>
    requires { F.IsAlwaysCallable answer }
    ensures answers { IfOk result (λ _. (n m : ℕ) × (n ≤ length space.new)
        × Consumes (R.remaining reader.old) (R.remaining reader.new) (take n space.new)
        × (n < length space.new → IsAtEnd (R.remaining reader.new))
        × AnswersAt F.Fn answer (take n space.new) out.old m out.new) }
    ensures unread { IfErr result (λ _. out.new ≡ out.old) }
{
    let n = read_full(reader, space)?;
    let m = answer(&space[..n], out);
    let bytes = out.as_slice();
    write_out(rt, program, &bytes[..m.min(bytes.len())]);
    Ok(())
}

#[cfg(test)]
mod tests {
    use super::*;
    use std::test::Fail;

    // Gives two bytes, and then fails.
    #[derive(Drop)]
    struct Broken {
        given: bool,
    }

    impl Read for Broken {
        fn read(&mut self, buf: &mut [u8]) -> io::Result<usize> {
            if self.given || buf.len() < 2 {
                return Err(io::Error::from_raw_os_error(5));
            }
            self.given = true;
            buf[0] = 7;
            buf[1] = 8;
            Ok(2)
        }
    }

    #[test]
    fn reads_all_or_what_fits(rt: HostRuntime) -> Result<(), Fail> {
        let mut buf = [9u8; 4];
        let mut short: &[u8] = b"abc";
        assert_eq!(rt; read_full(&mut short, &mut buf)?, 3);
        assert_eq!(rt; &buf[..], &b"abc\x09"[..]);
        let mut long: &[u8] = b"abcdef";
        assert_eq!(rt; read_full(&mut long, &mut buf)?, 4);
        assert_eq!(rt; &buf[..], &b"abcd"[..]);
        assert_eq!(rt; long, &b"ef"[..]);
        Ok(())
    }

    #[test]
    fn a_read_that_fails_is_the_error(rt: HostRuntime) {
        let mut buf = [0u8; 4];
        let read = read_full(&mut Broken { given: false }, &mut buf);
        assert!(rt; read.is_err());
        assert_eq!(rt; &buf[..2], &[7u8, 8][..]);
    }

    #[test]
    fn tells_the_reason_in_words(rt: HostRuntime) -> Result<(), Fail> {
        let mut text = ArrayString::<128>::new();
        write!(text, "{}", io::Error::from_raw_os_error(28))?;
        assert_eq!(rt; text.as_str(), "No space left on device (os error 28)");
        assert_eq!(rt; reason(text.as_str()), "No space left on device");
        assert_eq!(rt;
            reason("failed to write whole buffer"),
            "failed to write whole buffer"
        );
        Ok(())
    }
}
