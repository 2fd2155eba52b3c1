// The program `check`. check pack | check query | check sheet: whether the bytes on standard input are one. Nothing is
// written for input that loads, and 52, number, u32 place for input that does not.
#![tactic(auto)]

use std::env::Env;
use std::io;
use tonekit_core::layout;

// Whether `check` knows a word: then it has something to say of an empty input.
fn knows(word: &[u8]) -> bool {
    let mut out = [0u8; layout::REFUSAL_SIZE];
    tonekit_output::check_output(word, b"", &mut out).is_some()
}

// A word that is not known is told before anything is read.
fn main(rt: HostRuntime) -> io::Result<()> {
    let mut name = [0u8; 8];
    let n = rt.arg(1, &mut name).unwrap_or(0);
    let word = &name[..n];
    if tonekit_edge::arg_count(&rt) == 2 && knows(word) {
        let mut space = [0u8; 65536];
        let mut out = [0u8; layout::REFUSAL_SIZE];
        return tonekit_edge::run(
            &rt,
            "check",
            &mut rt.reader(),
            &mut space,
            &mut out,
            |input, record| tonekit_output::check_output(word, input, record).unwrap_or(0),
        );
    }
    let _ = eprintln!(rt;
        "usage: check pack | check query | check sheet, with the bytes on standard input"
    );
    Ok(())
}
