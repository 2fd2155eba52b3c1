// sheet: a pack on standard input; its sheet on standard output, or 52, number, u32 place. No pack has more
// bytes than are read.
#![tactic(auto)]

use std::io;
use tonekit_core::layout;

// Reads, makes the sheet and writes it.
// Stays: each program is a crate with a main of its own, and this one call is all that is left of it.
fn main(rt: HostRuntime) -> io::Result<()> {
    let mut space = [0u8; 65536];
    let mut out = [0u8; layout::SHEET_MOST];
    tonekit_edge::run(
        &rt,
        "sheet",
        &mut rt.reader(),
        &mut space,
        &mut out,
        tonekit_output::sheet_output,
    )
}
