// shape: a query on standard input; its shape record on standard output, or 52, number, u32 place. No query
// has more bytes than are read.
#![tactic(auto)]

use std::io;
use tonekit_core::layout;

// Reads, shapes and writes.
// Stays: each program is a crate with a main of its own, and this one call is all that is left of it.
fn main(rt: HostRuntime) -> io::Result<()> {
    let mut space = [0u8; 65536];
    let mut out = [0u8; layout::SHAPE_SIZE];
    tonekit_edge::run(
        &rt,
        "shape",
        &mut rt.reader(),
        &mut space,
        &mut out,
        tonekit_output::shape_output,
    )
}
