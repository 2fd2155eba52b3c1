// station: u16 pack length, pack, query on standard input; the judgement record on standard output, or 52, number, u32
// place.
#![tactic(auto)]

use std::io;
use tonekit_core::layout;

// The space holds 2 + 65,535 + 10,288 bytes and more, so the answer is that of the whole input
// (`station_enough` of tonekit_station).
// Stays: each program is a crate with a main of its own, and this one call is all that is left of it.
fn main(rt: HostRuntime) -> io::Result<()> {
    let mut space = [0u8; 80000];
    let mut out = [0u8; layout::JUDGEMENT_SIZE];
    tonekit_edge::run(
        &rt,
        "station",
        &mut rt.reader(),
        &mut space,
        &mut out,
        tonekit_station_output::station_output,
    )
}
