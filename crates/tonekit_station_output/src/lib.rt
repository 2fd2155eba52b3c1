// The work of the programs `station` and `station_sheet`: what each writes on standard output, by its input.
#![tactic(auto)]

ghost use Rattle.tonekit_report.specs.Report.{Told};
ghost use Rattle.spec_judgement.specs.Input.{held_of, query_of};
ghost use Rattle.tonekit_station.specs.Held.{on_held};
ghost use Rattle.spec_judgement.specs.Judgement.{station_outcome};
ghost use Rattle.spec_sheet.specs.JudgeSheet.{station_sheet_outcome};

use tonekit_core::layout;
use tonekit_inventory::{Held, HeldPack};
use tonekit_sheet_inventory::HeldSheet;

// How many bytes are told of the judgement against what the input holds; they stand in `out`.
// Stays: `sheet_output` of tonekit_output differs from this in its call alone; one function over the call would take a closure, and its contract would have to be the closure's.
fn output<'a, H: Held<'a>>(input: &'a [u8], out: &mut [u8; layout::JUDGEMENT_SIZE]) -> usize
    ensures { Told (on_held (H.loads (held_of input.now)) (query_of input.now)) out.old result
        out.new }
{
    let answer = tonekit_station::judge_parts::<H>(input, out);
    tonekit_report::tell(answer, out)
}

// The program `station`: how many bytes it writes, which stand in `out`.
// Stays: one of the two uses of `output`, one line each, which state a program's outcome under its name.
pub fn station_output(input: &[u8], out: &mut [u8; layout::JUDGEMENT_SIZE]) -> usize
    ensures { Told (station_outcome input.now) out.old result out.new }
{
    output::<HeldPack>(input, out)
}

// The program `station_sheet`, likewise.
// Stays: the other use of `output`.
pub fn station_sheet_output(input: &[u8], out: &mut [u8; layout::JUDGEMENT_SIZE]) -> usize
    ensures { Told (station_sheet_outcome input.now) out.old result out.new }
{
    output::<HeldSheet>(input, out)
}
