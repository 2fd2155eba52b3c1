// The work of the programs `check`, `shape` and `sheet`: what each writes on standard output, by its input.
#![tactic(auto)]

ghost use Rattle.tonekit_report.specs.Report.{Told};
ghost use Rattle.spec_shape.specs.Record.{shape_outcome};
ghost use Rattle.spec_sheet.specs.Outcome.{sheet_outcome};
ghost use Rattle.tonekit_output.specs.Check.{check_outcome, Checks};

use tonekit_core::{Rejection, layout};

// How many bytes are told of a check: none of what loads, else the refusal's record.
fn tell_checked(checked: Result<(), Rejection>, out: &mut [u8; layout::REFUSAL_SIZE]) -> usize
    ensures { Told (check_outcome checked) out.old result out.new }
{
    match checked {
        Ok(()) => 0,
        Err(e) => tonekit_report::tell(Err(e), out),
    }
}

// The program `check`: its word says as what the input is read, and what is told of it stands in `out`.
// How many bytes that is, or none where the word is not known.
pub fn check_output(
    word: &[u8],
    input: &[u8],
    out: &mut [u8; layout::REFUSAL_SIZE],
) -> Option<usize>
    ensures { Checks word.now input.now out.old result out.new }
{
    let checked = match word {
        b"pack" => tonekit_pack::check_pack(input),
        b"query" => tonekit_query::check_query(input),
        b"sheet" => tonekit_sheet_read::check_sheet(input),
        _ => return None,
    };
    Some(tell_checked(checked, out))
}

// The program `shape`: how many bytes it writes, which stand in `out`.
pub fn shape_output(query: &[u8], out: &mut [u8; layout::SHAPE_SIZE]) -> usize
    ensures { Told (shape_outcome query.now) out.old result out.new }
{
    let a = tonekit_shape::write_shape(query, out);
    tonekit_report::tell(a, out)
}

// The program `sheet`, likewise. No sheet is longer than what it is lent.
// Stays: `shape_output` differs from this in its call alone; one function over the call would take a closure, and its contract would have to be the closure's.
pub fn sheet_output(pack: &[u8], out: &mut [u8; layout::SHEET_MOST]) -> usize
    ensures { Told (sheet_outcome pack.now) out.old result out.new }
{
    let a = tonekit_sheet_write::write_sheet(pack, out);
    tonekit_report::tell(a, out)
}
