// The input of the programs that judge: a u16 length, so many bytes of a pack or a sheet, a query.
#![tactic(auto)]

ghost use Rattle.std.specs.Prelude.{◌≡◌, ◌+◌, min, length};
ghost use Rattle.spec_arithmetic.specs.Fields.{u16_at};
ghost use Rattle.spec_judgement.specs.Input.{held_of, query_of};

// Where the pack or the sheet ends. Missing length bytes are 0, and a length past the input's end takes
// what is there.
fn end_of_held(input: &[u8]) -> usize
    ensures { result ≡ min (2 + u16_at input.now 0) (length input.now) }
{
    (2 + usize::from(tonekit_bytes::u16_at(input, 0, 0))).min(input.len())
}

// The pack or the sheet.
#[tactic(auto, using(crate::proofs::Input::held_is))]
pub fn held_part(input: &[u8]) -> &[u8]
    ensures { result.now ≡ held_of input.now }
{
    &input[input.len().min(2)..end_of_held(input)]
}

// The query, all that stands behind it.
#[tactic(auto, using(crate::proofs::Input::query_is))]
pub fn query_part(input: &[u8]) -> &[u8]
    ensures { result.now ≡ query_of input.now }
{
    &input[end_of_held(input)..]
}
