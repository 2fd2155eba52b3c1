// The calls, exported for C and Rust: slices go as a pointer and a length, an answer as a number (0
// where nothing was refused) and, through `place`, the place of a refusal or the bytes written.
#![tactic(auto)]

ghost use Rattle.std.specs.Prelude.{◌≡◌, length, min};
ghost use Rattle.std.specs.Float.{binary32, binary64};
ghost use Rattle.std.specs.Float.Ieee.{of_bits, to_bits};
ghost use Rattle.spec_arithmetic.specs.Narrow.{narrowed};
ghost use Rattle.spec_arithmetic.specs.Root.{root_of};
ghost use Rattle.spec_arithmetic.specs.Log.{ln_of, log2_of};
ghost use Rattle.spec_arithmetic.specs.Exp.{exp_of};
ghost use Rattle.spec_pack.specs.Pack.{check_pack};
ghost use Rattle.spec_query.specs.Query.{check_query};
ghost use Rattle.spec_sheet.specs.Reader.{check_sheet};
ghost use Rattle.spec_sheet.specs.Outcome.{sheet_outcome};
ghost use Rattle.spec_shape.specs.Record.{shape_outcome};
ghost use Rattle.spec_shape.specs.Register.{voiced_st, cold_register};
ghost use Rattle.spec_judgement.specs.Judgement.{judge_outcome};
ghost use Rattle.spec_sheet.specs.JudgeSheet.{judge_sheet_outcome};
ghost use Rattle.tonekit_c.specs.Export.{checked_place, answer_number, answer_place, Hands};

use tonekit_core::Rejection;
use tonekit_float::AnyFloat;

// Hands a call's answer over: 0 and the bytes it wrote, or the refusal's number and place.
fn hand(answer: Result<usize, Rejection>, place: &mut u64) -> u32
    ensures { (result ≡ answer_number answer) × (place.new ≡ answer_place answer) }
{
    match answer {
        Ok(n) => {
            *place = n as u64;
            0
        }
        Err(e) => {
            *place = e.place as u64;
            u32::from(u8::from(e.why))
        }
    }
}

// Whether the bytes are a pack: 0, or the refusal's number.
// Stays: the C interface has a function for each of pack, query and sheet.
#[unsafe(no_mangle)]
pub extern "C" fn tonekit_check_pack(pack: &[u8], place: &mut u64) -> u32
    ensures { (result ≡ answer_number (check_pack pack.now))
        × (place.new ≡ checked_place (check_pack pack.now)) }
{
    hand(tonekit_pack::check_pack(pack).and(Ok(0)), place)
}

// Whether the bytes are a query: 0, or the refusal's number.
#[unsafe(no_mangle)]
pub extern "C" fn tonekit_check_query(query: &[u8], place: &mut u64) -> u32
    ensures { (result ≡ answer_number (check_query query.now))
        × (place.new ≡ checked_place (check_query query.now)) }
{
    hand(tonekit_query::check_query(query).and(Ok(0)), place)
}

// Whether the bytes are a sheet: 0, or the refusal's number.
// Stays: the C interface has a function for each of pack, query and sheet.
#[unsafe(no_mangle)]
pub extern "C" fn tonekit_check_sheet(sheet: &[u8], place: &mut u64) -> u32
    ensures { (result ≡ answer_number (check_sheet sheet.now))
        × (place.new ≡ checked_place (check_sheet sheet.now)) }
{
    hand(tonekit_sheet_read::check_sheet(sheet).and(Ok(0)), place)
}

// Writes the sheet of a pack: 0 and its bytes, or the refusal's number and nothing.
#[unsafe(no_mangle)]
pub extern "C" fn tonekit_write_sheet(pack: &[u8], out: &mut [u8], place: &mut u64) -> u32
    ensures { Hands (sheet_outcome pack.now) out.old result place.new
        out.new }
{
    hand(tonekit_sheet_write::write_sheet(pack, out), place)
}

// Writes the shape record of a query: 0 and 124 bytes, or the refusal's number and nothing.
// Stays: the C interface hands slices and places one by one.
#[unsafe(no_mangle)]
pub extern "C" fn tonekit_write_shape(query: &[u8], out: &mut [u8], place: &mut u64) -> u32
    ensures { Hands (shape_outcome query.now) out.old result place.new
        out.new }
{
    hand(tonekit_shape::write_shape(query, out), place)
}

// Judges a query against a pack: 0 and the record of 64 bytes, or the refusal's number and nothing.
// Stays: the C interface has a function for a pack and one for a sheet, and hands slices and places one by one.
#[unsafe(no_mangle)]
pub extern "C" fn tonekit_judge(pack: &[u8], query: &[u8], out: &mut [u8], place: &mut u64) -> u32
    ensures { Hands (judge_outcome pack.now query.now) out.old result
        place.new out.new }
{
    hand(tonekit_station::judge(pack, query, out), place)
}

// Judges a query against a sheet, likewise.
// Stays: the C interface has a function for a pack and one for a sheet.
#[unsafe(no_mangle)]
pub extern "C" fn tonekit_judge_sheet(
    sheet: &[u8],
    query: &[u8],
    out: &mut [u8],
    place: &mut u64,
) -> u32
    ensures { Hands (judge_sheet_outcome sheet.now query.now) out.old result
        place.new out.new }
{
    hand(tonekit_station::judge_sheet(sheet, query, out), place)
}

// The bits of the f32 nearest to an f64.
#[unsafe(no_mangle)]
pub extern "C" fn tonekit_narrow(bits: u64) -> u32
    ensures { result ≡ to_bits binary32 (narrowed (of_bits binary64 bits)) }
{
    tonekit_float::narrow(f64::of_bits(bits)).bits()
}

// The bits of the square root of an f64.
#[unsafe(no_mangle)]
pub extern "C" fn tonekit_root(bits: u64) -> u64
    ensures { result ≡ to_bits binary64 (root_of (of_bits binary64 bits)) }
{
    tonekit_root::sqrt(f64::of_bits(bits)).bits()
}

// The bits of the natural logarithm of an f64.
#[unsafe(no_mangle)]
pub extern "C" fn tonekit_ln(bits: u64) -> u64
    ensures { result ≡ to_bits binary64 (ln_of (of_bits binary64 bits)) }
{
    tonekit_log::ln(f64::of_bits(bits)).bits()
}

// The bits of the binary logarithm of an f64.
#[unsafe(no_mangle)]
pub extern "C" fn tonekit_log2(bits: u64) -> u64
    ensures { result ≡ to_bits binary64 (log2_of (of_bits binary64 bits)) }
{
    tonekit_log::log2(f64::of_bits(bits)).bits()
}

// The bits of the exponential of an f64.
#[unsafe(no_mangle)]
pub extern "C" fn tonekit_exp(bits: u64) -> u64
    ensures { result ≡ to_bits binary64 (exp_of (of_bits binary64 bits)) }
{
    tonekit_log::exp(f64::of_bits(bits)).bits()
}

// The register of a cold query, of so many of its frames: the bits of floor, median and ceiling. No query has more
// than 1,024.
// Stays: the C interface hands slices and places one by one.
#[unsafe(no_mangle)]
pub extern "C" fn tonekit_cold_register(
    frames: &[u8],
    count: u16,
    floor: &mut u32,
    median: &mut u32,
    ceil: &mut u32,
)
    ensures { let r = cold_register (voiced_st frames.now (min count 1024)) in
        (floor.new ≡ to_bits binary32 r.floor) × ((median.new ≡ to_bits binary32 r.median)
        × (ceil.new ≡ to_bits binary32 r.ceil)) }
{
    let register = tonekit_register::cold_register(frames, count.min(1024));
    *floor = register.floor.bits();
    *median = register.median.bits();
    *ceil = register.ceil.bits();
}
