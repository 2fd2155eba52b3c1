// The query reader: a query's small fields by value, its frames as a part of the caller's bytes.
#![tactic(auto)]

ghost use Rattle.std.specs.Prelude.{◌≡◌, ◌+◌, ◌*◌, ◌≤◌, ◌<◌, length};
ghost use Rattle.std.specs.Float.{binary32};
ghost use Rattle.std.specs.Float.Ieee.{of_bits};
ghost use Rattle.tonekit_core.specs.declared.layout.TheConstants.{FRAME_SIZE, FRAME_HZ, FRAME_VOICED_P};
ghost use Rattle.spec_arithmetic.specs.Fields.{u32_at, f32_at};
ghost use Rattle.spec_query.specs.Query.{variant_fine, variants_fine, record_verdict, frame_verdict, fields_of, cold_at, read_query, load_query, check_query, frames_from, end_of, frames_of, variant_tone, variant_weight};
ghost use Rattle.spec_query.specs.Frames.{pitch, frame_at};
ghost use Rattle.tonekit_query.specs.Parts.{read_frames, voiced_at};

pub use spec_query::{Query, Voiced};
use tonekit_bytes::{byte_at, f32_at, u16_at, u32_at, u32_in};
use tonekit_core::{Refusal, Rejection, layout, limits};
use tonekit_float::AnyFloat;

// Whether variant i is in use, or its five bytes are 0.
#[tactic(auto, unfolding(spec_query::specs::Query::variant_fine))]
fn variant_fine(query: &[u8], i: usize) -> bool
    requires { i < 4 }
    ensures { result ≡ variant_fine query.now i }
{
    if i < usize::from(byte_at(query, 0, layout::QUERY_VARIANT_COUNT)) {
        return true;
    }
    if byte_at(query, layout::VARIANT_TONES, layout::VARIANT_SIZE * i) != 0 {
        return false;
    }
    u32_at(query, layout::VARIANT_WEIGHTS, layout::VARIANT_SIZE * i) == 0
}

// Whether all four are fine.
fn variants_fine(query: &[u8]) -> bool
    ensures { result ≡ variants_fine query.now }
{
    for i in 0..4 {
        if !variant_fine(query, i) {
            return false;
        }
    }
    true
}

// What is said of the fixed record.
#[tactic(auto, unfolding(spec_query::specs::Query::record_verdict))]
fn record_verdict(query: &[u8]) -> Result<(), Refusal>
    ensures { result ≡ record_verdict query.now }
{
    if query.len() == 0 {
        return Err(Refusal::CutShort);
    }
    if byte_at(query, 0, 0) != layout::QUERY_KIND {
        return Err(Refusal::Misplaced);
    }
    if query.len() < layout::QUERY_SIZE {
        return Err(Refusal::CutShort);
    }
    if limits::VARIANTS < byte_at(query, 0, layout::QUERY_VARIANT_COUNT) {
        return Err(Refusal::Crowded);
    }
    if limits::FRAMES < u16_at(query, 0, layout::QUERY_FRAME_COUNT) {
        return Err(Refusal::Crowded);
    }
    if 1 < byte_at(query, 0, layout::QUERY_FINAL) {
        return Err(Refusal::BadQuery);
    }
    if 1024 <= u16_at(query, 0, layout::QUERY_ISSUES) {
        return Err(Refusal::BadQuery);
    }
    if variants_fine(query) {
        Ok(())
    } else {
        Err(Refusal::BadQuery)
    }
}

// What is said of the frame record at an offset.
#[tactic(auto, unfolding(spec_query::specs::Query::frame_verdict))]
fn frame_verdict(query: &[u8], at: usize) -> Result<(), Refusal>
    ensures { result ≡ frame_verdict query.now at }
{
    if query.len() <= at {
        return Err(Refusal::CutShort);
    }
    if query[at] != layout::FRAME_KIND {
        return Err(Refusal::Misplaced);
    }
    if query.len() - at < layout::FRAME_SIZE {
        return Err(Refusal::CutShort);
    }
    if query[at + layout::FRAME_VOICED] <= 1 {
        Ok(())
    } else {
        Err(Refusal::BadQuery)
    }
}

// Whether kind 55 stands behind the fixed record.
fn is_cold(query: &[u8]) -> bool
    ensures { result ≡ cold_at query.now }
{
    byte_at(query, 0, layout::QUERY_SIZE) == layout::COLD_KIND
}

// Where the frames begin.
fn frames_from(cold: bool) -> usize
    ensures { result ≡ frames_from cold }
{
    if cold {
        layout::QUERY_SIZE + layout::COLD_SIZE
    } else {
        layout::QUERY_SIZE
    }
}

// What the fixed record says, and whether kind 55 stands behind it.
#[tactic(auto, unfolding(spec_query::specs::Query::fields_of))]
fn fields(query: &[u8]) -> Query
    ensures { result ≡ fields_of query.now }
{
    Query {
        accent: byte_at(query, 0, layout::QUERY_ACCENT),
        tone: byte_at(query, 0, layout::QUERY_TONE),
        prev: byte_at(query, 0, layout::QUERY_PREV),
        last: byte_at(query, 0, layout::QUERY_FINAL) != 0,
        start: u32_at(query, 0, layout::QUERY_START),
        end: u32_at(query, 0, layout::QUERY_END),
        floor: f32_at(query, 0, layout::QUERY_FLOOR),
        ceil: f32_at(query, 0, layout::QUERY_CEIL),
        issues: u16_at(query, 0, layout::QUERY_ISSUES),
        variants: byte_at(query, 0, layout::QUERY_VARIANT_COUNT),
        count: u16_at(query, 0, layout::QUERY_FRAME_COUNT),
        cold: is_cold(query),
    }
}

// Where so many frames end.
fn frames_end(cold: bool, count: u16) -> usize
    ensures { result ≡ frames_from cold + FRAME_SIZE * count }
{
    frames_from(cold) + layout::FRAME_SIZE * usize::from(count)
}

// The query, where its counted frames are fine; else the first that is not, with its offset.
fn read_frames(query: &[u8], count: u16) -> Result<Query, Rejection>
    ensures { result ≡ read_frames query.now count }
{
    let mut at = frames_from(is_cold(query));
    for _ in 0..count {
        if let Err(why) = frame_verdict(query, at) {
            return Err(why.at(at));
        }
        at += layout::FRAME_SIZE;
    }
    Ok(fields(query))
}

// The query at the front of an input, or why there is none and where.
#[tactic(auto, unfolding(spec_query::specs::Query::read_query))]
pub fn read_query(query: &[u8]) -> Result<Query, Rejection>
    ensures { result ≡ read_query query.now }
{
    record_verdict(query).map_err(|r| r.at(0))?;
    read_frames(query, u16_at(query, 0, layout::QUERY_FRAME_COUNT))
}

// Where a query ends.
fn end_of(q: Query) -> usize
    ensures { result ≡ end_of q }
{
    frames_end(q.cold, q.count)
}

// The query that an input is as a whole; bytes behind it are refused.
#[tactic(auto, unfolding(spec_query::specs::Query::load_query))]
pub fn load_query(query: &[u8]) -> Result<Query, Rejection>
    ensures { result ≡ load_query query.now }
{
    let q = read_query(query)?;
    let end = end_of(q);
    if end < query.len() {
        return Err(Refusal::Overrun.at(end));
    }
    Ok(q)
}

// Nothing against an input that is a query, else why it is none and where.
#[tactic(auto, unfolding(spec_query::specs::Query::check_query))]
pub fn check_query(query: &[u8]) -> Result<(), Rejection>
    ensures { result ≡ check_query query.now }
{
    load_query(query)?;
    Ok(())
}

// The part of a query's bytes that holds its frames; of a shorter input what is there.
#[tactic(auto, using(crate::proofs::Parts::cut))]
pub fn frames(query: &[u8], q: Query) -> &[u8]
    ensures { result.now ≡ frames_of query.now q }
{
    let from = frames_from(q.cold).min(query.len());
    let to = end_of(q).min(query.len());
    &query[from..to]
}

// Whether the bits of an hz are a pitch's: those above 0 and below infinity's.
#[tactic(auto, using(crate::proofs::Pitch::low_pitch, crate::proofs::Pitch::high_pitch, crate::proofs::Pitch::no_pitch))]
fn bits_pitch(b: u32) -> bool
    ensures { result ≡ pitch (of_bits binary32 b) }
{
    0 < b && b < 0x7f80_0000
}

// Whether the frame at an index is voiced, where its ten bytes are there.
fn whole_voiced(frames: &[u8], at: usize) -> bool
    requires { at + FRAME_SIZE ≤ length frames.now }
    ensures { result ≡ voiced_at frames.now at }
{
    if frames[at + layout::FRAME_VOICED] != 1 {
        return false;
    }
    bits_pitch(u32_in(frames, at + layout::FRAME_HZ))
}

// Whether the first frame of bytes that may end within it is voiced.
fn cut_voiced(frame: &[u8]) -> bool
    ensures { result ≡ voiced_at frame.now 0 }
{
    byte_at(frame, 0, layout::FRAME_VOICED) == 1 && bits_pitch(u32_at(frame, 0, layout::FRAME_HZ))
}

// Whether frame i is voiced: its flag is 1 and its hz a pitch. Past the end none is.
// Inlined, as those that ask it are, so that a pass over the frames divides by a frame's size once and not at each frame: a controller has no
// divider, and judges 1,024 frames in 616 ms for 680.
// Stays: whole and cut frames are read apart. Read alike, with a test of the end at each byte, a query of 1,024 frames took 471,279 instructions to
// judge with a pack of 5 tones, 1.02 of the Rust's, which misses the budget (docs/DECISIONS.md).
#[inline(always)]
#[tactic(auto, using(crate::proofs::Steps::voiced_part, crate::proofs::Steps::unvoiced_past))]
pub fn is_voiced(frames: &[u8], i: usize) -> bool
    ensures { result ≡ voiced_at frames.now (FRAME_SIZE * i) }
{
    let whole = frames.len() / layout::FRAME_SIZE;
    if i < whole {
        return whole_voiced(frames, layout::FRAME_SIZE * i);
    }
    if whole < i {
        return false;
    }
    let at = layout::FRAME_SIZE * i;
    cut_voiced(&frames[at..])
}

// The float k bytes into frame i, bytes past the end read as 0.
// Stays: see `is_voiced`.
#[tactic(auto, using(crate::proofs::Steps::f32_part, crate::proofs::Steps::f32_past))]
fn field(frames: &[u8], i: usize, k: usize) -> f32
    requires { k ≤ FRAME_VOICED_P }
    ensures { result ≡ f32_at frames.now (FRAME_SIZE * i + k) }
{
    let whole = frames.len() / layout::FRAME_SIZE;
    if i < whole {
        return f32::of_bits(u32_in(frames, layout::FRAME_SIZE * i + k));
    }
    if whole < i {
        return f32::of_bits(0);
    }
    let at = layout::FRAME_SIZE * i;
    f32_at(&frames[at..], 0, k)
}

// The hz of frame i, whatever its flag.
pub fn frame_hz(frames: &[u8], i: usize) -> f32
    ensures { result ≡ f32_at frames.now (FRAME_SIZE * i + FRAME_HZ) }
{
    field(frames, i, layout::FRAME_HZ)
}

// The voiced_p of frame i, whatever its flag.
pub fn frame_p(frames: &[u8], i: usize) -> f32
    ensures { result ≡ f32_at frames.now (FRAME_SIZE * i + FRAME_VOICED_P) }
{
    field(frames, i, layout::FRAME_VOICED_P)
}

// What frame i says, where it is voiced.
#[tactic(auto, unfolding(spec_query::specs::Frames::frame_at))]
pub fn read_frame(frames: &[u8], i: usize) -> Option<Voiced>
    ensures { result ≡ frame_at frames.now i }
{
    if is_voiced(frames, i) {
        Some(Voiced {
            hz: frame_hz(frames, i),
            voiced_p: frame_p(frames, i),
        })
    } else {
        None
    }
}

// The tone of variant i of a query, one of its four places.
pub fn variant_tone(query: &[u8], i: usize) -> u8
    requires { i < 4 }
    ensures { result ≡ variant_tone query.now i }
{
    byte_at(query, layout::VARIANT_TONES, layout::VARIANT_SIZE * i)
}

// The weight of variant i of a query, one of its four places.
pub fn variant_weight(query: &[u8], i: usize) -> f32
    requires { i < 4 }
    ensures { result ≡ variant_weight query.now i }
{
    f32_at(query, layout::VARIANT_WEIGHTS, layout::VARIANT_SIZE * i)
}
