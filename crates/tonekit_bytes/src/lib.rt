// Little-endian fields in lent bytes: read at any index, written at an index, and whole records
// written to the front of a lent buffer.
#![tactic(auto)]

ghost use Rattle.std.specs.Prelude.{◌≡◌, [], ◌∷◌, ◌+◌, ◌-◌, ◌*◌, ◌≤◌, ◌<◌, length};
ghost use Rattle.std.proofs.lemmas.List.Edits.{sets};
ghost use Rattle.tonekit_core.specs.Calls.{Delivers, written};
ghost use Rattle.spec_arithmetic.specs.Fields.{byte_at, u16_at, u32_at, f32_at, le16, le32, f32_bytes, f32s_bytes};

use tonekit_core::{Refusal, Rejection};
use tonekit_float::AnyFloat;

pub mod places;

// How many of len bytes stand from index o + k on, 0 past the end. No sum is formed that could wrap.
fn bytes_from(len: usize, o: usize, k: usize) -> usize
    ensures { result ≡ len - (o + k) }
{
    len.saturating_sub(o).saturating_sub(k)
}

// The byte at index o + k, 0 past the end. The sum is formed here, where it cannot wrap.
// Stays: sheet_text holds bytes and a place in one struct, `Record`, since it asks many fields of each record; callers here step the place alone, so they would build the struct anew at each call.
pub fn byte_at(s: &[u8], o: usize, k: usize) -> u8
    ensures { result ≡ byte_at s.now (o + k) }
{
    if 1 <= bytes_from(s.len(), o, k) {
        s[o + k]
    } else {
        0
    }
}

// The u16 at index o + k, bytes past the end read as 0.
// Stays: this, u32_in and u32_at share no reader of N bytes: past the end it has to give 0, so it would be a loop over N with an invariant, longer than the three bodies.
pub fn u16_at(s: &[u8], o: usize, k: usize) -> u16
    ensures { result ≡ u16_at s.now (o + k) }
{
    if 2 <= bytes_from(s.len(), o, k) {
        let at = o + k;
        u16::from_le_bytes([s[at], s[at + 1]])
    } else {
        u16::from(byte_at(s, o, k))
    }
}

// The u32 at an index, where its four bytes are there.
pub fn u32_in(s: &[u8], at: usize) -> u32
    requires { at + 4 ≤ length s.now }
    ensures { result ≡ u32_at s.now at }
{
    u32::from_le_bytes([s[at], s[at + 1], s[at + 2], s[at + 3]])
}

// The u32 at index o + k, bytes past the end read as 0.
pub fn u32_at(s: &[u8], o: usize, k: usize) -> u32
    ensures { result ≡ u32_at s.now (o + k) }
{
    match bytes_from(s.len(), o, k) {
        n if 4 <= n => u32_in(s, o + k),
        0 => 0,
        _ => u32::from_le_bytes([s[o + k], byte_at(s, o + k, 1), byte_at(s, o + k, 2), 0]),
    }
}

// The float at index o + k, bytes past the end read as 0.
pub fn f32_at(s: &[u8], o: usize, k: usize) -> f32
    ensures { result ≡ f32_at s.now (o + k) }
{
    f32::of_bits(u32_at(s, o, k))
}

// Writes a byte at an index; its place is there (as for each put below, the caller has seen to it).
pub fn put_u8(out: &mut [u8], at: usize, v: u8)
    requires { at + 1 ≤ length out.old }
    ensures { out.new ≡ sets out.old at (v ∷ []) }
{
    out[at] = v;
}

// Writes a u16 at an index.
// Stays: this and put_u32 are one line each over `put_bytes`, put_f32 one over put_u32; std has no trait of `to_le_bytes` by which one function could take
// either width.
pub fn put_u16(out: &mut [u8], at: usize, v: u16)
    requires { at + 2 ≤ length out.old }
    ensures { out.new ≡ sets out.old at (le16 v) }
{
    put_bytes(out, at, &u16::to_le_bytes(v));
}

// Writes a u32 at an index.
// Stays: as put_u16.
pub fn put_u32(out: &mut [u8], at: usize, v: u32)
    requires { at + 4 ≤ length out.old }
    ensures { out.new ≡ sets out.old at (le32 v) }
{
    put_bytes(out, at, &u32::to_le_bytes(v));
}

// Writes a float's bits at an index; a NaN is written 0x7FC00000.
// Stays: as put_u16.
pub fn put_f32(out: &mut [u8], at: usize, x: f32)
    requires { at + 4 ≤ length out.old }
    ensures { out.new ≡ sets out.old at (f32_bytes x) }
{
    put_u32(out, at, x.bits());
}

// Writes floats one after the other from an index on.
#[tactic(auto, using(crate::proofs::Write::f32s_step), unfolding(spec_arithmetic::specs::Fields::f32s_bytes))]
pub fn put_f32s(out: &mut [u8], at: usize, xs: &[f32])
    requires { at + 4 * length xs.now ≤ length out.old }
    ensures { out.new ≡ sets out.old at (f32s_bytes xs.now) }
{
    for (i, x) in xs.iter().enumerate() {
        put_f32(out, at + 4 * i, *x);
    }
}

// Copies a run of bytes to an index.
#[tactic(auto, using(crate::proofs::Write::copied))]
pub fn put_bytes(out: &mut [u8], at: usize, src: &[u8])
    requires { at + length src.now ≤ length out.old }
    ensures { out.new ≡ sets out.old at src.now }
{
    out[at..at + src.len()].copy_from_slice(src);
}

// Writes a record to the front of a lent buffer, or refuses with the length it needs and leaves
// the buffer as it was.
pub fn write_record(out: &mut [u8], bytes: &[u8]) -> Result<usize, Rejection>
    ensures { Delivers (written bytes.now) out.old result out.new }
{
    if out.len() < bytes.len() {
        return Err(Refusal::ShortBuffer.at(bytes.len()));
    }
    put_bytes(out, 0, bytes);
    Ok(bytes.len())
}
