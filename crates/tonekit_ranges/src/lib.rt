// Tests of the ranges of document 01's fields, on a record's bytes.
#![tactic(auto)]

ghost use Rattle.std.specs.Prelude.{◌≡◌, ◌<◌};
ghost use Rattle.spec_pack.specs.Ranges.{above_zero, probability_fine, weight_fine, slot_fine, knots_fine, region_fine, tail_fine, tails_fine, tolerances_fine};
ghost use Rattle.tonekit_ranges.specs.Sizes.{within};

use tonekit_bytes::{byte_at, f32_at, u32_at};
use tonekit_core::layout;
use tonekit_float::is_finite;

// Finite and above 0.
#[tactic(auto, using(crate::proofs::Bounds::above_bits))]
pub fn above_zero(x: f32) -> bool
    ensures { result ≡ above_zero x }
{
    (x > 0.0) & (x < f32::INFINITY)
}

// Above 0, at most 1.
#[tactic(auto, unfolding(spec_pack::specs::Ranges::probability_fine))]
pub fn probability_fine(x: f32) -> bool
    ensures { result ≡ probability_fine x }
{
    (x > 0.0) & (x <= 1.0)
}

// Of size at most `most`.
#[tactic(auto, unfolding(crate::specs::Sizes::within))]
pub fn within(x: f32, most: f32) -> bool
    ensures { result ≡ within x most }
{
    (-most <= x) & (x <= most)
}

// The bits of a finite weight whose sign is clear.
#[tactic(auto, unfolding(spec_pack::specs::Ranges::weight_fine))]
pub fn weight_fine(bits: u32) -> bool
    ensures { result ≡ weight_fine bits }
{
    bits < 0x7f80_0000
}

// Slot k from o on: a knot, or zero bytes past the first n.
#[tactic(auto, using(crate::proofs::Bounds::knot_within), unfolding(spec_pack::specs::Ranges::slot_fine))]
fn slot_fine(s: &[u8], o: usize, n: u8, k: usize) -> bool
    requires { k < 10 }
    ensures { result ≡ slot_fine s.now o n k }
{
    if k < usize::from(n) {
        return within(f32_at(s, o, layout::F32_SIZE * k), 100.0);
    }
    u32_at(s, o, layout::F32_SIZE * k) == 0
}

// Ten slots from o on, of which the first n are knots.
#[tactic(auto, using(tonekit_core::proofs::LoopLaws::again, tonekit_core::proofs::LoopLaws::ended), unfolding(spec_pack::specs::Ranges::knots_fine))]
pub fn knots_fine(s: &[u8], o: usize, n: u8) -> bool
    ensures { result ≡ knots_fine s.now o n }
{
    let mut ok = true;
    for k in 0..10 {
        ok = ok & slot_fine(s, o, n, k);
    }
    ok
}

// A region: its flag at o, from and to behind it.
#[tactic(auto, unfolding(spec_pack::specs::Ranges::region_fine))]
pub fn region_fine(s: &[u8], o: usize) -> bool
    ensures { result ≡ region_fine s.now o }
{
    let flag = byte_at(s, o, 0);
    if flag == 0 {
        return (u32_at(s, o, layout::REGION_FROM) == 0) & (u32_at(s, o, layout::REGION_TO) == 0);
    }
    let from = f32_at(s, o, layout::REGION_FROM);
    let to = f32_at(s, o, layout::REGION_TO);
    (flag == 1) & (is_finite(from) & (is_finite(to) & (from <= to)))
}

// A tail's value: of size at most 50.
#[tactic(auto, using(crate::proofs::Bounds::tail_within))]
fn tail_fine(x: f32) -> bool
    ensures { result ≡ tail_fine x }
{
    within(x, 50.0)
}

// Both values of the tail at o.
#[tactic(auto, unfolding(spec_pack::specs::Ranges::tails_fine))]
pub fn tails_fine(s: &[u8], o: usize) -> bool
    ensures { result ≡ tails_fine s.now o }
{
    tail_fine(f32_at(s, o, layout::TAIL_FINAL)) & tail_fine(f32_at(s, o, layout::TAIL_ELSEWHERE))
}

// The four tolerances from o on.
#[tactic(auto, unfolding(spec_pack::specs::Ranges::tolerances_fine))]
pub fn tolerances_fine(s: &[u8], o: usize) -> bool
    ensures { result ≡ tolerances_fine s.now o }
{
    let contour = f32_at(s, o, 0);
    let onset = f32_at(s, o, layout::TOLERANCE_ONSET);
    let offset = f32_at(s, o, layout::TOLERANCE_OFFSET);
    let turning = f32_at(s, o, layout::TOLERANCE_TURNING);
    above_zero(contour) & (above_zero(onset) & (above_zero(offset) & above_zero(turning)))
}
