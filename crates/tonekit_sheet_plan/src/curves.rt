// The curves that a lookup gave, beside the bytes that they stand in: their mark, and whether others are the same.
ghost use Rattle.std.specs.Prelude.{◌≡◌, ◌<◌, map, length};
ghost use Rattle.std.specs.Float.{binary32};
ghost use Rattle.std.specs.Float.Ieee.{to_bits};
ghost use Rattle.tonekit_core.specs.Loop.{fold};
ghost use Rattle.spec_lookup.specs.Lookup.{component_of};
ghost use Rattle.spec_lookup.specs.Source.{carried};
ghost use Rattle.tonekit_sheet.specs.Marks.{mixed};
ghost use Rattle.spec_sheet.specs.Number.{same_carried, same};
ghost use Rattle.tonekit_sheet_plan.specs.Listings.{carried_by, record_of, Kept};
ghost use Rattle.tonekit_sheet_plan.specs.Marks.{component_mark, mark_of};
ghost use Rattle.tonekit_sheet.specs.Parts.{same_numbers};

use tonekit_core::layout;
use tonekit_expect::{Component, Listing, component_at};
use tonekit_float::AnyFloat;
use tonekit_sheet::mix;

// The curves of a listing that is found again from its record, and whose components can be read.
#[derive(Clone, Copy)]
pub struct Curves<'a> {
    pub bytes: &'a [u8],
    pub listing: Listing,
    pub ghost kept: { Kept bytes.now listing },
}

// A mark so far, and ten points.
fn mark_points(m: u32, points: &[f32; 10]) -> u32
    requires { length points.now ≡ 10 }
    ensures { result ≡ fold mixed m (map (to_bits binary32) points.now) }
{
    let mut mark = m;
    for x in points {
        mark = mix(mark, x.bits());
    }
    mark
}

// Ten points, bit for bit.
// Stays: == on floats takes zeros of both signs for equal, and lists are equal in every bit.
fn same_points(a: &[f32; 10], b: &[f32; 10]) -> bool
    requires { (length a.now ≡ 10) × (length b.now ≡ 10) }
    ensures { result ≡ same_numbers (map (to_bits binary32) a.now)
        (map (to_bits binary32) b.now) }
{
    for (x, y) in a.iter().zip(b) {
        if x.bits() != y.bits() {
            return false;
        }
    }
    true
}

impl Curves<'_> {
    // The record that they stand in.
    pub fn record(self) -> u16
        ensures { result ≡ record_of self.entry.listing }
    {
        if self.listing.name.form == layout::CITATION_FORM {
            self.listing.at as u16
        } else {
            (self.listing.at - layout::RULE_SIZE) as u16
        }
    }

    // Component j.
    pub fn component(self, j: usize) -> Component
        requires { j < self.listing.count }
        ensures { result ≡ component_of self.entry.bytes.now self.entry.listing j }
    {
        component_at(self.bytes, self.listing, j)
    }

    // A mark so far, and weight and points of component j.
    fn mark_component(self, j: usize, m: u32) -> u32
        requires { j < self.listing.count }
        ensures { result ≡ component_mark m (carried (component_of self.entry.bytes.now self.entry.listing j)) }
    {
        let c = self.component(j);
        let weighed = mix(m, c.weight.bits());
        mark_points(weighed, &c.points)
    }

    // A mark, by which most lists are told apart before curves are compared.
    pub fn mark(self) -> u8
        ensures { result ≡ mark_of (carried_by self.entry.bytes.now self.entry.listing) }
    {
        let mut m: u32 = 0;
        for j in 0..self.listing.count {
            m = self.mark_component(j, m);
        }
        ((m % 256 + m / 256 % 256 + m / 65536 % 256) % 256) as u8
    }

    // Whether component j of both is the same: names first, before a curve is drawn.
    // Stays: == on components takes floats of both zeros for equal, and would draw both curves before it compares the names.
    fn same_component(self, other: Curves<'_>, j: usize) -> bool
        requires { (j < self.listing.count) × (j < other.listing.count) }
        ensures { result ≡ same_carried (carried (component_of self.entry.bytes.now self.entry.listing j))
            (carried (component_of other.entry.bytes.now other.entry.listing j)) }
    {
        if self.listing.name != other.listing.name {
            return false;
        }
        let x = self.component(j);
        let y = other.component(j);
        if x.weight.bits() != y.weight.bits() {
            return false;
        }
        same_points(&x.points, &y.points)
    }

    // Whether both carry the same, in every bit. No points outlive a comparison.
    pub fn same(self, other: Curves<'_>) -> bool
        ensures { result ≡ same (carried_by self.entry.bytes.now self.entry.listing)
            (carried_by other.entry.bytes.now other.entry.listing) }
    {
        if self.listing.count != other.listing.count {
            return false;
        }
        for j in 0..self.listing.count {
            if !self.same_component(other, j) {
                return false;
            }
        }
        true
    }
}
