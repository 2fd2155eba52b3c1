// The places of records in a list of bytes, and the search among them by number.
ghost use Rattle.std.specs.Prelude.{◌≡◌, ◌≤◌, ◌<◌, ◌+◌, ◌-◌, ◌*◌, length, get_or, replicate, [], ◌∷◌, ◌++◌};
ghost use Rattle.spec_arithmetic.specs.Places.{index_of};
ghost use Rattle.tonekit_bytes.specs.Places.{in_order, stepped};

use crate::byte_at;
use tonekit_core::layout;

// The offsets of records, at most N, in order: the first count of an array.
// Stays: not the kit's ArrayVec, which is no Copy value; a Pack and a Sheet are copied into views.
#[derive(Clone, Copy)]
pub struct Offsets<const N: usize> {
    pub at: [u16; N],
    pub count: usize,
    pub ghost few: { count ≤ N },
    pub ghost slots: { length at ≡ N },
}

impl<const N: usize> Offsets<N> {
    // None yet.
    #[tactic(auto, unfolding(crate::specs::Places::in_order))]
    pub fn none() -> Offsets<N>
        ensures empty { in_order result.at result.count ≡ [] }
        ensures count { result.count ≡ 0 }
        ensures zero { result.at ≡ replicate N 0 }
    {
        Offsets {
            at: [0; N],
            count: 0,
        }
    }

    // Those counted.
    #[tactic(auto, using(crate::proofs::InOrder::order_take))]
    pub fn offsets(&self) -> &[u16]
        ensures { result.now ≡ in_order self.now.at self.now.count }
    {
        &self.at[..self.count]
    }

    // How many.
    pub fn len(&self) -> usize
        ensures { result ≡ length (in_order self.now.at self.now.count) }
    {
        self.offsets().len()
    }

    // The last one, 0 where there is none.
    #[tactic(auto, using(crate::proofs::InOrder::last_none, crate::proofs::InOrder::last_read))]
    pub fn last(&self) -> usize
        ensures { result ≡ get_or (in_order self.now.at self.now.count) (length (in_order self.now.at self.now.count) - 1) 0 }
    {
        match self.offsets().last() {
            Some(o) => usize::from(*o),
            None => 0,
        }
    }

    // One more.
    #[tactic(auto, using(crate::proofs::InOrder::order_set))]
    pub fn add(&mut self, o: u16)
        requires { self.old.count < N }
        ensures entries { in_order self.new.at self.new.count ≡ in_order self.old.at self.old.count ++ (o ∷ []) }
        ensures count { self.new.count ≡ self.old.count + 1 }
    {
        self.at[self.count] = o;
        self.count += 1;
    }
}

// The place of the first record with number n among the records at these offsets, or none.
// Stays: beside index_from, whose records are of one size and stand one behind the other, so that no offsets are held of them.
pub fn index_of(s: &[u8], at: &[u16], n: u8) -> Option<usize>
    ensures { result ≡ index_of s.now at.now n }
{
    for (i, o) in at.iter().enumerate() {
        if byte_at(s, usize::from(*o), layout::OWN_NUMBER) == n {
            return Some(i);
        }
    }
    None
}

// The place of the first record with number n among `count` from an offset on, each `step` bytes
// behind the one before, or none.
pub fn index_from(s: &[u8], o: usize, step: usize, count: usize, n: u8) -> Option<usize>
    requires { o + step * count < 4294967296 }
    ensures { result ≡ index_of s.now (stepped o step count) n }
{
    for i in 0..count {
        if byte_at(s, o + step * i, layout::OWN_NUMBER) == n {
            return Some(i);
        }
    }
    None
}
