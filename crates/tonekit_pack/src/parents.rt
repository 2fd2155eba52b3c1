// The parents of a pack's accents: the place of each, and what is said of them all once the End is read.
ghost use Rattle.std.specs.Prelude.{◌≡◌, ◌<◌, ℕ, true, length, is_some, IfSome};
ghost use Rattle.spec_pack.specs.Pack.{parents_held, parent_of, chain_ends, chains_end, end_verdict};
ghost use Rattle.tonekit_pack.specs.Held.{records_of, PlacesOfParents};

use crate::Pack;
use tonekit_bytes::byte_at;
use tonekit_bytes::places::index_of;
use tonekit_core::{Refusal, layout};

impl Pack {
    // The place of accent i's parent, or none.
    pub fn parent_index(&self, s: &[u8], i: usize) -> Option<usize>
        requires { i < self.now.accents.count }
        ensures { result ≡ parent_of s.now (records_of self.now) i }
    {
        let o = usize::from(self.accents.at[i]);
        let parent = byte_at(s, o, layout::ACCENT_PARENT);
        index_of(s, self.accents.offsets(), parent)
    }

    // That of each accent's, unless one names an accent that is not there. The search for 0 is the same for each that names it.
    fn parents(&self, s: &[u8]) -> Option<[Option<usize>; 8]>
        ensures held { is_some result ≡ parents_held s.now (records_of self.now).accents (records_of self.now).accents }
        ensures places { IfSome result (λ up. PlacesOfParents s.now self.now up) }
    {
        let accents = self.accents.offsets();
        let of_zero = index_of(s, accents, 0);
        let mut up = [None; 8];
        for i in 0..self.accents.count {
            let o = usize::from(self.accents.at[i]);
            let parent = byte_at(s, o, layout::ACCENT_PARENT);
            if parent == 0 {
                up[i] = of_zero;
            } else {
                up[i] = Some(index_of(s, accents, parent)?);
            }
        }
        Some(up)
    }

    // Whether the chain from accent i up its parents ends, where those of the accents before it do: if it does, it has no more
    // accents than there are, and it does if it comes to one of those before.
    fn chain_ends(&self, s: &[u8], up: &[Option<usize>; 8], i: usize) -> bool
        requires { (i < self.now.accents.count) × PlacesOfParents s.now self.now up.now
            × ((j : ℕ) → j < i → chain_ends s.now (records_of self.now) (length (records_of self.now).accents) j ≡ true) }
        ensures { result ≡ chain_ends s.now (records_of self.now) (length (records_of self.now).accents) i }
    {
        let mut a = i;
        for _ in 0..self.accents.count {
            let Some(parent) = up[a] else {
                return true;
            };
            if parent < i {
                return true;
            }
            a = parent;
        }
        false
    }

    // Whether all of them do.
    fn chains_end(&self, s: &[u8], up: &[Option<usize>; 8]) -> bool
        requires { PlacesOfParents s.now self.now up.now }
        ensures { result ≡ chains_end s.now (records_of self.now) (length (records_of self.now).accents) 0 }
    {
        for start in 0..self.accents.count {
            if !self.chain_ends(s, up, start) {
                return false;
            }
        }
        true
    }

    // What is said of a pack that is read up to its End: of each parent, then of their chains.
    #[tactic(auto, unfolding(spec_pack::specs::Pack::end_verdict))]
    pub fn end_verdict(&self, s: &[u8]) -> Result<(), Refusal>
        ensures { result ≡ end_verdict s.now (records_of self.now) }
    {
        let Some(up) = self.parents(s) else {
            return Err(Refusal::Loose);
        };
        if !self.chains_end(s, &up) {
            return Err(Refusal::EndlessChain);
        }
        Ok(())
    }
}
