// The calls that read a pack.
ghost use Rattle.std.specs.Prelude.{◌≡◌};
ghost use Rattle.spec_pack.specs.Pack.{read_pack, load_pack, check_pack};
ghost use Rattle.tonekit_pack.specs.Held.{answered};

use crate::{Loaded, Pack, format};
use tonekit_core::Rejection;

// The pack at the front of a longer input and where it ends, or its refusal and place.
// Stays: beside `format::read`, since its contract is the definition `read_pack`, of which `load_pack` of the demands is made.
pub fn read_pack(pack: &[u8]) -> Result<Loaded<Pack>, Rejection>
    ensures { answered result ≡ read_pack pack.now }
{
    format::read(pack)
}

// The pack that an input is as a whole: what read_pack answers, and Overrun at the first byte behind it.
// Stays: the name by which the inventory and the sheet writer call `format::load`, with the definition `load_pack` as its contract.
#[tactic(auto, using(crate::proofs::Reading::alone_is), unfolding(spec_pack::specs::Pack::load_pack))]
pub fn load_pack(pack: &[u8]) -> Result<Loaded<Pack>, Rejection>
    ensures { answered result ≡ load_pack pack.now }
{
    format::load(pack)
}

// Nothing against an input that loads as one pack, else its refusal and place.
// Stays: the name by which the C interface and the programs call `format::check`, with the definition `check_pack` as its contract.
#[tactic(auto, using(crate::proofs::Reading::told_is), unfolding(spec_pack::specs::Pack::check_pack))]
pub fn check_pack(pack: &[u8]) -> Result<(), Rejection>
    ensures { result ≡ check_pack pack.now }
{
    format::check::<Pack>(pack)
}
