// The pack reader: which bytes are a pack, and the refusal and place of those that are not.
#![tactic(auto)]

ghost use Rattle.std.specs.Prelude.{◌≡◌, ◌≤◌, ℕ, length, get_or};

use tonekit_bytes::places::Offsets;

pub mod format;
mod kind;
mod load;
mod parents;
pub mod read;

pub use kind::{Kind, size_of};
pub use load::{check_pack, load_pack, read_pack};

// What was read of a pack: the kind of the last record, the offsets of tones, accents and rules, how
// many rules stood before each accent, the parts of the last rule, and all parts.
// Stays: how many rules stood before an accent stands beside its offset, not in a pair with it, since the one search by number goes over offsets alone.
#[derive(Clone, Copy)]
pub struct Pack {
    pub last: Option<Kind>,
    pub tones: Offsets<8>,
    pub accents: Offsets<8>,
    pub rules: Offsets<64>,
    pub firstrule: [u8; 8],
    pub parts: usize,
    pub total: usize,
    pub ghost few_parts: { parts ≤ 4 },
    pub ghost few_in_all: { total ≤ 128 },
    pub ghost first_slots: { length firstrule ≡ 8 },
    pub ghost few_before: { (i : ℕ) → get_or firstrule i 0 ≤ 64 },
}

// A pack that was read, beside the bytes that it was read from.
// Stays: beside tonekit_sheet_read's SheetView; to one type over both that crate could give no methods, as the type would not be its own.
#[derive(Clone, Copy)]
pub struct PackView<'a> {
    pub bytes: &'a [u8],
    pub pack: Pack,
}

// What was read at the front of an input, and where it ends.
#[derive(Clone, Copy)]
pub struct Loaded<F> {
    pub held: F,
    pub end: usize,
}
