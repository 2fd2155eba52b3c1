// The sheet reader: which bytes are a sheet, and the refusal and place of those that are not.
#![tactic(auto)]

ghost use Rattle.std.specs.Prelude.{◌≡◌, ◌≤◌};

mod load;
mod order;
mod read;

pub use load::{check_sheet, load_sheet, read_sheet};
use tonekit_bytes::places::Offsets;
use tonekit_sheet::Kind;

// What was read of a sheet: the last kind, how many of each, and the offsets of the lists. Tones,
// each with its tail, accents and rows stand one behind the other after the settings. The counts keep the format's limits.
#[derive(Clone, Copy)]
pub struct Sheet {
    pub last: Option<Kind>,
    pub tones: usize,
    pub accents: usize,
    pub rows: usize,
    pub lists: Offsets<128>,
    pub due: usize,
    pub total: usize,
    pub ghost few_tones: { tones ≤ 8 },
    pub ghost few_accents: { accents ≤ 8 },
    pub ghost few_rows: { rows ≤ 576 },
    pub ghost few_due: { due ≤ 4 },
    pub ghost few_in_all: { total ≤ 192 },
}

// A sheet that was read, beside the bytes that it was read from.
// Stays: beside tonekit_pack's PackView; of one type over both this crate could give no methods, as the type would not be its own.
#[derive(Clone, Copy)]
pub struct SheetView<'a> {
    pub bytes: &'a [u8],
    pub sheet: Sheet,
}
