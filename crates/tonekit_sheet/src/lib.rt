// The sheet: document 01's definitions of its bytes and of its reader (specs), and what reader and
// writer share.
#![tactic(auto)]

ghost use Rattle.std.specs.Prelude.{◌≡◌, ◌≤◌};
ghost use Rattle.spec_sheet.specs.Sheet.{row_count};
ghost use Rattle.spec_sheet.specs.Reader.{size_of};
ghost use Rattle.tonekit_sheet.specs.Kinds.{number, kind_of};
ghost use Rattle.tonekit_sheet.specs.Marks.{mixed};

use tonekit_core::{Refusal, layout};

// The kinds of a sheet's records.
// Stays: beside tonekit_pack's, since a pack has other kinds by other numbers, and each match names those of one format.
#[derive(Clone, Copy, Debug, PartialEq, Eq)]
pub enum Kind {
    Settings,
    Tone,
    Accent,
    Row,
    List,
    Component,
    End,
    Tail,
}

// The kind that has this number; a record that begins with another byte is misplaced.
impl TryFrom<u8> for Kind {
    type Error = Refusal;

    ghost try_from_gives = { λ n r. r ≡ kind_of n };

    fn try_from(n: u8) -> Result<Kind, Refusal> {
        match n {
            layout::SHEET_SETTINGS_KIND => Ok(Kind::Settings),
            layout::SHEET_TONE_KIND => Ok(Kind::Tone),
            layout::SHEET_TAIL_KIND => Ok(Kind::Tail),
            layout::SHEET_ACCENT_KIND => Ok(Kind::Accent),
            layout::SHEET_ROW_KIND => Ok(Kind::Row),
            layout::SHEET_LIST_KIND => Ok(Kind::List),
            layout::SHEET_COMPONENT_KIND => Ok(Kind::Component),
            layout::SHEET_END_KIND => Ok(Kind::End),
            _ => Err(Refusal::Misplaced),
        }
    }
}

impl Kind {
    // The bytes of a record of this kind, its kind among them.
    // Stays: beside tonekit_pack's; each lists the sizes of its own kinds.
    #[tactic(auto, unfolding(spec_sheet::specs::Reader::size_of))]
    pub fn size(self) -> usize
        ensures { result ≡ size_of (number self) }
    {
        match self {
            Kind::Settings => layout::SETTINGS_SIZE,
            Kind::Tone => layout::SHEET_TONE_SIZE,
            Kind::Tail => layout::TAIL_SIZE,
            Kind::Accent => layout::SHEET_ACCENT_SIZE,
            Kind::Row => layout::SHEET_ROW_SIZE,
            Kind::List => layout::SHEET_LIST_SIZE,
            Kind::Component => layout::SHEET_COMPONENT_SIZE,
            Kind::End => layout::SHEET_END_SIZE,
        }
    }
}

// The bytes of a record that begins with a byte; where that is no kind, an End's.
// Stays: beside tonekit_pack's, as `Kind::size`; k is any byte, since it promises the size of those that are no kind too.
#[tactic(auto, using(crate::proofs::ByKind::kind_number, crate::proofs::ByKind::no_kind_size), unfolding(spec_sheet::specs::Reader::size_of))]
pub fn size_of(k: u8) -> usize
    ensures { result ≡ size_of k }
{
    match Kind::try_from(k) {
        Ok(k) => k.size(),
        Err(_) => layout::SHEET_END_SIZE,
    }
}

// How many rows a sheet has: one for each accent, tone, and tone or none before it.
#[tactic(auto, using(crate::proofs::RowPlaces::each_few, crate::proofs::RowPlaces::rows_few))]
pub fn row_count(accents: usize, tones: usize) -> usize
    requires { (accents ≤ 8) × (tones ≤ 8) }
    ensures { (result ≡ row_count accents tones) × (result ≤ 576) }
{
    accents * (tones * (tones + 1))
}

// A list's mark so far, and one more number of what the list carries.
pub fn mix(m: u32, b: u32) -> u32
    ensures { result ≡ mixed m b }
{
    m % 16777216 * 33 + b / 256 + b % 256
}
