// The kinds of a pack's records: their numbers, which may follow which, and how long each is.
ghost use Rattle.std.specs.Prelude.{◌≡◌};
ghost use Rattle.spec_pack.specs.Pack.{due_after, size_of};
ghost use Rattle.tonekit_pack.specs.Kinds.{number, kind_of, last_of};

use tonekit_core::{Refusal, layout};

// What a record is of.
// Stays: beside tonekit_sheet's Kind, since a sheet has other kinds by other numbers, and each match names those of one format.
#[derive(Clone, Copy, Debug, PartialEq, Eq)]
pub enum Kind {
    Settings,
    Tone,
    Accent,
    Rule,
    Part,
    End,
    Tail,
}

// The kind of a record that begins with a byte; no record of a pack begins with another.
impl TryFrom<u8> for Kind {
    type Error = Refusal;

    ghost try_from_gives = { λ n r. r ≡ kind_of n };

    fn try_from(n: u8) -> Result<Kind, Refusal> {
        match n {
            layout::SETTINGS_KIND => Ok(Kind::Settings),
            layout::TONE_KIND => Ok(Kind::Tone),
            layout::TAIL_KIND => Ok(Kind::Tail),
            layout::ACCENT_KIND => Ok(Kind::Accent),
            layout::RULE_KIND => Ok(Kind::Rule),
            layout::PART_KIND => Ok(Kind::Part),
            layout::END_KIND => Ok(Kind::End),
            _ => Err(Refusal::Misplaced),
        }
    }
}

impl Kind {
    // Whether a record of this kind may follow one of kind `last`, or begin a pack.
    #[tactic(auto, unfolding(spec_pack::specs::Pack::due_after))]
    pub fn due(self, last: Option<Kind>) -> bool
        ensures { result ≡ due_after (last_of last) (number self) }
    {
        match self {
            Kind::Settings => last.is_none(),
            Kind::Tone => matches!(last, Some(Kind::Settings | Kind::Tone | Kind::Tail)),
            Kind::Tail => matches!(last, Some(Kind::Tone)),
            Kind::Accent => {
                matches!(
                    last,
                    Some(Kind::Tone | Kind::Tail | Kind::Accent | Kind::Part)
                )
            }
            Kind::Part => matches!(last, Some(Kind::Rule | Kind::Part)),
            Kind::Rule | Kind::End => matches!(last, Some(Kind::Accent | Kind::Part)),
        }
    }

    // The bytes of a record of this kind, its kind among them.
    // Stays: beside tonekit_sheet's; each lists the sizes of its own kinds.
    #[tactic(auto, unfolding(spec_pack::specs::Pack::size_of))]
    pub fn size(self) -> usize
        ensures { result ≡ size_of (number self) }
    {
        match self {
            Kind::Settings => layout::SETTINGS_SIZE,
            Kind::Tone => layout::TONE_SIZE,
            Kind::Tail => layout::TAIL_SIZE,
            Kind::Accent => layout::ACCENT_SIZE,
            Kind::Rule => layout::RULE_SIZE,
            Kind::Part => layout::PART_SIZE,
            Kind::End => layout::END_SIZE,
        }
    }
}

// The bytes of a record that begins with a byte; where that is no kind, an End's.
// Stays: beside tonekit_sheet's, as `Kind::size`; k is any byte, since it promises the size of those that are no kind too.
#[tactic(auto, using(crate::proofs::ByKind::kind_number, crate::proofs::ByKind::no_kind_size), unfolding(spec_pack::specs::Pack::size_of))]
pub fn size_of(k: u8) -> usize
    ensures { result ≡ size_of k }
{
    match Kind::try_from(k) {
        Ok(k) => k.size(),
        Err(_) => layout::END_SIZE,
    }
}
