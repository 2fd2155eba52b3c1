// What a query is judged against: the tones, each with what was looked up for it.
#![tactic(auto)]

ghost use Rattle.std.specs.Prelude.{◌≡◌, ◌≤◌, ◌<◌, [], ◌∷◌, ◌++◌, length};

use std::marker::Model;
use std::ops::DerefSlice;
use tonekit_core::Name;

// Where in a tone missing pitch is not penalised.
#[derive(Clone, Copy)]
pub struct Region {
    pub from: f32,
    pub to: f32,
}

// What was looked up for a tone: the name of its components, and how many they are.
#[derive(Clone, Copy)]
pub struct ToneListing {
    pub name: Name,
    pub count: u8,
}

// A tone that is judged against: its number, its prior and its region, what a creaky tail is worth to it at
// the query's place in the phrase, and what was looked up for it, if anything was.
#[derive(Clone, Copy, Default)]
pub struct ToneEntry {
    pub number: u8,
    pub prior: f32,
    pub region: Option<Region>,
    pub tail: f32,
    pub listing: Option<ToneListing>,
}

// The tones that are judged against, in pack order, at most eight; the components of tone t stand in the
// slots from 4 * t on. Behind the last tone every entry is blank.
// Stays: not the kit's ArrayVec, which is no Copy value.
#[derive(Clone, Copy)]
pub struct Inventory {
    entries: [ToneEntry; 8],
    count: usize,
}

const BLANK: ToneEntry = ToneEntry {
    number: 0,
    prior: 0.0,
    region: None,
    tail: 0.0,
    listing: None,
};

impl Model for Inventory {
    ghost use Rattle.arrayvec.specs.ArrayVec.{ArrayVec};
    ghost use Rattle.tonekit_entries.specs.declared.ToneEntry.{ToneEntry};

    ghost Value = { ArrayVec ToneEntry };

    ghost use Rattle.tonekit_entries.specs.Entries.{tones_of, BlankBehind, fields_of, fields_back};

    ghost view = { tones_of };

    ghost invariant = { BlankBehind };

    ghost inverse = { fields_of };

    ghost inverse_ok = { fields_back };
}

impl Inventory {
    // None yet.
    pub fn new() -> Inventory
        ensures { result.items ≡ [] }
    {
        Inventory {
            entries: [BLANK; 8],
            count: 0,
        }
    }

    // The tones.
    #[inline]
    pub fn as_slice(&self) -> &[ToneEntry]
        ensures value { result.now ≡ self.now.items }
        ensures fits { length result.now ≤ 8 }
    {
        &self.entries[..self.count]
    }

    // How many.
    #[inline]
    pub fn len(&self) -> usize
        ensures value { result ≡ length self.now.items }
        ensures fits { result ≤ 8 }
    {
        self.count
    }

    // One more tone; there must be room.
    #[inline]
    pub fn push(&mut self, entry: ToneEntry)
        requires { length self.old.items < 8 }
        ensures { self.new.items ≡ self.old.items ++ entry ∷ [] }
    {
        self.entries[self.count] = entry;
        self.count += 1;
    }
}

// An inventory is used as the slice of its tones.
impl DerefSlice for Inventory {
    type Elem = ToneEntry;

    ghost deref_gives = { λ i entries. (entries ≡ i.items) × (length entries ≤ 8) };

    #[inline]
    fn deref(&self) -> &[ToneEntry] {
        self.as_slice()
    }
}
