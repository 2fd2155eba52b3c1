// What a station gathers for a context, all that a query is judged by: from a pack, from a sheet, or from
// whatever else is held.
#![tactic(auto)]

ghost use Rattle.std.specs.Prelude.{◌≡◌, ◌≤◌, ◌<◌, ℕ, List, Result, None, Ok, Err, IfOk, IfErr, length, get_or};
ghost use Rattle.tonekit_core.specs.declared.Rejection.{Rejection};
ghost use Rattle.spec_lookup.specs.Source.{Source, accent_in, tone_in, absent_tone};
ghost use Rattle.tonekit_inventory.specs.Fields.{region_at, region_in, tail_at, tolerance_at, settings_at};
ghost use Rattle.spec_judgement.specs.Gather.{entry_of, named_of, given_of, graded_of, put_in, no_slots};
ghost use Rattle.tonekit_inventory.specs.Fields.{settings_of};
ghost use Rattle.tonekit_inventory.specs.Gathers.{Lists, Gathers};
ghost use Rattle.spec_judgement.specs.Inventory.{count_in};

mod pack;

pub use pack::HeldPack;
pub use spec_judgement::Gathered;
use spec_judgement::{Settings, Slots, Tolerance};
use tonekit_bytes::{byte_at, f32_at};
use tonekit_core::{Rejection, layout};
use tonekit_entries::{Inventory, Region, ToneEntry, ToneListing};
use tonekit_expect::Context;

// What a station holds: some bytes, as those of a pack or of a sheet, with what was read of them. `source` says
// what it stands for, and `loads` what bytes hold or why they are refused.
pub trait Held<'a>: Drop {
    ghost source: { Self → Source };

    ghost loads: { List ℕ → Result Source Rejection };

    // What the bytes hold, or why they are refused and where.
    fn load(bytes: &'a [u8]) -> Result<Self, Rejection>
        ensures held { IfOk result (λ h. loads bytes.now ≡ Ok (source h)) }
        ensures refused { IfErr result (λ e. loads bytes.now ≡ Err e) };

    // How many tones there are: 8 at most.
    fn tones(&self) -> usize
        ensures count { result ≡ length (source self.now).tones }
        ensures few { result ≤ 8 };

    // The tone at a place, as an inventory has it before its listing is there: its tail is the one at the
    // phrase's end if `last`, else the one elsewhere.
    fn tone(&self, t: usize, last: bool) -> ToneEntry
        requires { t < length (source self.now).tones }
        ensures { result ≡ entry_of last (get_or (source self.now).tones t absent_tone) None };

    // Whether a tone of this number is held.
    fn holds_tone(&self, number: u8) -> bool
        ensures { result ≡ tone_in (source self.now).tones number };

    // The tolerances of the accent of this number, if it is held.
    fn tolerance(&self, number: u8) -> Option<Tolerance>
        ensures { result ≡ graded_of (accent_in (source self.now).accents number) };

    // Puts the components that a context takes into tone t's slots, and hands back their name and how
    // many they are, if there are any.
    // Stays: the trait's method and its two impls are one method, so what it takes is named three times in any form.
    fn put(&self, c: Context, t: usize, slots: &mut Slots) -> Option<ToneListing>
        requires { t < 8 }
        ensures name { result ≡ named_of (given_of ((source self.now).look c)) }
        ensures few { count_in result ≤ 4 }
        ensures slots { slots.new ≡ put_in t (given_of ((source self.now).look c)) slots.old };

    // The settings.
    fn settings(&self) -> Settings
        ensures { result ≡ settings_of (source self.now).settings };
}

// A region as it stands in a record: its flag, and its bounds whatever the flag says.
#[derive(Clone, Copy)]
pub struct RegionFields {
    pub flag: u8,
    pub region: Region,
}

impl RegionFields {
    // The region, if the flag is not 0.
    #[tactic(auto, unfolding(crate::specs::Fields::region_in))]
    pub fn used(self) -> Option<Region>
        ensures { result ≡ region_in self }
    {
        if self.flag == 0 {
            return None;
        }
        Some(self.region)
    }
}

// The region whose flag stands at an offset; bytes that are not there are 0.
#[tactic(auto, unfolding(crate::specs::Fields::region_at))]
pub fn region_at(s: &[u8], o: usize) -> RegionFields
    ensures { result ≡ region_at s.now o }
{
    let region = Region {
        from: f32_at(s, o, layout::REGION_FROM),
        to: f32_at(s, o, layout::REGION_TO),
    };
    RegionFields {
        flag: byte_at(s, o, 0),
        region,
    }
}

// The tail's value for a place in the phrase, where a record of that kind stands at an offset; else 0.
#[tactic(auto, unfolding(crate::specs::Fields::tail_at))]
pub fn tail_at(s: &[u8], o: usize, kind: u8, last: bool) -> f32
    ensures { result ≡ tail_at kind last s.now o }
{
    if byte_at(s, o, 0) != kind {
        return 0.0;
    }
    if last {
        return f32_at(s, o, layout::TAIL_FINAL);
    }
    f32_at(s, o, layout::TAIL_ELSEWHERE)
}

// The four tolerances from an offset on; of bytes that are not there, 0.
pub fn tolerance_at(s: &[u8], o: usize) -> Tolerance
    ensures { result ≡ tolerance_at s.now o }
{
    Tolerance {
        contour: f32_at(s, o, 0),
        onset: f32_at(s, o, layout::TOLERANCE_ONSET),
        offset: f32_at(s, o, layout::TOLERANCE_OFFSET),
        turning: f32_at(s, o, layout::TOLERANCE_TURNING),
    }
}

// The settings, which stand first in a pack and in a sheet.
#[tactic(auto, unfolding(crate::specs::Fields::settings_at))]
pub fn settings_at(s: &[u8]) -> Settings
    ensures { result ≡ settings_at s.now }
{
    Settings {
        temperature: f32_at(s, 0, layout::SETTINGS_TEMPERATURE),
        threshold: f32_at(s, 0, layout::SETTINGS_THRESHOLD),
    }
}

// The listings of all tones that are held, in a context whose tone is not read; the slots hold zeros
// before, and the components after.
fn listings<'a, H: Held<'a>>(held: &H, c: Context, slots: &mut Slots) -> Inventory
    requires { slots.old ≡ no_slots }
    ensures { Lists (H.source held.now) c result slots.new }
{
    let mut inventory = Inventory::new();
    // Stays: t is a tone's place among what is held and among the slots, and what is held lends no list of tones.
    for t in 0..held.tones() {
        let tone = held.tone(t, c.last);
        let here = Context {
            tone: tone.number,
            ..c
        };
        let listing = held.put(here, t, slots);
        inventory.push(ToneEntry { listing, ..tone });
    }
    inventory
}

// What a station gathers for a context, of which the tone is not read. The slots hold zeros before,
// and the components in their places after.
pub fn gather<'a, H: Held<'a>>(held: &H, c: Context, slots: &mut Slots) -> Gathered
    requires { slots.old ≡ no_slots }
    ensures { Gathers (H.source held.now) c result slots.new }
{
    Gathered {
        prev: c.prev == 0 || held.holds_tone(c.prev),
        settings: held.settings(),
        tolerance: held.tolerance(c.accent),
        inventory: listings(held, c, slots),
    }
}
