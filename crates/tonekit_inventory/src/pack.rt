// A pack that was read, as what a station holds.

ghost use Rattle.std.specs.Prelude.{◌≡◌, ◌≤◌, ◌<◌, Some};
ghost use Rattle.std.proofs.Props.{props};
ghost use Rattle.spec_pack.specs.Pack.{read_pack};
ghost use Rattle.tonekit_pack.specs.Held.{records_of};
ghost use Rattle.spec_lookup.specs.Source.{components};
ghost use Rattle.spec_judgement.specs.Gather.{put_in};
ghost use Rattle.tonekit_inventory.specs.OfPack.{source_in, load_source, pack_in, Short};

use crate::Held;
use spec_judgement::{Settings, Slot, Slots, Tolerance, ToneEntry, ToneListing};
use tonekit_bytes::{byte_at, f32_at};
use tonekit_core::{Rejection, layout};
use tonekit_expect::{Context, Listing};
use tonekit_pack::PackView;

// Puts the components of a listing into tone t's slots.
// Stays: a sheet's components are read by other calls; one loop over a closure would have the closure's contract in its own, as long as the loop.
fn fill(s: &[u8], l: Listing, t: usize, slots: &mut Slots)
    requires { (t < 8) × Short s.now l }
    ensures { slots.new ≡ put_in t (components s.now l l.count) slots.old }
{
    let own = &mut slots.list[4 * t..4 * t + l.count];
    for (j, slot) in own.iter_mut().enumerate() {
        let c = tonekit_expect::component_at(s, l, j);
        let points = c.points;
        *slot = Slot {
            weight: c.weight,
            points,
        };
    }
}

// A pack that was read, with its bytes, as what a station holds.
// Stays: one struct of a pack and of a sheet would take a format as a parameter, and each use of a field would still be one format's alone.
#[derive(Clone, Copy)]
pub struct HeldPack<'a> {
    pub view: PackView<'a>,
    pub ghost read: { pack_in (read_pack view.bytes.now) ≡ Some (records_of view.pack) } by { Prim.hlevel props },
}

impl<'a> Held<'a> for HeldPack<'a> {
    ghost source = { λ h. source_in h.view.bytes.now h.view.pack };

    ghost loads = { load_source };

    fn load(bytes: &'a [u8]) -> Result<HeldPack<'a>, Rejection> {
        let loaded = tonekit_pack::load_pack(bytes)?;
        Ok(HeldPack {
            view: PackView {
                bytes,
                pack: loaded.held,
            },
        })
    }

    fn tones(&self) -> usize {
        self.view.pack.tones.len()
    }

    fn tone(&self, t: usize, last: bool) -> ToneEntry {
        let s = self.view.bytes;
        let o = usize::from(self.view.pack.tones.at[t]);
        ToneEntry {
            number: byte_at(s, o, layout::OWN_NUMBER),
            prior: f32_at(s, o, layout::TONE_PRIOR),
            region: crate::region_at(s, o + layout::TONE_REGION).used(),
            tail: crate::tail_at(s, o + layout::TONE_SIZE, layout::TAIL_KIND, last),
            listing: None,
        }
    }

    fn holds_tone(&self, number: u8) -> bool {
        tonekit_expect::tone_index(self.view, number).is_some()
    }

    fn tolerance(&self, number: u8) -> Option<Tolerance> {
        let a = tonekit_expect::accent_index(self.view, number)?;
        let o = usize::from(self.view.pack.accents.at[a]);
        Some(crate::tolerance_at(self.view.bytes, o + layout::ACCENT_CONTOUR))
    }

    fn put(&self, c: Context, t: usize, slots: &mut Slots) -> Option<ToneListing> {
        let l = tonekit_expect::look_up(self.view, c)?;
        fill(self.view.bytes, l, t, slots);
        Some(ToneListing {
            name: l.name,
            count: l.count as u8,
        })
    }

    fn settings(&self) -> Settings {
        crate::settings_at(self.view.bytes)
    }
}
