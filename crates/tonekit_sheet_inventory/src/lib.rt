// What a station gathers for a context from a sheet, as tonekit_inventory does from a pack; lists are
// found by position.
#![tactic(auto)]

ghost use Rattle.std.specs.Prelude.{◌≡◌, map, ◌+◌, ◌*◌, ◌≤◌, ◌<◌, Some, get_or};
ghost use Rattle.std.proofs.Props.{props};
ghost use Rattle.tonekit_core.specs.declared.layout.TheConstants.{SHEET_LIST_COUNT};
ghost use Rattle.spec_arithmetic.specs.Fields.{byte_at};
ghost use Rattle.spec_judgement.specs.Gather.{f32, put_in};
ghost use Rattle.spec_sheet.specs.Reader.{row_at, read_sheet};
ghost use Rattle.spec_sheet.specs.FromSheet.{bits_at, prev_found, carried_from};
ghost use Rattle.tonekit_sheet.specs.Parts.{row_place, final_place};
ghost use Rattle.tonekit_sheet_read.specs.Held.{records_of};
ghost use Rattle.tonekit_sheet_inventory.specs.Look.{source_in, load_source, sheet_in, ListPlace, ShortList, Looks, name_at};

use spec_judgement::{Settings, Slot, Slots, Tolerance, ToneEntry, ToneListing};
use tonekit_bytes::{byte_at, f32_at, u16_at};
use tonekit_core::{Name, Rejection, layout};
use tonekit_expect::Context;
use tonekit_inventory::Held;
use tonekit_sheet_read::SheetView;

// A sheet that was read, with its bytes, as what a station holds.
// Stays: see `HeldPack` of tonekit_inventory.
#[derive(Clone, Copy)]
pub struct HeldSheet<'a> {
    pub view: SheetView<'a>,
    pub ghost read: { sheet_in (read_sheet view.bytes.now) ≡ Some (records_of view.sheet) } by { Prim.hlevel props },
}

impl HeldSheet<'_> {
    // The place of what stood before among a row's: none first, then the tones.
    fn prev_index(&self, n: u8) -> Option<usize>
        ensures { result ≡ prev_found self.now.view.bytes.now (records_of self.now.view.sheet) n }
    {
        if n == 0 {
            return Some(0);
        }
        let p = self.view.tone_index(n)?;
        Some(p + 1)
    }

    // The place of the row of accent a, tone t and place p of what stood before.
    fn row_place(&self, a: usize, t: usize, p: usize) -> usize
        requires { (a < self.now.view.sheet.accents) × (t < self.now.view.sheet.tones) × (p ≤ self.now.view.sheet.tones) }
        ensures { (result ≡ row_place (records_of self.now.view.sheet) a t p) × (result < 576) }
    {
        (a * self.view.sheet.tones + t) * (self.view.sheet.tones + 1) + p
    }

    // The list number of that row, at a phrase's end or not.
    fn list_number(&self, a: usize, t: usize, p: usize, c: Context) -> u8
        requires { (a < self.now.view.sheet.accents) × (t < self.now.view.sheet.tones) × (p ≤ self.now.view.sheet.tones) }
        ensures { result ≡ byte_at self.now.view.bytes.now (row_at (records_of self.now.view.sheet) (row_place (records_of self.now.view.sheet) a t p) + final_place c) }
    {
        let row = self.row_place(a, t, p);
        let o = layout::sheet_row_at(self.view.sheet.tones, self.view.sheet.accents, row);
        if c.last {
            return byte_at(self.view.bytes, o, layout::SHEET_ROW_FINAL_LIST);
        }
        byte_at(self.view.bytes, o, layout::SHEET_ROW_LIST)
    }

    // The offset of the list at a place.
    #[tactic(auto, using(tonekit_bytes::proofs::InOrder::order_length))]
    fn list_at(&self, i: usize) -> u16
        requires { i < self.now.view.sheet.lists.count }
        ensures { result ≡ get_or (records_of self.now.view.sheet).lists i 0 }
    {
        self.view.sheet.lists.offsets()[i]
    }

    // The offset of the list with a number, of at most as many as there are.
    fn list_place(&self, number: u8) -> Option<usize>
        requires { number ≤ self.now.view.sheet.lists.count }
        ensures { ListPlace (records_of self.now.view.sheet) number result }
    {
        if number == 0 {
            return None;
        }
        Some(usize::from(self.list_at(usize::from(number) - 1)))
    }

    // The offset of the list that a context takes, or none: the row by position, and of its two lists
    // the one for this place in the phrase.
    pub fn look(&self, c: Context) -> Option<usize>
        ensures { Looks self.now.view.bytes.now (records_of self.now.view.sheet) c result }
    {
        let a = self.view.accent_index(c.accent)?;
        let t = self.view.tone_index(c.tone)?;
        let p = self.prev_index(c.prev)?;
        self.list_place(self.list_number(a, t, p, c))
    }
}

// The ten points from an offset on.
fn ten_at(s: &[u8], o: usize) -> [f32; 10]
    ensures { result ≡ map f32 (bits_at s.now o 10) }
{
    let mut ten = [0.0; 10];
    for (k, x) in ten.iter_mut().enumerate() {
        *x = f32_at(s, o, layout::F32_SIZE * k);
    }
    ten
}

// Puts the components of the list at o into tone t's slots.
// Stays: see tonekit_inventory's.
fn fill(s: &[u8], o: usize, t: usize, slots: &mut Slots)
    requires { (t < 8) × ShortList s.now o }
    ensures { slots.new ≡ put_in t (carried_from s.now o (byte_at s.now (o + SHEET_LIST_COUNT))) slots.old }
{
    let count = usize::from(byte_at(s, o, layout::SHEET_LIST_COUNT));
    let own = &mut slots.list[4 * t..4 * t + count];
    for (j, slot) in own.iter_mut().enumerate() {
        let at = o + layout::SHEET_LIST_SIZE + layout::SHEET_COMPONENT_SIZE * j;
        let points = ten_at(s, at + layout::SHEET_COMPONENT_POINTS);
        *slot = Slot {
            weight: f32_at(s, at, layout::SHEET_COMPONENT_WEIGHT),
            points,
        };
    }
}

// The name of the list at an offset, and how many components it has.
fn name_at(s: &[u8], o: usize) -> ToneListing
    ensures { result ≡ name_at s.now o }
{
    let name = Name {
        owner: byte_at(s, o, layout::SHEET_LIST_OWNER),
        form: byte_at(s, o, layout::SHEET_LIST_FORM),
        label: u16_at(s, o, layout::SHEET_LIST_LABEL),
    };
    ToneListing {
        name,
        count: byte_at(s, o, layout::SHEET_LIST_COUNT),
    }
}

impl<'a> Held<'a> for HeldSheet<'a> {
    ghost source = { λ h. source_in h.view.bytes.now h.view.sheet };

    ghost loads = { load_source };

    fn load(bytes: &'a [u8]) -> Result<HeldSheet<'a>, Rejection> {
        let loaded = tonekit_sheet_read::load_sheet(bytes)?;
        Ok(HeldSheet {
            view: SheetView {
                bytes,
                sheet: loaded.held,
            },
        })
    }

    fn tones(&self) -> usize {
        self.view.sheet.tones
    }

    fn tone(&self, t: usize, last: bool) -> ToneEntry {
        let o = layout::sheet_tone_at(t);
        ToneEntry {
            number: byte_at(self.view.bytes, o, layout::OWN_NUMBER),
            prior: f32_at(self.view.bytes, o, layout::SHEET_TONE_PRIOR),
            region: tonekit_inventory::region_at(
                self.view.bytes,
                o + layout::SHEET_TONE_REGION,
            ).used(),
            tail: tonekit_inventory::tail_at(
                self.view.bytes,
                o + layout::SHEET_TONE_SIZE,
                layout::SHEET_TAIL_KIND,
                last,
            ),
            listing: None,
        }
    }

    fn holds_tone(&self, number: u8) -> bool {
        self.view.tone_index(number).is_some()
    }

    fn tolerance(&self, number: u8) -> Option<Tolerance> {
        let a = self.view.accent_index(number)?;
        let o = layout::sheet_accent_at(self.view.sheet.tones, a);
        Some(tonekit_inventory::tolerance_at(self.view.bytes, o + layout::SHEET_ACCENT_CONTOUR))
    }

    fn put(&self, c: Context, t: usize, slots: &mut Slots) -> Option<ToneListing> {
        let o = self.look(c)?;
        fill(self.view.bytes, o, t, slots);
        Some(name_at(self.view.bytes, o))
    }

    fn settings(&self) -> Settings {
        tonekit_inventory::settings_at(self.view.bytes)
    }
}
