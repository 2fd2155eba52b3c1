// What is said of one record of a sheet, and what is kept of it.
ghost use Rattle.std.specs.Prelude.{◌≡◌, ◌+◌, ◌≤◌, length, replicate};
ghost use Rattle.tonekit_core.specs.declared.layout.TheConstants.{SHEET_TONE_SIZE, SHEET_ACCENT_SIZE, SHEET_COMPONENT_SIZE};
ghost use Rattle.spec_arithmetic.specs.Places.{index_of};
ghost use Rattle.spec_pack.specs.Pack.{holds};
ghost use Rattle.tonekit_sheet.specs.Kinds.{number};
ghost use Rattle.spec_sheet.specs.Reader.{rows_due, complete, due_next, size_of, tone_verdict, accent_verdict, row_verdict, list_verdict, points_fine, component_verdict, body_verdict, added, sheet_reader};
ghost use Rattle.tonekit_sheet_read.specs.Held.{records_of, Follows};

use crate::{Sheet, SheetView};
use tonekit_bytes::places::{Offsets, index_from};
use tonekit_bytes::{byte_at, f32_at, u16_at, u32_at};
use tonekit_core::{Refusal, layout, limits};
use tonekit_pack::read::{in_turn, settings_verdict, tail_verdict};
use tonekit_ranges::{probability_fine, region_fine, tolerances_fine, weight_fine, within};
use tonekit_sheet::{Kind, row_count};

// Ten points from an offset on, each of size at most 128.
#[tactic(auto, using(tonekit_core::proofs::LoopLaws::again, tonekit_core::proofs::LoopLaws::ended, crate::proofs::Bounds::point_within), unfolding(spec_sheet::specs::Reader::points_fine))]
fn points_fine(s: &[u8], o: usize) -> bool
    ensures { result ≡ points_fine s.now o }
{
    let mut ok = true;
    for k in 0..10 {
        ok = ok & within(f32_at(s, o, layout::F32_SIZE * k), 128.0);
    }
    ok
}

impl Sheet {
    // Before the first record.
    #[tactic(auto, unfolding(tonekit_bytes::specs::Places::in_order, tonekit_bytes::specs::Places::stepped))]
    pub fn nothing() -> Sheet
        ensures read { records_of result ≡ sheet_reader.start.st }
        ensures lists { result.lists.at ≡ replicate 128 0 }
    {
        Sheet {
            last: None,
            tones: 0,
            accents: 0,
            rows: 0,
            lists: Offsets::none(),
            due: 0,
            total: 0,
        }
    }

    // The rows that are due: one for each accent, tone, and tone or none before it.
    #[tactic(auto, using(crate::proofs::Rows::due_count))]
    fn rows_due(&self) -> usize
        ensures { (result ≡ rows_due (records_of self.now)) × (result ≤ 576) }
    {
        row_count(self.accents, self.tones)
    }

    // Whether all rows are there, and all components of the last list.
    #[tactic(auto, unfolding(spec_sheet::specs::Reader::complete))]
    fn complete(&self) -> bool
        ensures { result ≡ complete (records_of self.now) }
    {
        match self.last {
            Some(Kind::Row) => self.rows == self.rows_due(),
            Some(Kind::Component) => self.due == 0,
            _ => false,
        }
    }

    // Whether a record of this kind may stand next.
    #[tactic(auto, unfolding(spec_sheet::specs::Reader::due_next))]
    pub fn due_next(&self, k: Kind) -> bool
        ensures { result ≡ due_next (records_of self.now) (number k) }
    {
        match k {
            Kind::Settings => self.last.is_none(),
            Kind::Tone => matches!(self.last, Some(Kind::Settings | Kind::Tail)),
            Kind::Tail => matches!(self.last, Some(Kind::Tone)),
            Kind::Accent => matches!(self.last, Some(Kind::Tail | Kind::Accent)),
            Kind::Row => {
                matches!(self.last, Some(Kind::Accent | Kind::Row)) & (self.rows < self.rows_due())
            }
            Kind::Component => 0 < self.due,
            Kind::List | Kind::End => self.complete(),
        }
    }

    // Keeps the record of this kind at o, a list of so many components, once it is fine.
    #[tactic(auto, using(tonekit_bytes::proofs::Stepped::stepped_more, tonekit_bytes::proofs::Stepped::stepped_none), unfolding(spec_sheet::specs::Reader::added))]
    pub fn keep(&mut self, k: Kind, o: usize, count: u8)
        requires { Follows (number k) o count self.old }
        ensures { records_of self.new ≡ added (number k) o count (records_of self.old) }
    {
        self.last = Some(k);
        match k {
            Kind::Settings | Kind::Tail | Kind::End => {}
            Kind::Tone => self.tones += 1,
            Kind::Accent => self.accents += 1,
            Kind::Row => self.rows += 1,
            Kind::List => {
                self.lists.add(o as u16);
                self.due = usize::from(count);
            }
            Kind::Component => {
                self.due -= 1;
                self.total += 1;
            }
        }
    }
}

impl SheetView<'_> {
    // The place of the tone with number n, or none.
    // Stays: this and `accent_index` are the two uses of the one search, `index_from`; all that they say is where the records stand.
    pub fn tone_index(&self, n: u8) -> Option<usize>
        ensures { result ≡ index_of self.now.bytes.now (records_of self.now.sheet).tones n }
    {
        let at = layout::SETTINGS_SIZE;
        index_from(self.bytes, at, layout::SHEET_TONE_STEP, self.sheet.tones, n)
    }

    // The place of the accent with number n, or none.
    // Stays: as `tone_index`.
    pub fn accent_index(&self, n: u8) -> Option<usize>
        ensures { result ≡ index_of self.now.bytes.now (records_of self.now.sheet).accents n }
    {
        let at = layout::sheet_tone_at(self.sheet.tones);
        index_from(
            self.bytes,
            at,
            layout::SHEET_ACCENT_SIZE,
            self.sheet.accents,
            n,
        )
    }

    // Whether a tone has x as its number.
    // Stays: this and `accent_held` say `holds`, the definition's word, of the place that a search answers.
    #[tactic(auto, using(tonekit_pack::proofs::Numbers::holds_found))]
    fn tone_held(&self, x: u8) -> bool
        ensures { result ≡ holds self.now.bytes.now (records_of self.now.sheet).tones x }
    {
        self.tone_index(x).is_some()
    }

    // Whether an accent has x as its number.
    // Stays: as `tone_held`.
    #[tactic(auto, using(tonekit_pack::proofs::Numbers::holds_found))]
    fn accent_held(&self, x: u8) -> bool
        ensures { result ≡ holds self.now.bytes.now (records_of self.now.sheet).accents x }
    {
        self.accent_index(x).is_some()
    }

    // What is said of a record of each kind that is due and whole, here and below. A tone: number, prior, region.
    // Stays: beside tonekit_pack's, which tests knots too; one for both would take the places of all fields as arguments.
    #[tactic(auto, using(tonekit_bytes::proofs::Stepped::stepped_length), unfolding(spec_sheet::specs::Reader::tone_verdict))]
    fn tone_verdict(&self, o: usize) -> Result<(), Refusal>
        requires { o + SHEET_TONE_SIZE ≤ length self.now.bytes.now }
        ensures { result ≡ tone_verdict self.now.bytes.now o (records_of self.now.sheet) }
    {
        let number = byte_at(self.bytes, o, layout::OWN_NUMBER);
        let share = probability_fine(f32_at(self.bytes, o, layout::SHEET_TONE_PRIOR));
        let region = region_fine(self.bytes, o + layout::SHEET_TONE_REGION);
        let fine = (number != 0) & (share & region);
        let new = !self.tone_held(number);
        in_turn(limits::TONES <= self.sheet.tones, fine, new, true)
    }

    // An accent: number, tolerances. Its order waits for the end.
    // Stays: beside tonekit_pack's; one for both would take the tolerances' place, and how accents are held, as arguments.
    #[tactic(auto, using(tonekit_bytes::proofs::Stepped::stepped_length), unfolding(spec_sheet::specs::Reader::accent_verdict))]
    fn accent_verdict(&self, o: usize) -> Result<(), Refusal>
        requires { o + SHEET_ACCENT_SIZE ≤ length self.now.bytes.now }
        ensures { result ≡ accent_verdict self.now.bytes.now o (records_of self.now.sheet) }
    {
        let number = byte_at(self.bytes, o, layout::OWN_NUMBER);
        let tolerances = tolerances_fine(self.bytes, o + layout::SHEET_ACCENT_CONTOUR);
        let fine = (number != 0) & tolerances;
        let new = !self.accent_held(number);
        in_turn(limits::ACCENTS <= self.sheet.accents, fine, new, true)
    }

    // A row: its accent, its tone and what stood before are held. Its order and its lists wait for the end.
    #[tactic(auto, unfolding(spec_sheet::specs::Reader::row_verdict, spec_pack::specs::Pack::zero_or_held))]
    fn row_verdict(&self, o: usize) -> Result<(), Refusal>
        ensures { result ≡ row_verdict self.now.bytes.now o (records_of self.now.sheet) }
    {
        let accent = byte_at(self.bytes, o, layout::SHEET_ROW_ACCENT);
        let tone = byte_at(self.bytes, o, layout::SHEET_ROW_TONE);
        let prev = byte_at(self.bytes, o, layout::SHEET_ROW_PREV);
        let fine = (accent != 0) & (tone != 0);
        let before = (prev == 0) | self.tone_held(prev);
        let held = self.accent_held(accent) & (self.tone_held(tone) & before);
        in_turn(false, fine, true, held)
    }

    // A list: count, number, owner, form, label.
    #[tactic(auto, unfolding(spec_sheet::specs::Reader::list_verdict))]
    fn list_verdict(&self, o: usize) -> Result<(), Refusal>
        ensures { result ≡ list_verdict self.now.bytes.now o (records_of self.now.sheet) }
    {
        let owner = byte_at(self.bytes, o, layout::SHEET_LIST_OWNER);
        let form = byte_at(self.bytes, o, layout::SHEET_LIST_FORM);
        let label = u16_at(self.bytes, o, layout::SHEET_LIST_LABEL);
        let count = byte_at(self.bytes, o, layout::SHEET_LIST_COUNT);
        let many = (4 < count) | ((1 < count) & (form != layout::MIXTURE_FORM));
        let crowded = (limits::LISTS <= self.sheet.lists.len()) | many;
        let labelled = (form != layout::CITATION_FORM) | (label == 0);
        let known = (layout::CITATION_FORM <= form) & (form <= layout::MIXTURE_FORM);
        let formed = known & ((count != 0) & labelled);
        let fine = (byte_at(self.bytes, o, layout::OWN_NUMBER) != 0) & ((owner != 0) & formed);
        in_turn(crowded, fine, true, self.accent_held(owner))
    }

    // A component: weight and points.
    #[tactic(auto, unfolding(spec_sheet::specs::Reader::component_verdict))]
    fn component_verdict(&self, o: usize) -> Result<(), Refusal>
        requires { o + SHEET_COMPONENT_SIZE ≤ length self.now.bytes.now }
        ensures { result ≡ component_verdict self.now.bytes.now o (records_of self.now.sheet) }
    {
        let weight = u32_at(self.bytes, o, layout::SHEET_COMPONENT_WEIGHT);
        let form = byte_at(self.bytes, self.sheet.lists.last(), layout::SHEET_LIST_FORM);
        let weighed = (form == layout::MIXTURE_FORM) | (weight == 0x3f80_0000);
        let curve = points_fine(self.bytes, o + layout::SHEET_COMPONENT_POINTS);
        let fine = weight_fine(weight) & (weighed & curve);
        in_turn(limits::COMPONENTS <= self.sheet.total, fine, true, true)
    }

    // What is said of a record of this kind; the end has nothing to be wrong.
    // Stays: beside the `tests` of tonekit_pack's `Format for Pack`; each names the tests of its own kinds, which is all that it says.
    #[tactic(auto, unfolding(spec_sheet::specs::Reader::body_verdict, spec_sheet::specs::Reader::size_of))]
    pub fn body_verdict(&self, k: Kind, o: usize) -> Result<(), Refusal>
        requires { o + size_of (number k) ≤ length self.now.bytes.now }
        ensures { result ≡ body_verdict (number k) self.now.bytes.now o (records_of self.now.sheet) }
    {
        match k {
            Kind::Settings => settings_verdict(self.bytes, o),
            Kind::Tone => self.tone_verdict(o),
            Kind::Tail => tail_verdict(self.bytes, o),
            Kind::Accent => self.accent_verdict(o),
            Kind::Row => self.row_verdict(o),
            Kind::List => self.list_verdict(o),
            Kind::Component => self.component_verdict(o),
            Kind::End => Ok(()),
        }
    }
}
