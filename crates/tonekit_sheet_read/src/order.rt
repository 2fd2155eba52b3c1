// What is judged at a sheet's end: list references (7), then the order (8).
ghost use Rattle.std.specs.Prelude.{◌≡◌, ◌+◌, ◌<◌, ◌≤◌, false, length, is_some, IfSome};
ghost use Rattle.tonekit_core.specs.Loop.{range};
ghost use Rattle.spec_pack.specs.Pack.{zero_or_held};
ghost use Rattle.spec_sheet.specs.Reader.{rows_due, row_at, loose_row, accent_down, prev_due, row_due, row_names, row_wrong, named, same_lists, repeated, list_wrong};
ghost use Rattle.tonekit_sheet.specs.Parts.{names_turn};
ghost use Rattle.tonekit_sheet_read.specs.Held.{records_of};
ghost use Rattle.tonekit_sheet_read.specs.Marks.{mark_at, Marked};

use crate::{Sheet, SheetView};
use arrayvec::ArrayVec;
use tonekit_bytes::places::index_of;
use tonekit_bytes::{byte_at, u32_at};
use tonekit_core::layout;
use tonekit_sheet::mix;

// The weight of a list's first component, from the list on.
const FIRST_WEIGHT: usize = layout::SHEET_LIST_SIZE + layout::SHEET_COMPONENT_WEIGHT;

// A mark of the list at o, from its weights and points.
#[tactic(auto, using(tonekit_core::proofs::LoopLaws::again, tonekit_core::proofs::LoopLaws::ended), unfolding(crate::specs::Marks::mark_at))]
fn mark_at(s: &[u8], o: usize) -> u32
    ensures { result ≡ mark_at s.now o }
{
    let words = 11 * usize::from(byte_at(s, o, layout::SHEET_LIST_COUNT));
    let mut m: u32 = 0;
    for k in 0..words {
        m = mix(m, u32_at(s, o, FIRST_WEIGHT + layout::F32_SIZE * k));
    }
    m
}

// Whether the lists at two offsets are equal but for their numbers.
// Stays: a byte behind the input reads as 0 on both sides; two slices with == would first have to be cut to the input, each by its own length.
#[tactic(auto, using(tonekit_core::proofs::LoopLaws::again, tonekit_core::proofs::LoopLaws::ended, crate::proofs::Loops::settled), unfolding(spec_sheet::specs::Reader::same_lists))]
fn same_lists(s: &[u8], a: usize, b: usize) -> bool
    ensures { result ≡ same_lists s.now a b }
{
    let count = usize::from(byte_at(s, a, layout::SHEET_LIST_COUNT));
    let size = layout::SHEET_LIST_SIZE + layout::SHEET_COMPONENT_SIZE * count;
    for k in layout::SHEET_LIST_OWNER..size {
        if byte_at(s, a, k) != byte_at(s, b, k) {
            return false;
        }
    }
    true
}

// Whether one of the lists at these offsets, which have these marks, is equal to the one at o, which
// has this mark. Lists of different marks are not compared.
#[tactic(auto, using(tonekit_core::proofs::LoopLaws::again, tonekit_core::proofs::LoopLaws::ended, crate::proofs::Marks::marked_apart), unfolding(spec_sheet::specs::Reader::repeated))]
fn repeated(s: &[u8], lists: &[u16], marks: &[u32], o: usize, mark: u32) -> bool
    requires { (length lists.now ≡ length marks.now)
        × Marked s.now lists.now marks.now (length marks.now)
        × (mark ≡ mark_at s.now o) }
    ensures { result ≡ repeated s.now lists.now (length lists.now) o }
{
    for (other, m) in lists.iter().zip(marks) {
        if *m == mark {
            if same_lists(s, o, usize::from(*other)) {
                return true;
            }
        }
    }
    false
}

impl Sheet {
    // The offset of row r, of at most 576.
    #[tactic(auto, using(tonekit_bytes::proofs::Stepped::stepped_length))]
    fn row_at(&self, r: usize) -> usize
        requires { r ≤ 576 }
        ensures { (result ≡ row_at (records_of self.now) r) × (result ≤ 4000) }
    {
        layout::sheet_row_at(self.tones, self.accents, r)
    }
}

impl SheetView<'_> {
    // Whether x is 0, or the number of one of the lists: in a sheet in order, of list x.
    // Stays: beside tonekit_pack's `zero_or_held`, since it looks first where list x stands in a sheet in order; a pack's records have no such place.
    #[tactic(auto, using(crate::proofs::Lists::there, tonekit_pack::proofs::Numbers::holds_found), unfolding(spec_pack::specs::Pack::zero_or_held))]
    fn list_there(&self, x: u8) -> bool
        ensures { result ≡ zero_or_held self.now.bytes.now (records_of self.now.sheet).lists x }
    {
        if x == 0 {
            return true;
        }
        let lists = self.sheet.lists.offsets();
        let p = usize::from(x) - 1;
        if p < lists.len() {
            if byte_at(self.bytes, usize::from(lists[p]), layout::OWN_NUMBER) == x {
                return true;
            }
        }
        index_of(self.bytes, lists, x).is_some()
    }

    // The first row that names a list that is not there.
    #[tactic(auto, using(tonekit_core::proofs::LoopLaws::to_again, tonekit_core::proofs::LoopLaws::to_ended), unfolding(spec_sheet::specs::Reader::loose_row))]
    pub fn loose_row(&self) -> Option<usize>
        ensures { result ≡ loose_row self.now.bytes.now (records_of self.now.sheet) }
    {
        for r in 0..self.sheet.rows {
            let o = self.sheet.row_at(r);
            let not_final = self.list_there(byte_at(self.bytes, o, layout::SHEET_ROW_LIST));
            let last = self.list_there(byte_at(self.bytes, o, layout::SHEET_ROW_FINAL_LIST));
            if !(not_final & last) {
                return Some(o);
            }
        }
        None
    }

    // The first accent whose number is not above that of the one before it.
    #[tactic(auto, using(tonekit_core::proofs::LoopLaws::to_again, tonekit_core::proofs::LoopLaws::to_ended, tonekit_bytes::proofs::Stepped::stepped_length, tonekit_bytes::proofs::Stepped::stepped_get), unfolding(spec_sheet::specs::Reader::accent_down))]
    pub fn accent_down(&self) -> Option<usize>
        ensures { result ≡ accent_down self.now.bytes.now (records_of self.now.sheet) }
    {
        let mut before = 0;
        for i in 0..self.sheet.accents {
            let o = layout::sheet_accent_at(self.sheet.tones, i);
            let n = byte_at(self.bytes, o, layout::OWN_NUMBER);
            if !(before < n) {
                return Some(o);
            }
            before = n;
        }
        None
    }

    // The number before a row's tone that is due at a place of prev: none, then the tones.
    // Stays: beside the planner's `prev_at`, since a sheet's tones stand one behind the other and a pack's are held by offsets.
    #[tactic(auto, using(crate::proofs::Rows::prev_some))]
    fn prev_due(&self, p: usize) -> u8
        requires { p ≤ self.now.sheet.tones }
        ensures { result ≡ prev_due self.now.bytes.now (records_of self.now.sheet) p }
    {
        if p == 0 {
            return 0;
        }
        byte_at(self.bytes, layout::sheet_tone_at(p - 1), layout::OWN_NUMBER)
    }

    // Whether row r is the one due at its place.
    #[tactic(auto, using(crate::proofs::Rows::row_due_at, crate::proofs::Rows::due_few, crate::proofs::Rows::a_tone, crate::proofs::Rows::places, tonekit_sheet::proofs::RowPlaces::each_few))]
    fn row_due(&self, r: usize) -> bool
        requires { r < rows_due (records_of self.now.sheet) }
        ensures { result ≡ row_due self.now.bytes.now (records_of self.now.sheet) r }
    {
        let o = self.sheet.row_at(r);
        let tones = self.sheet.tones;
        let each = tones + 1;
        let a = r / (tones * each);
        let t = r / each % tones;
        let p = r % each;
        let accent_due = byte_at(
            self.bytes,
            layout::sheet_accent_at(tones, a),
            layout::OWN_NUMBER,
        );
        let tone_due = byte_at(self.bytes, layout::sheet_tone_at(t), layout::OWN_NUMBER);
        let accent = byte_at(self.bytes, o, layout::SHEET_ROW_ACCENT) == accent_due;
        let tone = byte_at(self.bytes, o, layout::SHEET_ROW_TONE) == tone_due;
        accent & (tone & (byte_at(self.bytes, o, layout::SHEET_ROW_PREV) == self.prev_due(p)))
    }

    // Whether row r names no list above 1 more than the greatest before it.
    #[tactic(auto, unfolding(spec_sheet::specs::Reader::row_names))]
    fn row_names(&self, r: usize, m: u8) -> bool
        requires { r ≤ 576 }
        ensures { result ≡ row_names self.now.bytes.now (records_of self.now.sheet) r m }
    {
        let o = self.sheet.row_at(r);
        let n = byte_at(self.bytes, o, layout::SHEET_ROW_LIST);
        let last = byte_at(self.bytes, o, layout::SHEET_ROW_FINAL_LIST);
        (usize::from(n) <= usize::from(m) + 1) & (usize::from(last) <= usize::from(m.max(n)) + 1)
    }

    // The first row that is not the one due, or names a list out of order. All rows are there.
    #[tactic(auto, using(tonekit_core::proofs::LoopLaws::to_again, tonekit_core::proofs::LoopLaws::to_ended), unfolding(spec_sheet::specs::Reader::row_wrong))]
    pub fn row_wrong(&self) -> Option<usize>
        requires { self.now.sheet.rows ≤ rows_due (records_of self.now.sheet) }
        ensures { result ≡ row_wrong self.now.bytes.now (records_of self.now.sheet) }
    {
        let mut m = 0;
        for r in 0..self.sheet.rows {
            let o = self.sheet.row_at(r);
            if !(self.row_due(r) & self.row_names(r, m)) {
                return Some(o);
            }
            m = m
                .max(byte_at(self.bytes, o, layout::SHEET_ROW_LIST))
                .max(byte_at(self.bytes, o, layout::SHEET_ROW_FINAL_LIST));
        }
        None
    }

    // The first row from a row on that names list n.
    #[tactic(auto, using(tonekit_core::proofs::LoopLaws::again, tonekit_core::proofs::LoopLaws::ended, crate::proofs::Loops::settled))]
    fn use_from(&self, n: usize, from: usize) -> Option<usize>
        requires { from ≤ self.now.sheet.rows }
        ensures { IfSome result (λ r. r < self.now.sheet.rows)
            × (is_some result ≡ range (names_turn self.now.bytes.now (records_of self.now.sheet) n) from self.now.sheet.rows false) }
    {
        for r in from..self.sheet.rows {
            let o = self.sheet.row_at(r);
            let first = usize::from(byte_at(self.bytes, o, layout::SHEET_ROW_LIST)) == n;
            let last = usize::from(byte_at(self.bytes, o, layout::SHEET_ROW_FINAL_LIST)) == n;
            if first | last {
                return Some(r);
            }
        }
        None
    }

    // A row that names list n: the first from a row on, else the first of all. Lists are numbered by
    // first use, so list n is first named at or behind list n - 1.
    #[tactic(auto, using(crate::proofs::Loops::found_before), unfolding(spec_sheet::specs::Reader::named))]
    fn use_of(&self, n: usize, from: usize) -> Option<usize>
        requires { from ≤ self.now.sheet.rows }
        ensures { IfSome result (λ r. r < self.now.sheet.rows)
            × (is_some result ≡ named self.now.bytes.now (records_of self.now.sheet) n) }
    {
        let r = self.use_from(n, from);
        if r.is_some() {
            return r;
        }
        self.use_from(n, 0)
    }

    // The first list that has not its place as its number, is named by no row, or is equal to an
    // earlier one.
    pub fn list_wrong(&self) -> Option<usize>
        ensures { result ≡ list_wrong self.now.bytes.now (records_of self.now.sheet) }
    {
        let lists = self.sheet.lists.offsets();
        let mut marks: ArrayVec<u32, 128> = ArrayVec::new();
        let mut from = 0;
        for (i, at) in lists.iter().enumerate() {
            let o = usize::from(*at);
            if usize::from(byte_at(self.bytes, o, layout::OWN_NUMBER)) != i + 1 {
                return Some(o);
            }
            let Some(used) = self.use_of(i + 1, from) else {
                return Some(o);
            };
            let mark = mark_at(self.bytes, o);
            if repeated(self.bytes, &lists[..i], marks.as_slice(), o, mark) {
                return Some(o);
            }
            marks.push(mark);
            from = used;
        }
        None
    }
}
