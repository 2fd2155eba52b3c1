// A sheet as a file of records, and the calls that read one.
ghost use Rattle.std.specs.Prelude.{◌≡◌, ◌≤◌, eqb};
ghost use Rattle.tonekit_core.specs.declared.layout.TheConstants.{SHEET_END_KIND};
ghost use Rattle.tonekit_sheet.specs.Kinds.{number};
ghost use Rattle.spec_sheet.specs.Reader.{rows_due, due_next, size_of, body_verdict, record_verdict, finished, read_sheet, load_sheet, check_sheet};
ghost use Rattle.tonekit_sheet_read.specs.Held.{records_of, answered};
ghost use Rattle.tonekit_sheet_read.specs.Going.{Going, judges, refuses};

use crate::{Sheet, SheetView};
use tonekit_bytes::byte_at;
use tonekit_core::{Refusal, Rejection, layout};
use tonekit_pack::Loaded;
use tonekit_pack::format::{self, Format};
use tonekit_sheet::Kind;

impl SheetView<'_> {
    // What is judged once the end is read, which stands before `end`: a row that names a list that is
    // not there, then what is out of order. All rows are there.
    #[tactic(auto, unfolding(spec_sheet::specs::Reader::finished))]
    fn judged(&self, end: usize) -> Result<Loaded<Sheet>, Rejection>
        requires { self.now.sheet.rows ≤ rows_due (records_of self.now.sheet) }
        ensures { answered result ≡ finished self.now.bytes.now (records_of self.now.sheet) end }
    {
        if let Some(o) = self.loose_row() {
            return Err(Refusal::Loose.at(o));
        }
        if let Some(o) = self.accent_down() {
            return Err(Refusal::Unordered.at(o));
        }
        if let Some(o) = self.row_wrong() {
            return Err(Refusal::Unordered.at(o));
        }
        if let Some(o) = self.list_wrong() {
            return Err(Refusal::Unordered.at(o));
        }
        Ok(Loaded {
            held: self.sheet,
            end,
        })
    }
}

impl Format for Sheet {
    type Kind = Kind;

    ghost number = { number };

    ghost last = { λ n. eqb n SHEET_END_KIND };

    ghost due = { λ p n. due_next (records_of p) n };

    ghost size = { size_of };

    ghost tests = { λ p s o n. body_verdict n s o (records_of p) };

    ghost verdict = { λ s o p. record_verdict s o (records_of p) };

    ghost so_far = { λ s o p. Going s p o };

    ghost reads = { λ s r. answered r ≡ read_sheet s };

    ghost judges = { λ s o p. judges s o (records_of p) };

    ghost refuses = { λ s o p r g v. refuses s p o g r v };

    #[tactic(auto, using(crate::proofs::Reading::begins))]
    fn nothing() -> Sheet {
        Sheet::nothing()
    }

    #[tactic(auto, using(tonekit_sheet::proofs::ByKind::kind_number, tonekit_sheet::proofs::ByKind::no_kind))]
    fn next(&self, n: u8) -> Option<Kind> {
        match Kind::try_from(n) {
            Ok(k) if self.due_next(k) => Some(k),
            _ => None,
        }
    }

    #[tactic(auto, using(tonekit_sheet::proofs::Records::size_pos))]
    fn size(k: Kind) -> usize {
        k.size()
    }

    fn tests(&self, k: Kind, s: &[u8], o: usize) -> Result<(), Refusal> {
        let view = SheetView {
            bytes: s,
            sheet: *self,
        };
        view.body_verdict(k, o)
    }

    fn ends(k: Kind) -> bool {
        matches!(k, Kind::End)
    }

    fn add(&mut self, k: Kind, s: &[u8], o: usize) {
        self.keep(k, o, byte_at(s, o, layout::SHEET_LIST_COUNT));
    }

    fn finish(self, s: &[u8], o: usize) -> Result<Loaded<Sheet>, Rejection> {
        let view = SheetView {
            bytes: s,
            sheet: self,
        };
        view.judged(o + layout::SHEET_END_SIZE)
    }
}

// Reads the sheet at the front of a longer input: the sheet and where it ends, or the refusal and its place.
// Stays: beside `format::read`, since its contract is the definition `read_sheet`, of which `load_sheet` of the demands is made.
pub fn read_sheet(sheet: &[u8]) -> Result<Loaded<Sheet>, Rejection>
    ensures { answered result ≡ read_sheet sheet.now }
{
    format::read(sheet)
}

// Reads an input that is one sheet: what read_sheet answers, and Overrun at the first byte behind it.
// Stays: the name by which the inventory and sheet_text call `format::load`, with the definition `load_sheet` as its contract.
#[tactic(auto, using(crate::proofs::Reading::alone_is), unfolding(spec_sheet::specs::Reader::load_sheet))]
pub fn load_sheet(sheet: &[u8]) -> Result<Loaded<Sheet>, Rejection>
    ensures { answered result ≡ load_sheet sheet.now }
{
    format::load(sheet)
}

// Whether an input loads as one sheet, or its refusal and place.
// Stays: the name by which the C interface and the programs call `format::check`, with the definition `check_sheet` as its contract.
#[tactic(auto, using(crate::proofs::Reading::told_is), unfolding(spec_sheet::specs::Reader::check_sheet))]
pub fn check_sheet(sheet: &[u8]) -> Result<(), Rejection>
    ensures { result ≡ check_sheet sheet.now }
{
    format::check::<Sheet>(sheet)
}
