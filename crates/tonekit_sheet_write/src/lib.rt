// The sheet of a pack: its needed length, its bytes, and the call that writes them to a lent buffer.
#![tactic(auto)]

ghost use Rattle.std.specs.Prelude.{◌≡◌, ◌*◌, ◌≤◌, ◌<◌, length};
ghost use Rattle.tonekit_core.specs.Calls.{Delivers, written};
ghost use Rattle.tonekit_pack.specs.Held.{records_of};
ghost use Rattle.spec_lookup.specs.Source.{source_of_pack};
ghost use Rattle.spec_sheet.specs.Pieces.{Wrote};
ghost use Rattle.spec_sheet.specs.Sheet.{sheet};
ghost use Rattle.tonekit_sheet_plan.specs.Rows.{Reads};
ghost use Rattle.tonekit_sheet_plan.specs.Plans.{planned_by};
ghost use Rattle.tonekit_sheet_write.specs.Pieces.{Lent, list_most, lists_part};
ghost use Rattle.tonekit_sheet_write.specs.Drafts.{sheet_of};
ghost use Rattle.spec_sheet.specs.Outcome.{sheet_outcome};

mod draft;
mod parts;
mod records;

use crate::draft::Draft;
use crate::records::{Accent, Settings, Tone};
use tonekit_core::{Refusal, Rejection, layout};
use tonekit_pack::{PackView, load_pack};
use tonekit_sheet::row_count;
use tonekit_sheet_plan::rows::sort_accents;
use tonekit_sheet_plan::{Plan, Rows};

// The bytes of all lists with their components.
fn lists_size(plan: &Plan<'_>) -> usize
    ensures { (result ≡ length (lists_part (planned_by plan.now))) × (result ≤ 128 * list_most) }
{
    let mut total: usize = 0;
    for e in plan.lists.as_slice() {
        let count = e.listing(plan.bytes).count;
        total += layout::SHEET_LIST_SIZE + layout::SHEET_COMPONENT_SIZE * count;
    }
    total
}

// How many bytes a sheet has: those before a row past the last, the lists, and the end.
fn needed(d: &Draft<'_>) -> usize
    ensures { result ≡ length (sheet_of d.now) }
{
    let tones = d.rows.view.pack.tones.count;
    let accents = d.rows.accents.count;
    let rows = row_count(accents, tones);
    layout::sheet_row_at(tones, accents, rows) + lists_size(d.plan) + layout::SHEET_END_SIZE
}

// The bytes of a sheet, at the front of a buffer that is long enough.
fn fill(d: &Draft<'_>, out: &mut [u8]) -> usize
    requires { Lent (sheet_of d.now) 0 out.old }
    ensures { Wrote (sheet_of d.now) 0 out.old out.new result }
{
    let v = d.rows.view;
    let tones = parts::write_record::<Settings>(v.bytes, 0, out, 0);
    let accents = parts::write_records::<Tone>(v.bytes, v.pack.tones.offsets(), out, tones);
    let rows = parts::write_records::<Accent>(v.bytes, d.rows.accents.offsets(), out, accents);
    let lists = parts::write_rows(d, out, rows);
    let end = parts::write_lists(d.plan, out, lists);
    parts::write_end(out, end)
}

// Writes the sheet of a pack that was read, or answers the length that it needs and leaves the buffer
// as it was.
fn write_loaded(view: PackView<'_>, out: &mut [u8]) -> Result<usize, Rejection>
    requires { Reads view.bytes.now (records_of view.pack) }
    ensures { Delivers (written (sheet (source_of_pack view.entry.bytes.now (records_of view.entry.pack)))) out.old result out.new }
{
    let rows = Rows {
        view,
        accents: sort_accents(view),
    };
    let mut plan = Plan::empty(view.bytes);
    plan.note_rows(&rows);
    let draft = Draft { rows, plan: &plan };
    let size = needed(&draft);
    if out.len() < size {
        return Err(Refusal::ShortBuffer.at(size));
    }
    fill(&draft, out);
    Ok(size)
}

// Writes a pack's sheet to a lent buffer: how many bytes, or why not and where. A buffer that is too
// short is refused with the length needed, and no refusal alters it.
pub fn write_sheet(pack: &[u8], out: &mut [u8]) -> Result<usize, Rejection>
    ensures { Delivers (sheet_outcome pack.now) out.old result out.new }
{
    let loaded = load_pack(pack)?;
    let view = PackView {
        bytes: pack,
        pack: loaded.held,
    };
    write_loaded(view, out)
}
