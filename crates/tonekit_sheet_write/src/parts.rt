// The parts of a sheet, each written at a place of what is lent: where the next begins is answered.
ghost use Rattle.std.specs.Prelude.{[], ◌∷◌, ◌+◌, ◌≤◌, ◌<◌, length};
ghost use Rattle.tonekit_core.specs.declared.layout.TheConstants.{SHEET_ROW_SIZE, SHEET_LIST_SIZE, SHEET_COMPONENT_SIZE};
ghost use Rattle.tonekit_core.specs.declared.layout.TheConstants.{SHEET_END_KIND, SHEET_END_SIZE};
ghost use Rattle.spec_sheet.specs.Pieces.{Wrote};
ghost use Rattle.tonekit_sheet_plan.specs.Plans.{planned_by};
ghost use Rattle.tonekit_sheet_write.specs.Pieces.{Lent, head_of, component_piece, planned_list};
ghost use Rattle.tonekit_sheet_write.specs.Pieces.{records_part, lists_part, components_part};
ghost use Rattle.tonekit_sheet_write.specs.Drafts.{row_of, rows_of};

use crate::draft::Draft;
use crate::records::{Record, put_component, put_head, put_row};
use tonekit_core::layout;
use tonekit_expect::Listing;
use tonekit_sheet::row_count;
use tonekit_sheet_plan::{Curves, Plan};

// The record that is made of the pack's at o.
// Stays: where it is read and where it goes are apart, and what is lent begins behind the record before; a struct of both would be made anew for each.
pub fn write_record<R: Record>(s: &[u8], o: usize, out: &mut [u8], at: usize) -> usize
    requires { Lent (R.made s.now o) at out.old }
    ensures { Wrote (R.made s.now o) at out.old out.new result }
{
    at + R::put(s, o, &mut out[at..])
}

// The records that are made of the pack's at these offsets.
// Stays: this loop, and one each for rows, components and lists, of five lines each. One for all would take a trait of numbered parts (two ghosts, how many there are, and the call that writes one), itself, and four impls of eight lines or more, one of them for a struct of a pack's bytes and offsets.
pub fn write_records<R: Record>(s: &[u8], offsets: &[u16], out: &mut [u8], at: usize) -> usize
    requires { Lent (records_part R.made s.now offsets.now) at out.old }
    ensures { Wrote (records_part R.made s.now offsets.now) at out.old out.new result }
{
    let mut next = at;
    for o in offsets {
        next = write_record::<R>(s, usize::from(*o), out, next);
    }
    next
}

// Row r: its context, and the numbers of what its two lookups give.
fn write_row(d: &Draft<'_>, r: usize, out: &mut [u8], at: usize) -> usize
    requires { at + SHEET_ROW_SIZE ≤ length out.old }
    ensures { Wrote (row_of d.now r) at out.old out.new result }
{
    let c = d.rows.context(r, false);
    let first = d.plan.number_of(d.rows.look(r, false));
    let second = d.plan.number_of(d.rows.look(r, true));
    put_row(&mut out[at..], c, first, second);
    at + layout::SHEET_ROW_SIZE
}

// All rows.
// Stays: a row is made of its number, not of a record of the pack; see `write_records`.
pub fn write_rows(d: &Draft<'_>, out: &mut [u8], at: usize) -> usize
    requires { Lent (rows_of d.now) at out.old }
    ensures { Wrote (rows_of d.now) at out.old out.new result }
{
    let mut o = at;
    for i in 0..row_count(d.rows.accents.count, d.rows.view.pack.tones.count) {
        o = write_row(d, i, out, o);
    }
    o
}

// Component j of these curves.
fn write_component(c: Curves<'_>, j: usize, out: &mut [u8], at: usize) -> usize
    requires { (j < c.listing.count) × (at + SHEET_COMPONENT_SIZE ≤ length out.old) }
    ensures { Wrote (component_piece c.entry.bytes.now c.entry.listing j) at out.old out.new result }
{
    put_component(&mut out[at..], c.component(j));
    at + layout::SHEET_COMPONENT_SIZE
}

// All components of these curves.
// Stays: a component is drawn by its number, and none is held; see `write_records`.
fn write_components(c: Curves<'_>, out: &mut [u8], at: usize) -> usize
    requires { Lent (components_part c.bytes.now c.listing) at out.old }
    ensures { Wrote (components_part c.entry.bytes.now c.entry.listing) at out.old out.new result }
{
    let mut o = at;
    for j in 0..c.listing.count {
        o = write_component(c, j, out, o);
    }
    o
}

// The head of list i.
fn write_head(l: Listing, i: usize, out: &mut [u8], at: usize) -> usize
    requires { (l.count ≤ 4) × (i < 128) × (at + SHEET_LIST_SIZE ≤ length out.old) }
    ensures { Wrote (head_of (i + 1) l) at out.old out.new result }
{
    put_head(&mut out[at..], (i + 1) as u8, l);
    at + layout::SHEET_LIST_SIZE
}

// List i with its components.
fn write_list(plan: &Plan<'_>, i: usize, out: &mut [u8], at: usize) -> usize
    requires { (i < length plan.now.lists.items) × (i < 128) × Lent (planned_list (planned_by plan.now) i) at out.old }
    ensures { Wrote (planned_list (planned_by plan.now) i) at out.old out.new result }
{
    let c = plan.curves(i);
    let o = write_head(c.listing, i, out, at);
    write_components(c, out, o)
}

// All lists, by number.
// Stays: a list's number is its place, which is written beside it; see `write_records`.
pub fn write_lists(plan: &Plan<'_>, out: &mut [u8], at: usize) -> usize
    requires { Lent (lists_part (planned_by plan.now)) at out.old }
    ensures { Wrote (lists_part (planned_by plan.now)) at out.old out.new result }
{
    let mut o = at;
    for i in 0..plan.lists.len() {
        o = write_list(plan, i, out, o);
    }
    o
}

// The end.
pub fn write_end(out: &mut [u8], at: usize) -> usize
    requires { at + SHEET_END_SIZE ≤ length out.old }
    ensures { Wrote (SHEET_END_KIND ∷ []) at out.old out.new result }
{
    out[at] = layout::SHEET_END_KIND;
    at + layout::SHEET_END_SIZE
}
