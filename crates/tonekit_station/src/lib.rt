// The calls that a station makes.
#![tactic(auto)]

ghost use Rattle.std.specs.Prelude.{◌≡◌, ◌≤◌, not, eqb};
ghost use Rattle.std.specs.List.{list_all};
ghost use Rattle.tonekit_core.specs.Calls.{Delivers};
ghost use Rattle.spec_judgement.specs.Input.{held_of, query_of};
ghost use Rattle.spec_judgement.specs.Asked.{Counted};
ghost use Rattle.spec_judgement.specs.Inventory.{count_in};
ghost use Rattle.tonekit_inventory.specs.Gathers.{gathering_of};
ghost use Rattle.spec_judgement.specs.Judgement.{tones_verdict, query_verdict, judge_gathered, judge_outcome, station_outcome};
ghost use Rattle.tonekit_station.specs.Asks.{context_of};
ghost use Rattle.tonekit_station.specs.Held.{on_held};
ghost use Rattle.spec_sheet.specs.JudgeSheet.{judge_sheet_outcome, station_sheet_outcome};

use spec_judgement::Tolerance;
use tonekit_core::{Refusal, Rejection};
use tonekit_expect::Context;
use tonekit_inventory::{Gathered, Held, HeldPack};
use tonekit_judge::{Inventory, Slot, Slots};
use tonekit_query::Query;
use tonekit_sheet_inventory::HeldSheet;

// The context that a query is judged in.
fn context_of(q: Query) -> Context
    ensures { result ≡ context_of q }
{
    Context {
        accent: q.accent,
        tone: q.tone,
        prev: q.prev,
        last: q.last,
    }
}

// Whether every inventory tone has a component.
fn all_listed(inventory: &Inventory) -> bool
    ensures { result ≡ list_all (λ e. not (eqb (count_in e.listing) 0)) inventory.now.items }
{
    inventory
        .iter()
        .all(|entry| tonekit_judge::count_of(entry) != 0)
}

// Refusal 14 where some inventory tone has no component.
#[tactic(auto, unfolding(spec_judgement::specs::Judgement::tones_verdict))]
fn tones_verdict(inventory: &Inventory) -> Result<(), Refusal>
    ensures { result ≡ tones_verdict inventory.now }
{
    if !all_listed(inventory) {
        return Err(Refusal::NoRealisation);
    }
    Ok(())
}

// Refusals 11 to 15 but for targets, of so many voiced frames and of what was gathered; else the
// tolerances of the accent.
#[tactic(auto, unfolding(spec_judgement::specs::Judgement::query_verdict))]
fn query_verdict(voiced: usize, g: &Gathered, query: &[u8], q: Query) -> Result<Tolerance, Refusal>
    requires { q.variants ≤ 4 }
    ensures { result ≡ query_verdict voiced g.now.tolerance g.now.prev g.now.inventory query.now q }
{
    if voiced < 3 {
        return Err(Refusal::Unvoiced);
    }
    let Some(tolerance) = g.tolerance else {
        return Err(Refusal::UnknownAccent);
    };
    if !g.prev {
        return Err(Refusal::UnknownTone);
    }
    tones_verdict(&g.inventory)?;
    if !tonekit_target::variants_good(query, q.variants) {
        return Err(Refusal::BadVariant);
    }
    Ok(tolerance)
}

// The judgement of a query that loads, by what a station gathered for its context: refusals 11 to 15
// and 9, or the record. The slots are as whoever gathered them made them.
fn judge_gathered(
    g: &Gathered,
    slots: &Slots,
    query: &[u8],
    q: Query,
    out: &mut [u8],
) -> Result<usize, Rejection>
    requires { Counted g.now.inventory × (q.count ≤ 1024) × (q.variants ≤ 4) }
    ensures { Delivers (judge_gathered (gathering_of g.now slots.now) query.now q) out.old result
        out.new }
{
    let frames = tonekit_query::frames(query, q);
    let e = tonekit_shape::voiced_frames(frames, q);
    let tolerance = match query_verdict(e.count, g, query, q) {
        Ok(tolerance) => tolerance,
        Err(r) => return Err(r.at(0)),
    };
    let Ok(targets) = tonekit_target::targets_of(&g.inventory, query, q.tone, q.variants) else {
        return Err(Refusal::UnknownTone.at(0));
    };
    let r = tonekit_register::in_register(frames, q);
    let x = tonekit_shape::shape_of(frames, e, r);
    let issues = tonekit_shape::united(r.issues, x.frames);
    let j = tonekit_judge::judgement_of(
        x,
        g.settings,
        tolerance,
        &g.inventory,
        slots,
        &targets,
        issues,
    );
    let record = tonekit_record::record_of(q.tone, g.inventory.len() as u8, j);
    tonekit_bytes::write_record(out, &record)
}

// Judges a query against what some bytes hold, as a pack or as a sheet, and writes the record of 64
// bytes. Refuses what the readers refuse, the bytes' first, then 11 to 15 and a short buffer (9, with
// the length needed); then the buffer is as it was.
pub fn judge_held<'a, H: Held<'a>>(
    held: &'a [u8],
    query: &[u8],
    out: &mut [u8],
) -> Result<usize, Rejection>
    ensures { Delivers (on_held (H.loads held.now) query.now) out.old result out.new }
{
    let h = H::load(held)?;
    let q = tonekit_query::load_query(query)?;
    let blank = Slot {
        weight: 0.0,
        points: [0.0; 10],
    };
    let mut slots = Slots { list: [blank; 32] };
    let g = tonekit_inventory::gather(&h, context_of(q), &mut slots);
    judge_gathered(&g, &slots, query, q, out)
}

// Judges a query against a pack.
// Stays: `judge` and `judge_sheet` are the two uses of `judge_held`, one line each; the C interface calls them by these names.
pub fn judge(pack: &[u8], query: &[u8], out: &mut [u8]) -> Result<usize, Rejection>
    ensures { Delivers (judge_outcome pack.now query.now) out.old result
        out.new }
{
    judge_held::<HeldPack>(pack, query, out)
}

// Judges a query against a sheet, as `judge` does against a pack.
// Stays: the other use of `judge_held`.
pub fn judge_sheet(sheet: &[u8], query: &[u8], out: &mut [u8]) -> Result<usize, Rejection>
    ensures { Delivers (judge_sheet_outcome sheet.now query.now) out.old result
        out.new }
{
    judge_held::<HeldSheet>(sheet, query, out)
}

// What a program does with its input: u16 length, what is held, query.
pub fn judge_parts<'a, H: Held<'a>>(input: &'a [u8], out: &mut [u8]) -> Result<usize, Rejection>
    ensures { Delivers (on_held (H.loads (held_of input.now)) (query_of input.now)) out.old result
        out.new }
{
    judge_held::<H>(
        tonekit_input::held_part(input),
        tonekit_input::query_part(input),
        out,
    )
}

// What the program `station` does with its input: u16 pack length, pack, query.
// Stays: no program calls this, since `station` goes by `judge_parts`; the new form is `judge_parts`, and this line states `station_outcome` of it under
// the name that README has.
pub fn judge_input(input: &[u8], out: &mut [u8]) -> Result<usize, Rejection>
    ensures { Delivers (station_outcome input.now) out.old result out.new }
{
    judge_parts::<HeldPack>(input, out)
}

// What the program `station_sheet` does, with a sheet in the pack's place.
// Stays: as `judge_input`, of `station_sheet_outcome`.
pub fn judge_sheet_input(input: &[u8], out: &mut [u8]) -> Result<usize, Rejection>
    ensures { Delivers (station_sheet_outcome input.now) out.old result out.new }
{
    judge_parts::<HeldSheet>(input, out)
}
