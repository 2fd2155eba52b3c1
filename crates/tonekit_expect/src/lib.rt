// The lookup, as in the Rust's expect.rs: which curves a context takes, each drawn out to ten points.
#![tactic(auto)]

ghost use Rattle.std.specs.Prelude.{◌≡◌, ℕ, ◌+◌, ◌*◌, ◌≤◌, ◌<◌, None, false, cond, T, eqb, pos, get_or};
ghost use Rattle.std.specs.Float.{fin, nan};
ghost use Rattle.std.specs.Float.Ieee.{le, lt};
ghost use Rattle.tonekit_core.specs.declared.layout.TheConstants.{MIXTURE_FORM};
ghost use Rattle.tonekit_core.specs.Loop.{range};
ghost use Rattle.spec_arithmetic.specs.Places.{index_of};
ghost use Rattle.tonekit_pack.specs.Held.{records_of};
ghost use Rattle.spec_lookup.specs.Knots.{on_line, point_at, expanded, knots_at, Point, Knots};
ghost use Rattle.spec_pack.specs.Pack.{parts_from};
ghost use Rattle.spec_lookup.specs.Lookup.{final_of, meets, matches, stated, specificity, better_of, best_rule, find_rule, rule_listing, citation, listed, look_up, component_of};
ghost use Rattle.tonekit_expect.specs.Pieces.{best_turn, WithinPack, Listed, knot_before};

pub use spec_lookup::{Component, Context, Listing, Winner};
use tonekit_bytes::places::index_of;
use tonekit_bytes::{byte_at, f32_at, u16_at};
use tonekit_core::{Name, layout};
use tonekit_float::{f64_of, floor_index, narrow};
use tonekit_pack::PackView;

// The place of the accent with number n among a pack's accents, or none.
// Stays: accents and tones are one call each of the one search, which takes the offsets already; the two names say whose.
pub fn accent_index(v: PackView<'_>, n: u8) -> Option<usize>
    ensures { result ≡ index_of v.entry.bytes.now (records_of v.entry.pack).accents n }
{
    index_of(v.bytes, v.pack.accents.offsets(), n)
}

// The place of the tone with number n among a pack's tones, or none.
// Stays: see `accent_index`.
pub fn tone_index(v: PackView<'_>, n: u8) -> Option<usize>
    ensures { result ≡ index_of v.entry.bytes.now (records_of v.entry.pack).tones n }
{
    index_of(v.bytes, v.pack.tones.offsets(), n)
}

// Whether a condition allows a value: 0 allows any.
#[tactic(auto, unfolding(spec_lookup::specs::Lookup::meets))]
fn meets(c: u8, x: u8) -> bool
    ensures { result ≡ meets c x }
{
    c == 0 || c == x
}

// What a rule's final says of this phrase position, where it says anything.
// Stays: `meets` compares a rule's byte with it, 0 for any, as with a tone's number; an enum would be turned back to that byte.
fn final_of(c: Context) -> u8
    ensures { result ≡ final_of c }
{
    if c.last { 2 } else { 1 }
}

// Whether the rule at r matches the context.
#[tactic(auto, unfolding(spec_lookup::specs::Lookup::matches))]
fn matches(s: &[u8], c: Context, r: usize) -> bool
    ensures { result ≡ matches s.now c r }
{
    meets(byte_at(s, r, layout::RULE_TONE), c.tone)
        && meets(byte_at(s, r, layout::RULE_PREV), c.prev)
        && meets(byte_at(s, r, layout::RULE_FINAL), final_of(c))
}

// 1 for a condition that is stated.
fn stated(c: u8) -> usize
    ensures { (result ≡ stated c) × (result ≤ 1) }
{
    usize::from(c != 0)
}

// How many conditions a rule states.
#[tactic(auto, unfolding(spec_lookup::specs::Lookup::specificity))]
fn specificity(s: &[u8], r: usize) -> usize
    ensures { result ≡ specificity s.now r }
{
    stated(byte_at(s, r, layout::RULE_TONE))
        + stated(byte_at(s, r, layout::RULE_PREV))
        + stated(byte_at(s, r, layout::RULE_FINAL))
}

// The rule at r where it matches and states more than the best so far, else that one.
#[tactic(auto, unfolding(spec_lookup::specs::Lookup::better_of))]
fn better(s: &[u8], c: Context, best: Option<usize>, r: usize) -> Option<usize>
    ensures { result ≡ better_of s.now c best r }
{
    if matches(s, c, r) {
        match best {
            None => {
                return Some(r);
            }
            Some(b) => {
                if specificity(s, b) < specificity(s, r) {
                    return Some(r);
                }
            }
        }
    }
    best
}

// The offset of rule k, 0 past the last.
// Stays: beside tonekit_sheet_plan's `number_at`, which goes on to the record's number; what the two share is std's `get`.
fn rule_at(at: &[u16], k: usize) -> usize
    ensures { result ≡ get_or at.now k 0 }
{
    match at.get(k) {
        Some(o) => usize::from(*o),
        None => 0,
    }
}

// The best of the rules from one place to another.
// Stays: of a pack that no reader made, `from..to` may go past the offsets, where each turn has offset 0 by the definition; a slice of them would end before.
fn best_among(s: &[u8], c: Context, at: &[u16], from: usize, to: usize) -> Option<usize>
    ensures { result ≡ range (best_turn s.now at.now c) from to None }
{
    let mut best = None;
    for k in from..to {
        best = better(s, c, best, rule_at(at, k));
    }
    best
}

// The best of accent i's own rules.
fn best_rule(v: PackView<'_>, c: Context, i: usize) -> Option<usize>
    requires { i < v.pack.accents.count }
    ensures { result ≡ best_rule v.entry.bytes.now (records_of v.entry.pack) c i }
{
    let from = usize::from(v.pack.firstrule[i]);
    let to = if i + 1 < v.pack.accents.count {
        usize::from(v.pack.firstrule[i + 1])
    } else {
        v.pack.rules.count
    };
    best_among(v.bytes, c, v.pack.rules.offsets(), from, to)
}

// The rule that a walk from accent i up its parents ends with: the best of the first accent that has
// one that matches; i is the place of one of the pack's accents.
pub fn find_rule(v: PackView<'_>, c: Context, i: usize) -> Option<Winner>
    requires { i < v.pack.accents.count }
    ensures { result ≡ find_rule v.entry.bytes.now (records_of v.entry.pack) c i }
{
    let mut a = i;
    for _ in 0..v.pack.accents.count {
        if let Some(r) = best_rule(v, c, a) {
            return Some(Winner { accent: a, rule: r });
        }
        a = v.pack.parent_index(v.bytes, a)?;
    }
    None
}

// How many parts follow a rule that ends at o, at most 4.
// Stays: a part's is the one kind that is asked for; by tonekit_pack's Kind each byte would first become a Result.
fn parts_from(s: &[u8], o: usize) -> usize
    ensures { result ≡ parts_from 4 s.now o }
{
    for n in 0..4 {
        if byte_at(s, o, layout::PART_SIZE * n) != layout::PART_KIND {
            return n;
        }
    }
    4
}

// The rule at r with its parts, under its owner's number. A pack's offsets fit 16 bits.
pub fn rule_listing(s: &[u8], owner: u8, r: usize) -> Listing
    requires { r < 65536 }
    ensures { result ≡ rule_listing s.now owner r }
{
    let name = Name {
        owner,
        form: byte_at(s, r, layout::RULE_FORM),
        label: u16_at(s, r, layout::RULE_LABEL),
    };
    let at = r + layout::RULE_SIZE;
    Listing {
        name,
        at,
        count: parts_from(s, at),
    }
}

// The citation of the tone at o, under an accent's number.
pub fn citation(owner: u8, o: usize) -> Listing
    ensures { result ≡ citation owner o }
{
    let name = Name {
        owner,
        form: layout::CITATION_FORM,
        label: 0,
    };
    Listing {
        name,
        at: o,
        count: 1,
    }
}

// What the winning rule gives, or the citation of the tone at o.
fn listing_of(v: PackView<'_>, c: Context, o: usize, w: Option<Winner>) -> Option<Listing>
    requires { WithinPack v.pack.accents.count w }
    ensures { result ≡ listed v.entry.bytes.now (records_of v.entry.pack) c o w }
{
    match w {
        Some(w) => {
            let a = usize::from(v.pack.accents.at[w.accent]);
            let owner = byte_at(v.bytes, a, layout::OWN_NUMBER);
            Some(rule_listing(v.bytes, owner, w.rule))
        }
        None => {
            if byte_at(v.bytes, o, layout::TONE_KNOT_COUNT) == 0 {
                return None;
            }
            Some(citation(c.accent, o))
        }
    }
}

// The curves of a context: those of the rule that its walk found, else the tone's citation; nothing
// where that is for contexts only, or accent or tone is not held.
pub fn look_up(v: PackView<'_>, c: Context) -> Option<Listing>
    ensures { result ≡ look_up v.entry.bytes.now (records_of v.entry.pack) c }
{
    let i = accent_index(v, c.accent)?;
    let t = tone_index(v, c.tone)?;
    let o = usize::from(v.pack.tones.at[t]);
    listing_of(v, c, o, find_rule(v, c, i))
}

// The knot at or before a position, but never the last one.
fn segment(x: f64, last: usize) -> usize
    requires { T (le (fin false 0 (pos 0)) x) × T (lt x (fin false 1 (pos 53))) × (1 ≤ last) }
    ensures { (result ≡ knot_before x last) × (result + 1 ≤ last) }
{
    floor_index(x).min(last - 1)
}

// The point at t of the line from a to b.
#[tactic(auto, unfolding(spec_lookup::specs::Knots::on_line))]
fn on_line(a: f32, b: f32, t: f64) -> f32
    ensures { result ≡ on_line a b t }
{
    narrow(f64::from(a) + t * f64::from(b - a))
}

// Point i of ten.
#[tactic(auto, unfolding(spec_lookup::specs::Knots::point_at, spec_lookup::specs::Knots::past_knot, spec_lookup::specs::Knots::segment))]
fn point(knots: &[f32], i: usize) -> f32
    requires { Knots knots.now × (i < 10) }
    ensures { result ≡ point_at knots.now i }
{
    let last = knots.len() - 1;
    if last == 0 {
        return knots[0];
    }
    if knots.len() == 10 {
        return knots[i];
    }
    if i == 9 {
        return knots[last];
    }
    let x = tonekit_contour::position(i, last);
    let j = segment(x, last);
    on_line(knots[j], knots[j + 1], x - f64_of(j))
}

// The knots, at equal distances, drawn out to ten points by straight lines. There are one to ten, of
// size at most 100, as in every record that loads: no others have a curve.
pub fn expand_knots(knots: &[f32]) -> [f32; 10]
    requires { Knots knots.now }
    ensures { (result ≡ expanded knots.now) × ((k : ℕ) → k < 10 → Point (get_or result k nan)) }
{
    let mut out = [0.0f32; 10];
    for (i, x) in out.iter_mut().enumerate() {
        *x = point(knots, i);
    }
    out
}

// A part's number: its place in a mixture.
fn part_number(name: Name, j: usize) -> u8
    requires { j < 4 }
    ensures { result ≡ cond (eqb name.form MIXTURE_FORM) j 0 }
{
    if name.form == layout::MIXTURE_FORM {
        j as u8
    } else {
        0
    }
}

// The points of the n knots that stand from o on.
fn points_at(s: &[u8], o: usize, n: usize) -> [f32; 10]
    requires { Knots (knots_at s.now o n) }
    ensures { (result ≡ expanded (knots_at s.now o n)) × ((k : ℕ) → k < 10 → Point (get_or result k nan)) }
{
    let mut knots = [0.0f32; 10];
    for (k, x) in knots[..n].iter_mut().enumerate() {
        *x = f32_at(s, o, layout::F32_SIZE * k);
    }
    expand_knots(&knots[..n])
}

// Component j of a listing: a citation's, with weight 1, or a part of the rule. The listing is one
// that `look_up` gave for these bytes, and j below its count: no other has curves.
#[tactic(auto, unfolding(spec_lookup::specs::Lookup::component_of))]
pub fn component_at(s: &[u8], l: Listing, j: usize) -> Component
    requires { Listed s.now l j }
    ensures { (result ≡ component_of s.now l j) × ((k : ℕ) → k < 10 → Point (get_or result.points k nan)) }
{
    let name = l.name;
    if name.form == layout::CITATION_FORM {
        let n = usize::from(byte_at(s, l.at, layout::TONE_KNOT_COUNT));
        return Component {
            name,
            part: 0,
            weight: 1.0,
            points: points_at(s, l.at + layout::TONE_KNOTS, n),
        };
    }
    let o = l.at + layout::PART_SIZE * j;
    let n = usize::from(byte_at(s, o, layout::PART_KNOT_COUNT));
    Component {
        name,
        part: part_number(name, j),
        weight: f32_at(s, o, layout::PART_WEIGHT),
        points: points_at(s, o + layout::PART_KNOTS, n),
    }
}
