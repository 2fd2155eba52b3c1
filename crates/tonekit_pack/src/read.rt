// A pack as a file of records: what is said of one record, and what is kept of it.
ghost use Rattle.std.specs.Prelude.{◌≡◌, ◌+◌, ◌<◌, ◌≤◌, eqb, length, replicate};
ghost use Rattle.tonekit_core.specs.declared.layout.TheConstants.{TONE_SIZE, ACCENT_SIZE, PART_SIZE, TONE_KIND, ACCENT_KIND, RULE_KIND, PART_KIND, END_KIND};
ghost use Rattle.spec_arithmetic.specs.Fields.{byte_at};
ghost use Rattle.tonekit_pack.specs.Kinds.{number, last_of};
ghost use Rattle.spec_pack.specs.Pack.{due_after, size_of, holds, zero_or_held, in_turn, settings_verdict, tone_verdict, tail_verdict, accent_verdict, rule_verdict, single, part_verdict, body_verdict, record_verdict, added, read_pack, pack_reader};
ghost use Rattle.tonekit_pack.specs.Held.{records_of, answered};
ghost use Rattle.tonekit_pack.specs.Going.{Going, judges, refuses};

use crate::format::Format;
use crate::{Kind, Loaded, Pack};
use tonekit_bytes::places::{Offsets, index_of};
use tonekit_bytes::{byte_at, f32_at, u32_at};
use tonekit_core::{Refusal, Rejection, layout, limits};
use tonekit_ranges::{
    above_zero, knots_fine, probability_fine, region_fine, tails_fine, tolerances_fine, weight_fine,
};

// Whether one of the records at these offsets has x as its number.
#[tactic(auto, using(crate::proofs::Numbers::holds_found))]
fn holds(s: &[u8], places: &[u16], x: u8) -> bool
    ensures { result ≡ holds s.now places.now x }
{
    index_of(s, places, x).is_some()
}

// 0, or the number of one of the records at these offsets.
#[tactic(auto, unfolding(spec_pack::specs::Pack::zero_or_held))]
fn zero_or_held(s: &[u8], places: &[u16], x: u8) -> bool
    ensures { result ≡ zero_or_held s.now places.now x }
{
    (x == 0) | holds(s, places, x)
}

// One test after another: the first that fails decides.
pub fn in_turn(crowded: bool, fine: bool, new: bool, held: bool) -> Result<(), Refusal>
    ensures { result ≡ in_turn crowded fine new held }
{
    if crowded {
        return Err(Refusal::Crowded);
    }
    if !fine {
        return Err(Refusal::OffScale);
    }
    if !new {
        return Err(Refusal::Doubled);
    }
    if !held {
        return Err(Refusal::Loose);
    }
    Ok(())
}

// What is said of a record of each kind that is due and whole, here and below. Every test is made, since only the last record read
// can fail one. Settings: temperature and threshold.
#[tactic(auto, unfolding(spec_pack::specs::Pack::settings_verdict))]
pub fn settings_verdict(s: &[u8], o: usize) -> Result<(), Refusal>
    ensures { result ≡ settings_verdict s.now o }
{
    let fine = above_zero(f32_at(s, o, layout::SETTINGS_TEMPERATURE))
        & probability_fine(f32_at(s, o, layout::SETTINGS_THRESHOLD));
    in_turn(false, fine, true, true)
}

// A tail: both values. Sheets have it too.
#[tactic(auto, unfolding(spec_pack::specs::Pack::tail_verdict))]
pub fn tail_verdict(s: &[u8], o: usize) -> Result<(), Refusal>
    ensures { result ≡ tail_verdict s.now o }
{
    in_turn(false, tails_fine(s, o), true, true)
}

impl Pack {
    // Before the first record.
    #[tactic(auto, unfolding(tonekit_bytes::specs::Places::in_order))]
    pub fn nothing() -> Pack
        ensures read { records_of result ≡ pack_reader.start.st }
        ensures tones { result.tones.at ≡ replicate 8 0 }
        ensures accents { (result.accents.at ≡ replicate 8 0) × (result.firstrule ≡ replicate 8 0) }
        ensures rules { result.rules.at ≡ replicate 64 0 }
    {
        Pack {
            last: None,
            tones: Offsets::none(),
            accents: Offsets::none(),
            rules: Offsets::none(),
            firstrule: [0; 8],
            parts: 0,
            total: 0,
        }
    }

    // A tone: number, prior, knots, region.
    // Stays: a sheet's tone has no knots and its fields at other places, so one for both would take all places as arguments.
    #[tactic(auto, unfolding(spec_pack::specs::Pack::tone_verdict))]
    fn tone_verdict(&self, s: &[u8], o: usize) -> Result<(), Refusal>
        requires { o + TONE_SIZE ≤ length s.now }
        ensures { result ≡ tone_verdict s.now o (records_of self.now) }
    {
        let number = byte_at(s, o, layout::OWN_NUMBER);
        let share = probability_fine(f32_at(s, o, layout::TONE_PRIOR));
        let knots = byte_at(s, o, layout::TONE_KNOT_COUNT);
        let curve = knots_fine(s, o + layout::TONE_KNOTS, knots);
        let region = region_fine(s, o + layout::TONE_REGION);
        let crowded = (limits::TONES <= self.tones.len()) | (limits::KNOTS < knots);
        let fine = (number != 0) & (share & (curve & region));
        let new = !holds(s, self.tones.offsets(), number);
        in_turn(crowded, fine, new, true)
    }

    // An accent: number, tolerances. Its parent may stand later in the file, so `end_verdict` judges it.
    // Stays: a tone has other fields at other places.
    #[tactic(auto, unfolding(spec_pack::specs::Pack::accent_verdict))]
    fn accent_verdict(&self, s: &[u8], o: usize) -> Result<(), Refusal>
        requires { o + ACCENT_SIZE ≤ length s.now }
        ensures { result ≡ accent_verdict s.now o (records_of self.now) }
    {
        let number = byte_at(s, o, layout::OWN_NUMBER);
        let fine = (number != 0) & tolerances_fine(s, o + layout::ACCENT_CONTOUR);
        let new = !holds(s, self.accents.offsets(), number);
        in_turn(limits::ACCENTS <= self.accents.len(), fine, new, true)
    }

    // A rule: tone, prev, final, form.
    #[tactic(auto, unfolding(spec_pack::specs::Pack::rule_verdict))]
    fn rule_verdict(&self, s: &[u8], o: usize) -> Result<(), Refusal>
        ensures { result ≡ rule_verdict s.now o (records_of self.now) }
    {
        let tones = self.tones.offsets();
        let tone = byte_at(s, o, layout::RULE_TONE);
        let prev = byte_at(s, o, layout::RULE_PREV);
        let last = byte_at(s, o, layout::RULE_FINAL);
        let form = byte_at(s, o, layout::RULE_FORM);
        let fine = (last <= 2) & ((form == layout::SINGLE_FORM) | (form == layout::MIXTURE_FORM));
        let held = zero_or_held(s, tones, tone) & zero_or_held(s, tones, prev);
        in_turn(limits::RULES <= self.rules.len(), fine, true, held)
    }

    // Whether the last rule is single.
    fn single(&self, s: &[u8]) -> bool
        ensures { result ≡ single s.now (records_of self.now) }
    {
        byte_at(s, self.rules.last(), layout::RULE_FORM) == layout::SINGLE_FORM
    }

    // A part: weight and knots; of a single rule the first alone, of weight 1.
    #[tactic(auto, unfolding(spec_pack::specs::Pack::part_verdict))]
    fn part_verdict(&self, s: &[u8], o: usize) -> Result<(), Refusal>
        requires { o + PART_SIZE ≤ length s.now }
        ensures { result ≡ part_verdict s.now o (records_of self.now) }
    {
        let weight = u32_at(s, o, layout::PART_WEIGHT);
        let knots = byte_at(s, o, layout::PART_KNOT_COUNT);
        let one = self.single(s);
        let curve = knots_fine(s, o + layout::PART_KNOTS, knots);
        let crowded = (limits::PARTS_OF_A_RULE <= self.parts)
            | ((limits::PARTS <= self.total)
                | ((one & (1 <= self.parts)) | (limits::KNOTS < knots)));
        let fine = weight_fine(weight)
            & ((!one | (weight == 0x3f80_0000)) & ((knots != 0) & curve));
        in_turn(crowded, fine, true, true)
    }

    // Keeps the record of kind k at o, once it is fine.
    #[tactic(auto, using(tonekit_bytes::proofs::InOrder::order_length, tonekit_bytes::proofs::InOrder::order_set, tonekit_bytes::proofs::InOrder::set_bounded), unfolding(spec_pack::specs::Pack::added))]
    pub fn keep(&mut self, k: Kind, o: usize)
        requires { (o < 65536) × (number k ≡ TONE_KIND → self.old.tones.count < 8) × (number k ≡ ACCENT_KIND → self.old.accents.count < 8)
            × (number k ≡ RULE_KIND → self.old.rules.count < 64) × (number k ≡ PART_KIND → (self.old.parts < 4) × (self.old.total < 128)) }
        ensures { records_of self.new ≡ added (number k) o (records_of self.old) }
    {
        self.last = Some(k);
        match k {
            Kind::Tone => self.tones.add(o as u16),
            Kind::Accent => {
                self.firstrule[self.accents.count] = self.rules.count as u8;
                self.accents.add(o as u16);
            }
            Kind::Rule => {
                self.rules.add(o as u16);
                self.parts = 0;
            }
            Kind::Part => {
                self.parts += 1;
                self.total += 1;
            }
            Kind::Settings | Kind::Tail | Kind::End => {}
        }
    }
}

impl Format for Pack {
    type Kind = Kind;

    ghost number = { number };

    ghost last = { λ n. eqb n END_KIND };

    ghost due = { λ p n. due_after (last_of p.last) n };

    ghost size = { size_of };

    ghost tests = { λ p s o n. body_verdict n s o (records_of p) };

    ghost verdict = { λ s o p. record_verdict s o (records_of p) };

    ghost so_far = { λ s o p. Going s p o };

    ghost reads = { λ s r. answered r ≡ read_pack s };

    ghost judges = { λ s o p. judges s o (records_of p) };

    ghost refuses = { λ s o p r g v. refuses s p o g r v };

    #[tactic(auto, using(crate::proofs::Reading::begins))]
    fn nothing() -> Pack {
        Pack::nothing()
    }

    #[tactic(auto, using(crate::proofs::ByKind::kind_number, crate::proofs::ByKind::no_kind))]
    fn next(&self, n: u8) -> Option<Kind> {
        match Kind::try_from(n) {
            Ok(k) if k.due(self.last) => Some(k),
            _ => None,
        }
    }

    #[tactic(auto, using(crate::proofs::Records::size_pos))]
    fn size(k: Kind) -> usize {
        k.size()
    }

    #[tactic(auto, unfolding(spec_pack::specs::Pack::body_verdict, spec_pack::specs::Pack::size_of))]
    fn tests(&self, k: Kind, s: &[u8], o: usize) -> Result<(), Refusal> {
        match k {
            Kind::Settings => settings_verdict(s, o),
            Kind::Tone => self.tone_verdict(s, o),
            Kind::Tail => tail_verdict(s, o),
            Kind::Accent => self.accent_verdict(s, o),
            Kind::Rule => self.rule_verdict(s, o),
            Kind::Part => self.part_verdict(s, o),
            Kind::End => Ok(()),
        }
    }

    fn ends(k: Kind) -> bool {
        matches!(k, Kind::End)
    }

    fn add(&mut self, k: Kind, s: &[u8], o: usize) {
        self.keep(k, o);
    }

    fn finish(self, s: &[u8], o: usize) -> Result<Loaded<Pack>, Rejection> {
        if let Err(why) = self.end_verdict(s) {
            return Err(why.at(o));
        }
        Ok(Loaded {
            held: self,
            end: o + layout::END_SIZE,
        })
    }
}
