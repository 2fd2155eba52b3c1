// `judge` of the Rust: a shape against the looked-up components of every tone.
#![tactic(auto)]

ghost use Rattle.std.specs.Prelude.{◌≡◌, IfSome, ◌*◌, ◌≤◌, ◌<◌, cond, eqb, length};
ghost use Rattle.std.specs.List.{list_all};
ghost use Rattle.std.specs.Float.{binary64};
ghost use Rattle.std.specs.Float.Ieee.{add};
ghost use Rattle.std.specs.Float.Ieee.Scale.{finite};
ghost use Rattle.tonekit_core.specs.declared.Measured.TheVariants.{Full, Partial};
ghost use Rattle.spec_arithmetic.specs.Log.{ln_of};
ghost use Rattle.spec_judgement.specs.Asked.{Counted, TargetsHeld};
ghost use Rattle.spec_judgement.specs.Inventory.{count_in, name_in, entry_at, listing};
ghost use Rattle.spec_judgement.specs.Judge.{component_at};
ghost use Rattle.spec_judgement.specs.Judge.{tone_mixing, loglik_at, logliks, ranking_of, heard_of};
ghost use Rattle.spec_judgement.specs.Judge.{part_mixing, target_mixing, llr_of, plain_of};
ghost use Rattle.spec_judgement.specs.Judge.{distance_from, advice_of, nearest_at, judged_of};
ghost use Rattle.tonekit_judge.specs.Terms.{slot_part};
ghost use Rattle.spec_judgement.specs.Judge.{usable, not_measured, judgement_of};
ghost use Rattle.tonekit_judge.specs.Terms.{Filled, cell, weighed_term, term_at, mixed_terms};

use arrayvec::ArrayVec;
pub use spec_judgement::{
    Component, Inventory, Nearest, Ranking, Slot, Slots, Target, Targets, ToneEntry, ToneJudgement,
    ToneListing,
};
use tonekit_core::{MeasureIssue, Measured, Name, layout};
use tonekit_deltas::Deltas;
use tonekit_score::{Lead, LogSumExp, Mixing, Mixture, Region, Scoring, Settings, Term, Tolerance};
use tonekit_shape::ToneShape;

// What mixtures are made of: how a judgement scores, and each slot's component.
#[derive(Drop)]
struct Components {
    scoring: Scoring,
    list: [Component; 32],
}

// How many components were looked up for the tone.
pub fn count_of(entry: &ToneEntry) -> usize
    ensures { result ≡ count_in entry.now.listing }
{
    match entry.listing {
        Some(l) => usize::from(l.count),
        None => 0,
    }
}

// Their name; where there are none, zeros.
fn name_of(entry: &ToneEntry) -> Name
    ensures { result ≡ name_in entry.now.listing }
{
    match entry.listing {
        Some(l) => l.name,
        None => NO_NAME,
    }
}

const NO_NAME: Name = Name {
    owner: 0,
    form: 0,
    label: 0,
};

// Whether every one of ten numbers is finite.
fn all_finite(xs: &[f32; 10]) -> bool
    ensures { result ≡ list_all finite xs.now }
{
    xs.iter().all(|v| tonekit_float::is_finite(*v))
}

// Whether every number of a shape that is scored is finite.
#[tactic(auto, using(crate::proofs::Ten::first_ten), unfolding(spec_judgement::specs::Judge::usable))]
fn usable(x: ToneShape) -> bool
    ensures { result ≡ usable x }
{
    all_finite(&x.contour) && all_finite(&x.weights)
}

// Each component's weight, and its squared distance from the shape, in its slot.
// Stays: inventory and slots go together in three functions; in a type of its own `Counted` would be a ghost field, and each definition that makes an inventory would hand on its proof.
fn fill(x: ToneShape, s: Scoring, inventory: &Inventory, slots: &Slots) -> [Component; 32]
    requires { Counted inventory.now }
    ensures { Filled (component_at x s inventory.now slots.now) inventory.now (4 * length inventory.now.items) result }
{
    let none = Component {
        weight: 0.0,
        distance: 0.0,
    };
    let mut list = [none; 32];
    for (t, entry) in inventory.iter().enumerate() {
        // Stays: j is a place in two lists from 4 * t on; a zip would cut both by the same range first, two lines more than this index.
        for j in 0..count_of(entry) {
            let slot = slots.list[4 * t + j];
            list[4 * t + j] = Component {
                weight: slot.weight,
                distance: tonekit_score::distance_of(x, s, entry.region, &slot.points),
            };
        }
    }
    list
}

// The term of a component weighed so much, dropped where that is not above 0.
#[tactic(auto, unfolding(crate::specs::Terms::weighed_term))]
fn weighed(s: Scoring, product: f32, d2: f64) -> Option<Term>
    ensures { result ≡ weighed_term s product d2 }
{
    if 0.0 < product {
        return tonekit_score::term_of(s, product, d2);
    }
    None
}

// The score of a tone in the background.
fn score_of(entry: &ToneEntry, ll: f32) -> f64
    ensures { result ≡ add binary64 (ln_of entry.now.prior) ll }
{
    tonekit_log::ln(f64::from(entry.prior)) + f64::from(ll)
}

// The background of all tones, lent to `add_to` for each, and the first of those with the greatest score.
fn ranking_of(inventory: &Inventory, ll: &[f32; 8]) -> Ranking
    ensures { (result ≡ ranking_of inventory.now ll.now)
        × IfSome result.top (λ top. top.index < length inventory.now.items) }
{
    let mut r = Ranking {
        background: tonekit_score::empty(),
        top: None,
    };
    for (t, entry) in inventory.iter().enumerate() {
        let score = score_of(entry, ll[t]);
        tonekit_score::add_to(&mut r.background, score);
        let next = Lead {
            score,
            index: t,
            distance: 0.0,
        };
        r.top = Some(tonekit_score::led(r.top, next));
    }
    r
}

// The number of the top tone, where its posterior reaches the threshold.
#[tactic(auto, unfolding(spec_judgement::specs::Judge::heard_of))]
fn heard_of(inventory: &Inventory, threshold: f32, r: Ranking) -> Option<u8>
    requires { IfSome r.top (λ top. top.index < length inventory.now.items) }
    ensures { result ≡ heard_of inventory.now threshold r }
{
    let top = r.top?;
    let posterior = tonekit_log::exp(top.score - tonekit_score::value_of(r.background));
    if f64::from(threshold) <= posterior {
        return Some(inventory[top.index].number);
    }
    None
}

// The target, with its tail's, against the background, both calibrated.
#[tactic(auto, unfolding(spec_judgement::specs::Judge::llr_of))]
fn llr_of(s: Scoring, m: Mixture, tail: f32, background: LogSumExp) -> f32
    ensures { result ≡ llr_of s m tail background }
{
    let ll = tonekit_score::calibrate(s, tonekit_score::mixture_log(m));
    let target = f64::from(tonekit_tail::with_tail(ll, tail));
    tonekit_score::clamp_log(target - tonekit_score::value_of(background))
}

// How far a usable shape is measured.
fn measured_of(issues: u16) -> Measured
    ensures { result ≡ cond (eqb issues 0) Full Partial }
{
    if issues == 0 {
        Measured::Full
    } else {
        Measured::Partial
    }
}

impl Components {
    // The term of component j of tone t: its weight as it stands, or times a share.
    #[tactic(auto, unfolding(crate::specs::Terms::term_at))]
    fn term_at(&self, t: usize, share: Option<f32>, j: usize) -> Option<Term>
        requires { (t < 8) × (j < 4) }
        ensures { result ≡ term_at self.now.scoring (cell self.now.list) t share j }
    {
        let own = self.list[4 * t + j];
        match share {
            Some(share) => weighed(self.scoring, own.weight * share, own.distance),
            None => tonekit_score::term_of(self.scoring, own.weight, own.distance),
        }
    }

    // `mixture` of the Rust, from a mixture on: the sum is lent to `add_to` for each term that counts.
    fn mixed_terms(&self, before: Mixing, t: usize, share: Option<f32>, n: usize) -> Mixing
        requires { (t < 8) × (n ≤ 4) }
        ensures { result ≡ mixed_terms self.now.scoring (cell self.now.list) t share n before }
    {
        let mut m = before;
        for j in 0..n {
            if let Some(term) = self.term_at(t, share, j) {
                tonekit_score::add_to(&mut m.total, term.score);
                let next = Lead {
                    score: term.score,
                    index: 4 * t + j,
                    distance: term.distance,
                };
                m.best = Some(tonekit_score::led(m.best, next));
            }
        }
        m
    }

    // The mixture of the n components of tone t.
    #[tactic(auto, unfolding(spec_judgement::specs::Judge::tone_mixing, crate::specs::Terms::mixed_terms))]
    fn tone_mixing(&self, n: usize, t: usize) -> Mixing
        requires { (t < 8) × (n ≤ 4) }
        ensures { result ≡ tone_mixing self.now.scoring (cell self.now.list) n t }
    {
        self.mixed_terms(tonekit_score::no_mixing(), t, None, n)
    }

    // The calibrated log-likelihood under tone t, which has n components.
    #[tactic(auto, unfolding(spec_judgement::specs::Judge::loglik_at))]
    fn loglik_at(&self, n: usize, t: usize) -> f32
        requires { (t < 8) × (n ≤ 4) }
        ensures { result ≡ loglik_at self.now.scoring (cell self.now.list) n t }
    {
        let m = tonekit_score::mixture_of(self.tone_mixing(n, t));
        tonekit_score::calibrate(self.scoring, tonekit_score::mixture_log(m))
    }

    // The calibrated log-likelihoods under every tone, each with its tail's.
    fn logliks(&self, inventory: &Inventory, issues: u16) -> [f32; 8]
        requires { Counted inventory.now }
        ensures { result ≡ logliks self.now.scoring inventory.now (cell self.now.list) issues }
    {
        let mut ll = [0.0f32; 8];
        for (t, entry) in inventory.iter().enumerate() {
            let tail = tonekit_tail::tail_loglik(entry, issues);
            ll[t] = tonekit_tail::with_tail(self.loglik_at(count_of(entry), t), tail);
        }
        ll
    }

    // The mixture with the n components of tone t, weighed.
    #[tactic(auto, unfolding(spec_judgement::specs::Judge::part_mixing, crate::specs::Terms::mixed_terms))]
    fn part_mixing(&self, before: Mixing, n: usize, t: usize, weight: f32) -> Mixing
        requires { (t < 8) × (n ≤ 4) }
        ensures { result ≡ part_mixing self.now.scoring (cell self.now.list) n t weight before }
    {
        self.mixed_terms(before, t, Some(weight), n)
    }

    // The mixture of the target's tones, each weighed.
    fn target_mixing(&self, inventory: &Inventory, g: &Targets) -> Mixing
        requires { Counted inventory.now × TargetsHeld (length inventory.now.items) g.now }
        ensures { result ≡ target_mixing self.now.scoring inventory.now (cell self.now.list) g.now }
    {
        let mut m = tonekit_score::no_mixing();
        for target in g.iter() {
            let t = usize::from(target.place);
            m = self.part_mixing(m, count_of(&inventory[t]), t, target.weight);
        }
        m
    }

    // What is said of a usable shape where the target, whose tail is given, has no best component.
    #[tactic(auto, unfolding(spec_judgement::specs::Judge::plain_of))]
    fn plain_of(
        &self,
        threshold: f32,
        inventory: &Inventory,
        m: Mixture,
        tail: f32,
        issues: u16,
    ) -> ToneJudgement
        requires { Counted inventory.now }
        ensures { result ≡ plain_of self.now.scoring threshold inventory.now (cell self.now.list) m tail issues }
    {
        let loglik = self.logliks(inventory, issues);
        let r = ranking_of(inventory, &loglik);
        ToneJudgement {
            loglik,
            llr: llr_of(self.scoring, m, tail, r.background),
            nearest: None,
            heard: heard_of(inventory, threshold, r),
            deltas: tonekit_deltas::no_deltas(),
            measured: measured_of(issues),
            issues,
        }
    }
}

// The distance of the best component, whose square is given.
#[tactic(auto, unfolding(spec_judgement::specs::Judge::distance_from))]
fn distance_from(d2: f64) -> f32
    ensures { result ≡ distance_from d2 }
{
    tonekit_float::narrow(tonekit_float::lesser(tonekit_root::sqrt(d2), 3.4028234663852886e38))
}

// The advice against a component of these points.
#[tactic(auto, unfolding(spec_judgement::specs::Judge::advice_of))]
fn advice_of(x: ToneShape, s: Scoring, t: Tolerance, points: &[f32; 10], issues: u16) -> Deltas
    ensures { result ≡ advice_of x s t points.now issues }
{
    if tonekit_core::has_issue(issues, MeasureIssue::LowSnr) {
        return tonekit_deltas::no_deltas();
    }
    let short = tonekit_core::has_issue(issues, MeasureIssue::TooShort);
    tonekit_deltas::deltas_of(x, points, t, s.widen, short)
}

// The place of a slot's component in its rule, where that is a mixture.
// Stays: beside tonekit_expect's `part_number`; this takes a slot and has the definition `slot_part`, that a part's place.
fn slot_part(name: Name, slot: usize) -> u8
    ensures { result ≡ slot_part name slot }
{
    if name.form == layout::MIXTURE_FORM {
        return (slot % 4) as u8;
    }
    0
}

// What is said of the best component, which stands at a slot of that entry.
#[tactic(auto, unfolding(spec_judgement::specs::Judge::nearest_at))]
fn nearest_at(entry: &ToneEntry, slot: usize, d2: f64) -> Nearest
    ensures { result ≡ nearest_at entry.now slot d2 }
{
    let name = name_of(entry);
    Nearest {
        distance: distance_from(d2),
        name,
        part: slot_part(name, slot),
    }
}

// The judgement of a usable shape: each component's distance is computed once. With a best component
// the judgement names it, and advises against it.
fn judged_of(
    x: ToneShape,
    s: Scoring,
    threshold: f32,
    t: Tolerance,
    inventory: &Inventory,
    slots: &Slots,
    g: &Targets,
    issues: u16,
) -> ToneJudgement
    requires { Counted inventory.now × TargetsHeld (length inventory.now.items) g.now }
    ensures { result ≡ judged_of x s threshold t (listing inventory.now slots.now) (component_at x s inventory.now slots.now) g.now issues }
{
    let c = Components {
        scoring: s,
        list: fill(x, s, inventory, slots),
    };
    let m = tonekit_score::mixture_of(c.target_mixing(inventory, g));
    let tail = tonekit_tail::target_tail_loglik(inventory, g, issues);
    let j = c.plain_of(threshold, inventory, m, tail, issues);
    match m {
        Mixture::Scored(_, slot, d2) => ToneJudgement {
            nearest: Some(nearest_at(&inventory[slot / 4], slot, d2)),
            deltas: advice_of(x, s, t, &slots.list[slot].points, j.issues),
            ..j
        },
        Mixture::Nothing => j,
    }
}

// The judgement of a shape that is not usable.
fn not_measured(tones: usize) -> ToneJudgement
    requires { tones ≤ 8 }
    ensures { result ≡ not_measured tones }
{
    let mut loglik = [0.0f32; 8];
    loglik[..tones].fill(tonekit_float::narrow(-1000000.0));
    ToneJudgement {
        loglik,
        llr: 0.0,
        nearest: None,
        heard: None,
        deltas: tonekit_deltas::no_deltas(),
        measured: Measured::NotMeasured,
        issues: u16::from(MeasureIssue::InvalidEvidence),
    }
}

// The judgement of a shape against a target, whose tones are of the inventory, as whoever gathered them
// has made them; there is no judgement of others.
#[tactic(auto, unfolding(spec_judgement::specs::Judge::judgement_of))]
pub fn judgement_of(
    x: ToneShape,
    settings: Settings,
    t: Tolerance,
    inventory: &Inventory,
    slots: &Slots,
    targets: &Targets,
    issues: u16,
) -> ToneJudgement
    requires { Counted inventory.now × TargetsHeld (length inventory.now.items) targets.now }
    ensures { result ≡ judgement_of x settings t (listing inventory.now slots.now) targets.now issues }
{
    if usable(x) {
        let s = tonekit_score::scoring_of(settings.temperature, t, issues);
        return judged_of(
            x,
            s,
            settings.threshold,
            t,
            inventory,
            slots,
            targets,
            issues,
        );
    }
    not_measured(inventory.len())
}
