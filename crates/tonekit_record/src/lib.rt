// The record of a judgement, kind 49: of its fields as they are, and of a judgement by them.
#![tactic(auto)]

ghost use Rattle.std.specs.Prelude.{◌≡◌, ◌+◌, ◌≤◌, [], ◌∷◌, ◌++◌, length};
ghost use Rattle.std.proofs.lemmas.List.Edits.{sets};
ghost use Rattle.tonekit_core.specs.declared.layout.TheConstants.{JUDGEMENT_KIND, JUDGEMENT_LLR, JUDGEMENT_DISTANCED, JUDGEMENT_DELTA_COUNT, JUDGEMENT_MEASURED, DELTA_SIZE};
ghost use Rattle.spec_arithmetic.specs.Fields.{le16};
ghost use Rattle.spec_judgement.specs.Record.{nearest_bytes, judgement_bytes};
ghost use Rattle.tonekit_record.specs.Fields.{kind_number, kinds_count, written_scores, written_delta, written_deltas, fields_bytes, delta_fields, fields_of};

pub use spec_judgement::{Delta, Deltas, Nearest, ToneJudgement};
use tonekit_core::{DeltaKind, Name, layout};

// What a record has of the best component where there is none.
const NO_NEAREST: Nearest = Nearest {
    distance: 0.0,
    name: Name {
        owner: 0,
        form: 0,
        label: 0,
    },
    part: 0,
};

// A delta's fields: its kind, 0 in the record where it has none, and its amount, which is written either way.
#[derive(Clone, Copy)]
pub struct DeltaFields {
    pub kind: Option<DeltaKind>,
    pub amount: f32,
}

// A record's fields as they are written: each flag and number beside what it speaks of.
#[derive(Clone, Copy)]
pub struct JudgementFields {
    pub loglik: [f32; 8],
    pub llr: f32,
    pub distanced: u8,
    pub nearest: Nearest,
    pub heard: u8,
    pub first: DeltaFields,
    pub second: DeltaFields,
    pub measured: u8,
    pub issues: u16,
}

// The fields of a delta, zeros where there is none.
fn delta_fields(d: Option<Delta>) -> DeltaFields
    ensures { result ≡ delta_fields d }
{
    match d {
        Some(d) => DeltaFields {
            kind: Some(d.kind),
            amount: d.amount,
        },
        None => DeltaFields {
            kind: None,
            amount: 0.0,
        },
    }
}

// The fields of a judgement: a flag of 1 or 0, zeros where there is nothing, and the number of measured.
impl From<ToneJudgement> for JudgementFields {
    ghost from_gives = { λ j f. f ≡ fields_of j };

    fn from(j: ToneJudgement) -> Self {
        JudgementFields {
            loglik: j.loglik,
            llr: j.llr,
            distanced: u8::from(j.nearest.is_some()),
            nearest: j.nearest.unwrap_or(NO_NEAREST),
            heard: j.heard.unwrap_or(0),
            first: delta_fields(j.deltas.first),
            second: delta_fields(j.deltas.second),
            measured: u8::from(j.measured),
            issues: j.issues,
        }
    }
}

// The number of a delta's kind, 0 where it has none.
fn kind_of(d: DeltaFields) -> u8
    ensures { result ≡ kind_number d.kind }
{
    match d.kind {
        Some(kind) => u8::from(kind),
        None => 0,
    }
}

// How many of two deltas have a kind.
fn delta_count(first: DeltaFields, second: DeltaFields) -> u8
    ensures { result ≡ kinds_count first second }
{
    u8::from(first.kind.is_some()) + u8::from(second.kind.is_some())
}

// Writes kind, expected tone and tone count.
fn put_head(out: &mut [u8; layout::JUDGEMENT_SIZE], expected: u8, tones: u8)
    ensures { out.new ≡ sets out.old 0 (JUDGEMENT_KIND ∷ expected ∷ tones ∷ []) }
{
    tonekit_bytes::put_u8(out, 0, layout::JUDGEMENT_KIND);
    tonekit_bytes::put_u8(out, layout::JUDGEMENT_EXPECTED, expected);
    tonekit_bytes::put_u8(out, layout::JUDGEMENT_TONE_COUNT, tones);
}

// Writes a flag, and behind it what is said of the best component.
#[tactic(auto, unfolding(spec_judgement::specs::Record::nearest_bytes))]
fn put_nearest(out: &mut [u8; layout::JUDGEMENT_SIZE], flag: u8, n: Nearest)
    ensures { out.new ≡ sets out.old JUDGEMENT_DISTANCED (nearest_bytes flag n) }
{
    tonekit_bytes::put_u8(out, layout::JUDGEMENT_DISTANCED, flag);
    tonekit_bytes::put_f32(out, layout::JUDGEMENT_DISTANCE, n.distance);
    tonekit_bytes::put_u8(out, layout::JUDGEMENT_OWNER, n.name.owner);
    tonekit_bytes::put_u8(out, layout::JUDGEMENT_FORM, n.name.form);
    tonekit_bytes::put_u16(out, layout::JUDGEMENT_LABEL, n.name.label);
    tonekit_bytes::put_u8(out, layout::JUDGEMENT_PART, n.part);
}

// Writes llr, the best component and heard.
#[tactic(auto, unfolding(crate::specs::Fields::written_scores, spec_judgement::specs::Record::nearest_bytes))]
fn put_scores(out: &mut [u8; layout::JUDGEMENT_SIZE], j: JudgementFields)
    ensures { out.new ≡ sets out.old JUDGEMENT_LLR (written_scores j) }
{
    tonekit_bytes::put_f32(out, layout::JUDGEMENT_LLR, j.llr);
    put_nearest(out, j.distanced, j.nearest);
    tonekit_bytes::put_u8(out, layout::JUDGEMENT_HEARD, j.heard);
}

// Writes a delta's kind and amount at an index.
fn put_delta(out: &mut [u8], at: usize, d: DeltaFields)
    requires { at + DELTA_SIZE ≤ length out.old }
    ensures { out.new ≡ sets out.old at (written_delta d) }
{
    tonekit_bytes::put_u8(out, at, kind_of(d));
    tonekit_bytes::put_f32(out, at + layout::DELTA_AMOUNT, d.amount);
}

// Writes the count of deltas, and the two.
#[tactic(auto, unfolding(crate::specs::Fields::written_deltas, crate::specs::Fields::written_delta))]
fn put_deltas(out: &mut [u8; layout::JUDGEMENT_SIZE], first: DeltaFields, second: DeltaFields)
    ensures { out.new ≡ sets out.old JUDGEMENT_DELTA_COUNT (written_deltas first second) }
{
    tonekit_bytes::put_u8(
        out,
        layout::JUDGEMENT_DELTA_COUNT,
        delta_count(first, second),
    );
    put_delta(out, layout::JUDGEMENT_FIRST_DELTA, first);
    put_delta(out, layout::JUDGEMENT_SECOND_DELTA, second);
}

// Writes measured and issues.
fn put_tail(out: &mut [u8; layout::JUDGEMENT_SIZE], measured: u8, issues: u16)
    ensures { out.new ≡ sets out.old JUDGEMENT_MEASURED ((measured ∷ []) ++ le16 issues) }
{
    tonekit_bytes::put_u8(out, layout::JUDGEMENT_MEASURED, measured);
    tonekit_bytes::put_u16(out, layout::JUDGEMENT_ISSUES, issues);
}

// Writes the record of a judgement's fields.
fn put_judgement(
    out: &mut [u8; layout::JUDGEMENT_SIZE],
    expected: u8,
    tones: u8,
    j: JudgementFields,
)
    ensures { out.new ≡ sets out.old 0 (fields_bytes expected tones j) }
{
    put_head(out, expected, tones);
    tonekit_bytes::put_f32s(out, layout::JUDGEMENT_LOGLIK, &j.loglik);
    put_scores(out, j);
    put_deltas(out, j.first, j.second);
    put_tail(out, j.measured, j.issues);
}

// The record of a judgement, kind 49, with the number of the expected tone and the count of tones: its
// fields as they are, whatever they are.
pub fn judgement_record(expected: u8, tones: u8, j: JudgementFields) -> [u8; layout::JUDGEMENT_SIZE]
    ensures { result ≡ fields_bytes expected tones j }
{
    let mut out = [0u8; layout::JUDGEMENT_SIZE];
    put_judgement(&mut out, expected, tones, j);
    out
}

// The record of a typed judgement, by its fields.
#[tactic(auto, using(crate::proofs::Parts::record_written))]
pub fn record_of(expected: u8, tones: u8, j: ToneJudgement) -> [u8; layout::JUDGEMENT_SIZE]
    ensures { result ≡ judgement_bytes expected tones j }
{
    judgement_record(expected, tones, JudgementFields::from(j))
}
