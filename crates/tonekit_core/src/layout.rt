// Document 01's records by name: of each kind its number, its size with the kind, and where its fields
// stand from the record's start on. Definitions and contracts read these constants.
ghost use Rattle.std.specs.Prelude.{◌≡◌, ◌≤◌};
ghost use Rattle.tonekit_core.specs.Layout.{sheet_tone_at, sheet_accent_at, sheet_row_at};

// ---- of several records

// An f32
pub const F32_SIZE: usize = 4;

// A tone's, an accent's or a list's own number
pub const OWN_NUMBER: usize = 1;

// "region flag u8, from f32, to f32", from the flag on
pub const REGION_FROM: usize = 1;

pub const REGION_TO: usize = 5;

pub const REGION_SIZE: usize = 9;

// "tolerances contour, onset, offset, turning f32", from the contour's on
pub const TOLERANCE_ONSET: usize = 4;

pub const TOLERANCE_OFFSET: usize = 8;

pub const TOLERANCE_TURNING: usize = 12;

// "two f32, the tail value at phrase end and elsewhere", with the kind
pub const TAIL_SIZE: usize = 9;

pub const TAIL_FINAL: usize = 1;

pub const TAIL_ELSEWHERE: usize = 5;

// "form u8": 1 is a tone's citation, "2 is single, 3 mixture"
pub const CITATION_FORM: u8 = 1;

pub const SINGLE_FORM: u8 = 2;

pub const MIXTURE_FORM: u8 = 3;

// ---- Pack

// "1 Settings: temperature f32, heard threshold f32"
pub const SETTINGS_KIND: u8 = 1;

pub const SETTINGS_SIZE: usize = 9;

pub const SETTINGS_TEMPERATURE: usize = 1;

pub const SETTINGS_THRESHOLD: usize = 5;

// "2 Tone: number u8, prior f32, knot count u8, 10 f32, region flag u8, from f32, to f32"
pub const TONE_KIND: u8 = 2;

pub const TONE_SIZE: usize = 56;

pub const TONE_PRIOR: usize = 2;

pub const TONE_KNOT_COUNT: usize = 6;

pub const TONE_KNOTS: usize = 7;

pub const TONE_REGION: usize = 47;

pub const TONE_FROM: usize = 48;

pub const TONE_TO: usize = 52;

// "Kind 7 may follow a Tone"
pub const TAIL_KIND: u8 = 7;

// "3 Accent: number u8, parent u8, tolerances contour, onset, offset, turning f32"
pub const ACCENT_KIND: u8 = 3;

pub const ACCENT_SIZE: usize = 19;

pub const ACCENT_PARENT: usize = 2;

pub const ACCENT_CONTOUR: usize = 3;

pub const ACCENT_ONSET: usize = 7;

pub const ACCENT_OFFSET: usize = 11;

pub const ACCENT_TURNING: usize = 15;

// "4 Rule: label u16, tone u8, prev u8, final u8, form u8"
pub const RULE_KIND: u8 = 4;

pub const RULE_SIZE: usize = 7;

pub const RULE_LABEL: usize = 1;

pub const RULE_TONE: usize = 3;

pub const RULE_PREV: usize = 4;

pub const RULE_FINAL: usize = 5;

pub const RULE_FORM: usize = 6;

// "5 Part: weight f32, knot count u8, 10 f32"
pub const PART_KIND: u8 = 5;

pub const PART_SIZE: usize = 46;

pub const PART_WEIGHT: usize = 1;

pub const PART_KNOT_COUNT: usize = 5;

pub const PART_KNOTS: usize = 6;

// "6 End: none"
pub const END_KIND: u8 = 6;

pub const END_SIZE: usize = 1;

// ---- Query

// "Kind 48: accent, tone, prev (0 none), final (0 or 1) u8; span start, end u32; register floor, ceil f32;
// issues u16; variant count u8; ..; frame count u16"
pub const QUERY_KIND: u8 = 48;

pub const QUERY_SIZE: usize = 46;

pub const QUERY_ACCENT: usize = 1;

pub const QUERY_TONE: usize = 2;

pub const QUERY_PREV: usize = 3;

pub const QUERY_FINAL: usize = 4;

pub const QUERY_START: usize = 5;

pub const QUERY_END: usize = 9;

pub const QUERY_FLOOR: usize = 13;

pub const QUERY_CEIL: usize = 17;

pub const QUERY_ISSUES: usize = 21;

pub const QUERY_VARIANT_COUNT: usize = 23;

pub const QUERY_FRAME_COUNT: usize = 44;

// "4 times (tone u8, weight f32)": the first, and how far the next is
pub const VARIANT_TONES: usize = 24;

pub const VARIANT_WEIGHTS: usize = 25;

pub const VARIANT_SIZE: usize = 5;

// "kind 55, without a body, straight after its query record"
pub const COLD_KIND: u8 = 55;

pub const COLD_SIZE: usize = 1;

// "kind 50: voiced flag u8, hz f32, voiced_p f32"
pub const FRAME_KIND: u8 = 50;

pub const FRAME_SIZE: usize = 10;

pub const FRAME_VOICED: usize = 1;

pub const FRAME_HZ: usize = 2;

pub const FRAME_VOICED_P: usize = 6;

// ---- Judgement

// "Record kind 49: expected u8, tone count u8, 8 f32 log-likelihoods, llr f32, distance flag u8 and f32,
// component owner u8, form u8, label u16, part u8, heard u8, delta count u8, ..; measured u8, issues u16"
pub const JUDGEMENT_KIND: u8 = 49;

pub const JUDGEMENT_SIZE: usize = 64;

pub const JUDGEMENT_EXPECTED: usize = 1;

pub const JUDGEMENT_TONE_COUNT: usize = 2;

pub const JUDGEMENT_LOGLIK: usize = 3;

pub const JUDGEMENT_LLR: usize = 35;

pub const JUDGEMENT_DISTANCED: usize = 39;

pub const JUDGEMENT_DISTANCE: usize = 40;

pub const JUDGEMENT_OWNER: usize = 44;

pub const JUDGEMENT_FORM: usize = 45;

pub const JUDGEMENT_LABEL: usize = 46;

pub const JUDGEMENT_PART: usize = 48;

pub const JUDGEMENT_HEARD: usize = 49;

pub const JUDGEMENT_DELTA_COUNT: usize = 50;

pub const JUDGEMENT_MEASURED: usize = 61;

pub const JUDGEMENT_ISSUES: usize = 62;

// "twice (kind u8, amount f32)": where each stands, and the amount behind the kind
pub const JUDGEMENT_FIRST_DELTA: usize = 51;

pub const DELTA_SIZE: usize = 5;

pub const JUDGEMENT_SECOND_DELTA: usize = JUDGEMENT_FIRST_DELTA + DELTA_SIZE;

pub const DELTA_AMOUNT: usize = 1;

// ---- Sheet

// "17 as Settings"
pub const SHEET_SETTINGS_KIND: u8 = 17;

// "18 tone: number, prior, flag, from, to"
pub const SHEET_TONE_KIND: u8 = 18;

pub const SHEET_TONE_SIZE: usize = 15;

pub const SHEET_TONE_PRIOR: usize = 2;

pub const SHEET_TONE_REGION: usize = 6;

pub const SHEET_TONE_FROM: usize = 7;

pub const SHEET_TONE_TO: usize = 11;

// "kind 24 with the same two values after each tone": how far the next tone is
pub const SHEET_TAIL_KIND: u8 = 24;

pub const SHEET_TONE_STEP: usize = SHEET_TONE_SIZE + TAIL_SIZE;

// "19 accent: number, tolerances"
pub const SHEET_ACCENT_KIND: u8 = 19;

pub const SHEET_ACCENT_SIZE: usize = 18;

pub const SHEET_ACCENT_CONTOUR: usize = 2;

pub const SHEET_ACCENT_ONSET: usize = 6;

pub const SHEET_ACCENT_OFFSET: usize = 10;

pub const SHEET_ACCENT_TURNING: usize = 14;

// "20 row: accent, tone, prev, list when not final, list when final"
pub const SHEET_ROW_KIND: u8 = 20;

pub const SHEET_ROW_SIZE: usize = 6;

pub const SHEET_ROW_ACCENT: usize = 1;

pub const SHEET_ROW_TONE: usize = 2;

pub const SHEET_ROW_PREV: usize = 3;

pub const SHEET_ROW_LIST: usize = 4;

pub const SHEET_ROW_FINAL_LIST: usize = 5;

// "21 list: number u8, owner u8, form u8, label u16, count u8"
pub const SHEET_LIST_KIND: u8 = 21;

pub const SHEET_LIST_SIZE: usize = 7;

pub const SHEET_LIST_OWNER: usize = 2;

pub const SHEET_LIST_FORM: usize = 3;

pub const SHEET_LIST_LABEL: usize = 4;

pub const SHEET_LIST_COUNT: usize = 6;

// "22 components: weight, 10 points"
pub const SHEET_COMPONENT_KIND: u8 = 22;

pub const SHEET_COMPONENT_SIZE: usize = 45;

pub const SHEET_COMPONENT_WEIGHT: usize = 1;

pub const SHEET_COMPONENT_POINTS: usize = 5;

// "23 end"
pub const SHEET_END_KIND: u8 = 23;

pub const SHEET_END_SIZE: usize = 1;

// "a sheet now takes up to 13,338 bytes"
pub const SHEET_MOST: usize = 13338;

// Stays: the places of three kinds of records, each counted from the last; one function would need a kind as its argument.
// Where tone i of a sheet stands: the tones follow the settings, each with its tail. i may be their count, for what follows.
pub fn sheet_tone_at(i: usize) -> usize
    requires { i ≤ 8 }
    ensures { result ≡ sheet_tone_at i }
{
    SETTINGS_SIZE + SHEET_TONE_STEP * i
}

// Where accent i stands, behind so many tones.
// Stays: as sheet_tone_at. `tones ≤ 8` is asked here, of rows and in `row_count`, of plain counts; a type of a count would be unwrapped in each product.
pub fn sheet_accent_at(tones: usize, i: usize) -> usize
    requires { (tones ≤ 8) × (i ≤ 8) }
    ensures { result ≡ sheet_accent_at tones i }
{
    sheet_tone_at(tones) + SHEET_ACCENT_SIZE * i
}

// Where row r stands, behind so many tones and accents.
pub fn sheet_row_at(tones: usize, accents: usize, r: usize) -> usize
    requires { (tones ≤ 8) × (accents ≤ 8) × (r ≤ 576) }
    ensures { result ≡ sheet_row_at tones accents r }
{
    sheet_accent_at(tones, accents) + SHEET_ROW_SIZE * r
}

// ---- Shape record

// "Kind 51: span start, end u32; contour, weights 10 f32 each; mean, slope, curvature f32; turning flag u8 and
// f32; range, duration_ms, voiced_fraction, f0_confidence f32; issues u16"
pub const SHAPE_KIND: u8 = 51;

pub const SHAPE_SIZE: usize = 124;

pub const SHAPE_START: usize = 1;

pub const SHAPE_END: usize = 5;

pub const SHAPE_CONTOUR: usize = 9;

pub const SHAPE_WEIGHTS: usize = 49;

pub const SHAPE_MEAN: usize = 89;

pub const SHAPE_SLOPE: usize = 93;

pub const SHAPE_CURVATURE: usize = 97;

pub const SHAPE_TURNS: usize = 101;

pub const SHAPE_TURNING: usize = 102;

pub const SHAPE_RANGE: usize = 106;

pub const SHAPE_DURATION: usize = 110;

pub const SHAPE_FRACTION: usize = 114;

pub const SHAPE_CONFIDENCE: usize = 118;

pub const SHAPE_ISSUES: usize = 122;

// ---- Refusal

// "52, number, u32 place"
pub const REFUSAL_KIND: u8 = 52;

pub const REFUSAL_SIZE: usize = 6;
