// The format's limits, layouts and numbered words, and why a call turns its input back. Every crate stands on it.
#![tactic(auto)]

ghost use Rattle.std.specs.Prelude.{◌≡◌};
ghost use Rattle.tonekit_core.specs.Words.{refusal_number, issue_bit, has_issue, with_issue, delta_number, measured_number};

pub mod layout;
pub mod limits;

// Why an input or a query is turned back, by the numbers of the format's table.
#[derive(Clone, Copy, Debug, PartialEq, Eq)]
pub enum Refusal {
    Misplaced = 1,
    CutShort = 2,
    Overrun = 3,
    Crowded = 4,
    OffScale = 5,
    Doubled = 6,
    Loose = 7,
    Unordered = 8,
    ShortBuffer = 9,
    BadQuery = 10,
    Unvoiced = 11,
    UnknownAccent = 12,
    UnknownTone = 13,
    NoRealisation = 14,
    BadVariant = 15,
    EndlessChain = 20,
}

// Why an input or a query is turned back, and where.
#[derive(Clone, Copy, Debug, PartialEq, Eq)]
pub struct Rejection {
    pub why: Refusal,
    pub place: usize,
}

// Whose a list of curves is, and what it is called there: the owner's number, the form and the label.
#[derive(Clone, Copy, Debug, PartialEq, Eq)]
pub struct Name {
    pub owner: u8,
    // Stays: lookups and readers hand on the byte that stands in a record, whatever it is; an enum would need a case for each byte that is no form.
    pub form: u8,
    pub label: u16,
}

impl Refusal {
    // The refusal with its place.
    pub fn at(self, place: usize) -> Rejection
        ensures { result ≡ record { why = self; place = place } }
    {
        Rejection { why: self, place }
    }
}

// A caveat of a measurement, as in the Rust.
#[derive(Clone, Copy, Debug, PartialEq, Eq)]
pub enum MeasureIssue {
    Unvoiced = 1,
    LowSnr = 2,
    Clipped = 4,
    TooShort = 8,
    ColdStartRegister = 16,
    InvalidRegister = 32,
    InvalidEvidence = 64,
    NoNucleus = 128,
    Unpitched = 256,
    CreakyTail = 512,
}

// Advice direction, as in the Rust.
#[derive(Clone, Copy, Debug, PartialEq, Eq)]
pub enum DeltaKind {
    StartHigher = 1,
    StartLower = 2,
    EndHigher = 3,
    EndLower = 4,
    TurnEarlier = 5,
    TurnLater = 6,
    WiderRange = 7,
    NarrowerRange = 8,
}

// How far a syllable was measured, as in the Rust.
#[derive(Clone, Copy, Debug, PartialEq, Eq)]
pub enum Measured {
    Full = 0,
    Partial = 1,
    NotMeasured = 2,
}

// The number of a refusal in the format's table.
impl From<Refusal> for u8 {
    ghost from_gives = { λ r n. n ≡ refusal_number r };

    fn from(r: Refusal) -> u8 {
        r as u8
    }
}

// The bit of an issue in the issues' u16.
impl From<MeasureIssue> for u16 {
    ghost from_gives = { λ i n. n ≡ issue_bit i };

    fn from(i: MeasureIssue) -> u16 {
        i as u16
    }
}

// The number of a delta's kind in a judgement's record.
impl From<DeltaKind> for u8 {
    ghost from_gives = { λ k n. n ≡ delta_number k };

    fn from(k: DeltaKind) -> u8 {
        k as u8
    }
}

// The number in a judgement's record of how far the syllable was measured.
impl From<Measured> for u8 {
    ghost from_gives = { λ m n. n ≡ measured_number m };

    fn from(m: Measured) -> u8 {
        m as u8
    }
}

// Whether an issue is among the issues of a u16.
// Stays: a set of issues is the format's u16 of bits, which a query's, a shape's and a judgement's record hold and the C interface hands out.
#[tactic(auto, using(crate::proofs::Issues::set_bit))]
pub fn has_issue(issues: u16, i: MeasureIssue) -> bool
    ensures { result ≡ has_issue issues i }
{
    issues & u16::from(i) != 0
}

// The issues with one more.
#[tactic(auto, using(crate::proofs::Issues::united))]
pub fn with_issue(issues: u16, i: MeasureIssue) -> u16
    ensures { result ≡ with_issue issues i }
{
    issues | u16::from(i)
}
