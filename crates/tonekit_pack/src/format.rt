// Files that are records, one behind the other up to an End: what is said of one record, the loop that
// reads them, and an input that is such a file and nothing more.
ghost use Rattle.std.specs.Prelude.{◌≡◌, ℕ, ◌+◌, ◌≤◌, Bool, true, false, List, Result, Ok, Err, IfOk, MatchResult, SomeIff, MatchOption, length};
ghost use Rattle.tonekit_core.specs.declared.Refusal.{Refusal};
ghost use Rattle.tonekit_core.specs.declared.Rejection.{Rejection};
ghost use Rattle.spec_arithmetic.specs.Fields.{byte_at};
ghost use Rattle.spec_arithmetic.specs.Files.{judged};
ghost use Rattle.tonekit_pack.specs.declared.Loaded.{Loaded};
ghost use Rattle.tonekit_pack.specs.Format.{Alone, Checked};

use crate::Loaded;
use tonekit_core::{Refusal, Rejection};

// What is kept of such a file, and how its records are judged and kept. `number` is the byte that a record
// of a kind begins with, `last` tells the End's. A record is due after what was read, has a size by its
// kind, and tests of its own; `verdict` is what is said of the one at an offset. `so_far` says that all
// before an offset was read, and `reads` what reading answers.
pub trait Format: Drop {
    type Kind: Copy;

    ghost number: { Self.Kind → ℕ };

    ghost last: { ℕ → Bool };

    ghost due: { Self → ℕ → Bool };

    ghost size: { ℕ → ℕ };

    ghost tests: { Self → List ℕ → ℕ → ℕ → Result Unit Refusal };

    ghost verdict: { List ℕ → ℕ → Self → Result Unit Refusal };

    ghost so_far: { List ℕ → ℕ → Self → Type 0 };

    ghost reads: { List ℕ → Result (Loaded Self) Rejection → Type 0 };

    // Before the first record.
    fn nothing() -> Self
        ensures { (s : List ℕ) → so_far s 0 result };

    // The kind of a record that begins with n, if one may follow.
    fn next(&self, n: u8) -> Option<Self::Kind>
        ensures { MatchOption result (due self.now n ≡ false) (λ k. (due self.now n ≡ true) × (number k ≡ n)) };

    // The bytes of a record of kind k, its kind among them.
    fn size(k: Self::Kind) -> usize
        ensures size { result ≡ size (number k) }
        ensures some { 1 ≤ result };

    // What is said of the record of kind k at o, which is due and whole.
    fn tests(&self, k: Self::Kind, s: &[u8], o: usize) -> Result<(), Refusal>
        requires { o + size (number k) ≤ length s.now }
        ensures { result ≡ tests self.now s.now o (number k) };

    // Whether k is the End's kind.
    fn ends(k: Self::Kind) -> bool
        ensures { result ≡ last (number k) };

    // Keeps the record of kind k at o, once it is fine.
    fn add(&mut self, k: Self::Kind, s: &[u8], o: usize)
        requires read { so_far s.now o self.old }
        requires fine { verdict s.now o self.old ≡ Ok tt }
        requires kind { (number k ≡ byte_at s.now o) × (last (number k) ≡ false) }
        ensures { so_far s.now (o + size (number k)) self.new };

    // What the file is whose End stands at o, or what is wrong with it as a whole.
    fn finish(self, s: &[u8], o: usize) -> Result<Loaded<Self>, Rejection>
        requires read { so_far s.now o self }
        requires fine { verdict s.now o self ≡ Ok tt }
        requires kind { last (byte_at s.now o) ≡ true }
        ensures { reads s.now result };

    ghost judges: { (s : List ℕ) (o : ℕ) (f : Self) → verdict s o f ≡ judged (due f) size (tests f s o) s o };

    ghost refuses: { (s : List ℕ) (o : ℕ) (f : Self) (r : Refusal) → so_far s o f → verdict s o f ≡ Err r → reads s (Err (record { why = r; place = o })) };
}

// The kind of the record at o, after what was read before it, or what is said against it.
pub fn record<F: Format>(held: &F, s: &[u8], o: usize) -> Result<F::Kind, Refusal>
    ensures verdict { MatchResult result (λ k. F.verdict s.now o held.now ≡ Ok tt) (λ r. F.verdict s.now o held.now ≡ Err r) }
    ensures kind { IfOk result (λ k. (F.number k ≡ byte_at s.now o) × (o + F.size (F.number k) ≤ length s.now)) }
{
    if s.len() <= o {
        return Err(Refusal::CutShort);
    }
    let Some(k) = held.next(s[o]) else {
        return Err(Refusal::Misplaced);
    };
    if s.len() - o < F::size(k) {
        return Err(Refusal::CutShort);
    }
    held.tests(k, s, o)?;
    Ok(k)
}

// The file at the front of a longer input and where it ends, or its refusal and place.
pub fn read<F: Format>(s: &[u8]) -> Result<Loaded<F>, Rejection>
    ensures { F.reads s.now result }
{
    let mut held = F::nothing();
    let mut at = 0;
    loop {
        let k = match record(&held, s, at) {
            Ok(k) => k,
            Err(why) => return Err(why.at(at)),
        };
        if F::ends(k) {
            return held.finish(s, at);
        }
        held.add(k, s, at);
        at += F::size(k);
    }
}

// The file that an input is as a whole: what `read` answers, and Overrun at the first byte behind it.
pub fn load<F: Format>(s: &[u8]) -> Result<Loaded<F>, Rejection>
    ensures { Alone (F.reads s.now) (length s.now) result }
{
    let loaded = read::<F>(s)?;
    if loaded.end < s.len() {
        return Err(Refusal::Overrun.at(loaded.end));
    }
    Ok(loaded)
}

// Nothing against an input that loads as one file, else its refusal and place.
pub fn check<F: Format>(s: &[u8]) -> Result<(), Rejection>
    ensures { Checked (F.reads s.now) (length s.now) result }
{
    load::<F>(s)?;
    Ok(())
}
