// Replays the vectors of data/vectors.bin: for each operation, how many were run and how many
// answers differ from the one recorded.
#![tactic(auto)]

ghost use Rattle.std.specs.Prelude.{◌≡◌, ℕ, ◌+◌, ◌≤◌, ◌<◌, ◌^◌, length};
ghost use Rattle.arithmetic_vectors.specs.Replay.{operation_number, u64_at, answer, tally, replayed};

use std::fmt::Write;
use std::{fs, io};
use tonekit_edge::Pieces;
use tonekit_float::AnyFloat;

// A vector's bytes: the operation, the bits of its input, the bits of its answer.
const VECTOR: usize = 17;

// What a vector is of, by its number there.
#[derive(Clone, Copy, Debug, PartialEq, Eq)]
enum Operation {
    Narrow = 0,
    Root = 1,
    Ln = 2,
    Log2 = 3,
    Exp = 4,
}

impl From<Operation> for u8 {
    ghost from_gives = { λ op n. n ≡ operation_number op };

    fn from(op: Operation) -> u8 {
        op as u8
    }
}

// How many vectors of an operation were run, and how many differ.
#[derive(Clone, Copy, Debug, PartialEq, Eq)]
struct Count {
    run: usize,
    differ: usize,
}

// The number of eight bytes from `at`, the least significant first.
fn u64_at(s: &[u8], at: usize) -> u64
    requires { at + 8 ≤ length s.now }
    ensures { result ≡ u64_at s.now at }
{
    u64::from_le_bytes([
        s[at],
        s[at + 1],
        s[at + 2],
        s[at + 3],
        s[at + 4],
        s[at + 5],
        s[at + 6],
        s[at + 7],
    ])
}

// The count with a vector added, if it is of the operation, whose function gives the bits of the answer.
#[tactic(auto, unfolding(crate::specs::Replay::tally))]
fn tally<F: Fn(u64) -> u64>(vector: &[u8; VECTOR], op: Operation, function: &F, c: Count) -> Count
    requires callable { F.IsAlwaysCallable function.now }
    requires answers { (b n : ℕ) → F.post function.now b n → n ≡ answer op b }
    requires room { (c.run < 2 ^ 63) × (c.differ < 2 ^ 63) }
    ensures value { result ≡ tally op c vector.now }
    ensures more { (result.run ≤ c.run + 1) × (result.differ ≤ c.differ + 1) }
{
    if vector[0] != u8::from(op) {
        return c;
    }
    if function(u64_at(vector, 1)) == u64_at(vector, 9) {
        Count {
            run: c.run + 1,
            differ: c.differ,
        }
    } else {
        Count {
            run: c.run + 1,
            differ: c.differ + 1,
        }
    }
}

// The count over all whole vectors of s.
fn replay<F: Fn(u64) -> u64>(s: &[u8], op: Operation, function: &F) -> Count
    requires callable { F.IsAlwaysCallable function.now }
    requires answers { (b n : ℕ) → F.post function.now b n → n ≡ answer op b }
    ensures { result ≡ replayed s.now op }
{
    let mut c = Count { run: 0, differ: 0 };
    let (vectors, _) = s.as_chunks::<VECTOR>();
    for vector in vectors {
        c = tally(vector, op, function, c);
    }
    c
}

// What the program writes, each piece by a write of its own.
fn pieces<R: Print + Eprint>(rt: &R) -> Pieces<'_, R> {
    Pieces {
        rt,
        program: "arithmetic_vectors",
    }
}

// Replays the vectors of one operation, and writes its line, which begins with words for the operation.
fn report<F: Fn(u64) -> u64>(
    rt: &(impl Print + Eprint),
    words: &str,
    s: &[u8],
    op: Operation,
    function: F,
)
    requires callable { F.IsAlwaysCallable function }
    requires answers { (b n : ℕ) → F.post function b n → n ≡ answer op b }
{
    let Count { run, differ } = replay(s, op, &function);
    let _ = write!(pieces(rt), "{words}{run} differ {differ}\n");
}

// Replays the file, and says how much of it there is.
#[tactic(auto, unfolding(crate::specs::Replay::answer))]
fn main(rt: HostRuntime) -> io::Result<()> {
    let Ok(mut file) = fs::open(&rt, "vectors.bin") else {
        let _ = write!(pieces(&rt), "no vectors\n");
        return Ok(());
    };
    let mut buf = [0u8; 262144];
    let n = tonekit_edge::read_full(&mut file, &mut buf)?;
    let _ = write!(pieces(&rt), "bytes {n}\n");
    let vectors = &buf[..n];
    report(&rt, "narrow ", vectors, Operation::Narrow, |b| {
        u64::from(tonekit_float::narrow(f64::of_bits(b)).bits())
    });
    report(&rt, "root ", vectors, Operation::Root, |b| {
        tonekit_root::sqrt(f64::of_bits(b)).bits()
    });
    report(&rt, "ln ", vectors, Operation::Ln, |b| {
        tonekit_log::ln(f64::of_bits(b)).bits()
    });
    report(&rt, "log2 ", vectors, Operation::Log2, |b| {
        tonekit_log::log2(f64::of_bits(b)).bits()
    });
    report(&rt, "exp ", vectors, Operation::Exp, |b| {
        tonekit_log::exp(f64::of_bits(b)).bits()
    });
    Ok(())
}
