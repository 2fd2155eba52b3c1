// Replays recorded calls: for each file of samples, how many were run, how many of them also by the function
// behind a program, and how many answers differ from the recorded ones in number, place, length or bytes.
#![tactic(auto)]

mod calls;
mod functions;
mod programs;
mod recorded;

ghost use Rattle.std.specs.Prelude.{◌≡◌, ◌-◌, ◌<◌, ◌≤◌, length};
ghost use Rattle.std.specs.Iterator.{at_most};

use crate::calls::Call;
use crate::recorded::Recorded;
use std::fmt::Write;
use std::rt::Files;
use std::{fs, io};
use tonekit_bytes::{byte_at, u32_at};
use tonekit_edge::Pieces;

// The files of samples.
const FILES: [&str; 9] = [
    "checks.bin",
    "shapes.bin",
    "sheets.bin",
    "judgements.bin",
    "functions.bin",
    "cover.bin",
    "steps.bin",
    "tails.bin",
    "cold.bin",
];

// How many samples were run, how many of them by a program's function too, and how many differ.
#[derive(Drop)]
struct Tally {
    run: u64,
    told: u64,
    differ: u64,
}

impl Tally {
    // Counts a sample: whether a program's function ran it too, and whether an answer differs.
    fn add(&mut self, told: bool, differs: bool) {
        self.run = self.run.wrapping_add(1);
        self.told = self.told.wrapping_add(u64::from(told));
        self.differ = self.differ.wrapping_add(u64::from(differs));
    }
}

// A sample: the number of its call, the room that it lends if it names one, its inputs and the recorded answer.
#[derive(Clone, Copy)]
struct Sample<'a> {
    call: u8,
    room: Option<usize>,
    first: &'a [u8],
    second: &'a [u8],
    recorded: Recorded<'a>,
}

// Takes the next n bytes; where there are fewer, those.
fn take<'a>(rest: &mut &'a [u8], n: usize) -> &'a [u8]
    ensures { length rest.new.now ≡ length rest.old.now - n }
{
    let (front, behind) = rest.split_at(n.min(rest.len()));
    *rest = behind;
    front
}

// Takes a byte.
fn take_byte(rest: &mut &[u8]) -> u8
    ensures { length rest.new.now ≡ length rest.old.now - 1 }
{
    byte_at(take(rest, 1), 0, 0)
}

// Takes a number of four bytes.
fn take_number(rest: &mut &[u8]) -> u32
    ensures { length rest.new.now ≤ length rest.old.now }
{
    u32_at(take(rest, 4), 0, 0)
}

// Takes a run of bytes behind their number.
fn take_run<'a>(rest: &mut &'a [u8]) -> &'a [u8]
    ensures { length rest.new.now ≤ length rest.old.now }
{
    let n = take_number(rest) as usize;
    take(rest, n)
}

// Takes a sample. One whose call has 128 added names its room.
fn take_sample<'a>(rest: &mut &'a [u8]) -> Sample<'a>
    ensures { length rest.new.now ≤ length rest.old.now - 1 }
{
    let call = take_byte(rest);
    let room = if 128 <= call {
        Some(take_number(rest) as usize)
    } else {
        None
    };
    let first = take_run(rest);
    let second = take_run(rest);
    let number = take_byte(rest);
    let place = take_number(rest);
    let count = if number == 0 { place as usize } else { 0 };
    let bytes = take(rest, count);
    Sample {
        call: call % 128,
        room,
        first,
        second,
        recorded: Recorded {
            number,
            place,
            bytes,
        },
    }
}

// Replays a sample by the library and, where it names no room, by the program.
fn replay_sample(sample: Sample, tally: &mut Tally) {
    let Ok(call) = Call::try_from(sample.call) else {
        tally.add(false, true);
        return;
    };
    let told = match sample.room {
        Some(_) => None,
        None => call.told(sample),
    };
    tally.add(told.is_some(), !call.agrees(sample) || told == Some(false));
}

// The samples of a file, one behind the other to its end.
#[derive(Drop)]
struct Samples<'a> {
    rest: &'a [u8],
}

impl<'a> Iterator for Samples<'a> {
    type Item = Sample<'a>;

    ghost remaining = { λ s. at_most (length s.rest.now) };

    fn next(&mut self) -> Option<Sample<'a>> {
        if self.rest.is_empty() {
            return None;
        }
        Some(take_sample(&mut self.rest))
    }
}

// Replays the samples that a file holds.
fn replay(s: &[u8]) -> Tally {
    let mut tally = Tally {
        run: 0,
        told: 0,
        differ: 0,
    };
    for sample in (Samples { rest: s }) {
        replay_sample(sample, &mut tally);
    }
    tally
}

// What the program writes, each piece by a write of its own.
fn pieces<R: Print + Eprint>(rt: &R) -> Pieces<'_, R> {
    Pieces {
        rt,
        program: "replay",
    }
}

// Opens a file of samples, replays it and writes a line; a file that is not there has no bytes.
fn report<R: Files + Print + Eprint>(rt: &R, name: &str) -> io::Result<()> {
    let mut buf = [0u8; 300000];
    let n = match fs::open(rt, name) {
        Ok(mut file) => tonekit_edge::read_full(&mut file, &mut buf)?,
        Err(_) => 0,
    };
    let Tally { run, told, differ } = replay(&buf[..n]);
    let _ = write!(
        pieces(rt),
        "{name}: bytes {n}, calls {run}, by programs {told}, differ {differ}\n"
    );
    Ok(())
}

// Replays every file, and asks `check` by words that it does not know.
fn main(rt: HostRuntime) -> io::Result<()> {
    for name in FILES {
        report(&rt, name)?;
    }
    let words = programs::UNKNOWN_WORDS.len();
    let differ = programs::unknown_words_differ();
    let _ = write!(
        pieces(&rt),
        "words that check does not know: {words}, differ {differ}\n"
    );
    Ok(())
}
