// The functions behind the programs: what each writes of a sample.
use crate::Sample;
use crate::calls::Call;
use crate::recorded::{FILL, Recorded, untouched};
use std::convert::AsSlice;
use tonekit_core::layout;

// The longest query that the input of a station has room for behind the longest pack, and that input.
const QUERY: usize = 14000;

const INPUT: usize = 80000;

// Words that `check` does not know.
pub const UNKNOWN_WORDS: [&str; 6] = ["", "pac", "packs", "Pack", "judge", "sheet "];

// Whether a program tells as recorded of what is lent to it.
fn told<B: AsSlice<u8>, F: FnOnce(&mut B) -> usize>(
    recorded: Recorded,
    lent: &mut B,
    program: F,
) -> bool
    requires { F.IsAlwaysCallable program }
{
    let n = program(lent);
    recorded.told(lent.as_slice(), n)
}

// Whether `check` with a word tells as recorded.
fn checked(word: &[u8], input: &[u8], recorded: Recorded) -> bool {
    let mut out = [FILL; layout::REFUSAL_SIZE];
    match tonekit_output::check_output(word, input, &mut out) {
        Some(n) => recorded.told(&out, n),
        None => false,
    }
}

// Whether `check` does not know a word, and leaves what it was lent.
fn unknown(word: &[u8]) -> bool {
    let mut out = [FILL; layout::REFUSAL_SIZE];
    tonekit_output::check_output(word, b"", &mut out).is_none() && untouched(&out)
}

// Of words that `check` does not know, how many it takes.
pub fn unknown_words_differ() -> usize {
    UNKNOWN_WORDS
        .iter()
        .filter(|word| !unknown(word.as_bytes()))
        .count()
}

// Puts together the input of a station: u16 length, pack or sheet, query; none where there is no room.
fn put_input(space: &mut [u8; INPUT], held: &[u8], query: &[u8]) -> Option<usize> {
    if 65535 < held.len() || QUERY < query.len() {
        return None;
    }
    let at = 2 + held.len();
    tonekit_bytes::put_u16(space, 0, held.len() as u16);
    tonekit_bytes::put_bytes(space, 2, held);
    tonekit_bytes::put_bytes(space, at, query);
    Some(at + query.len())
}

// Whether a station, on a pack or on a sheet, tells as recorded.
fn judged<F: FnOnce(&[u8], &mut [u8; layout::JUDGEMENT_SIZE]) -> usize>(
    sample: Sample,
    station: F,
) -> bool
    requires { F.IsAlwaysCallable station }
{
    let mut space = [0u8; INPUT];
    let Some(n) = put_input(&mut space, sample.first, sample.second) else {
        return false;
    };
    let input = tonekit_report::front(&space, n);
    told(
        sample.recorded,
        &mut [FILL; layout::JUDGEMENT_SIZE],
        |out| { station(input, out) },
    )
}

impl Call {
    // Whether the call is a program's work, lent what the program lends, and then whether the program tells
    // as recorded.
    pub fn told(self, sample: Sample) -> Option<bool> {
        let Sample {
            first,
            recorded,
            ..
        } = sample;
        match self {
            Call::CheckPack => Some(checked(b"pack", first, recorded)),
            Call::CheckQuery => Some(checked(b"query", first, recorded)),
            Call::CheckSheet => Some(checked(b"sheet", first, recorded)),
            Call::Shape => Some(told(
                recorded,
                &mut [FILL; layout::SHAPE_SIZE],
                |out| tonekit_output::shape_output(first, out),
            )),
            Call::Sheet => Some(told(
                recorded,
                &mut [FILL; layout::SHEET_MOST],
                |out| tonekit_output::sheet_output(first, out),
            )),
            Call::Judge => Some(judged(sample, tonekit_station_output::station_output)),
            Call::JudgeSheet => Some(judged(sample, tonekit_station_output::station_sheet_output)),
            _ => None,
        }
    }
}
