// The library's calls, each with exactly the room that a sample lends.
ghost use Rattle.std.specs.Prelude.{◌≤◌};

use crate::recorded::{FILL, Recorded};
use crate::{Sample, functions};
use tonekit_core::{Rejection, layout};

// The room that can be lent, and all that is looked at, with what lies behind it.
const MOST: usize = 16000;

const ALL: usize = 16016;

// A call, by its number in a sample.
#[derive(Clone, Copy)]
pub enum Call {
    CheckPack = 1,
    CheckQuery = 2,
    CheckSheet = 3,
    Shape = 4,
    Sheet = 5,
    Judge = 6,
    JudgeSheet = 7,
    Ln = 10,
    Log2 = 11,
    Exp = 12,
    Root = 13,
    Narrow = 14,
    Expand = 15,
    Pick = 16,
    Solve = 17,
    Register = 18,
    Spread = 19,
}

const CALLS: [Call; 17] = [
    Call::CheckPack,
    Call::CheckQuery,
    Call::CheckSheet,
    Call::Shape,
    Call::Sheet,
    Call::Judge,
    Call::JudgeSheet,
    Call::Ln,
    Call::Log2,
    Call::Exp,
    Call::Root,
    Call::Narrow,
    Call::Expand,
    Call::Pick,
    Call::Solve,
    Call::Register,
    Call::Spread,
];

impl TryFrom<u8> for Call {
    type Error = u8;

    // The call with a number, or the number of none.
    fn try_from(number: u8) -> Result<Call, u8> {
        CALLS
            .iter()
            .copied()
            .find(|call| *call as u8 == number)
            .ok_or(number)
    }
}

// Whether a call that writes answers as recorded, lent so much room.
fn written<F: FnOnce(&mut [u8]) -> Result<usize, Rejection>>(
    recorded: Recorded,
    room: usize,
    call: F,
) -> bool
    requires room { room ≤ 16000 }
    requires callable { F.IsAlwaysCallable call }
{
    let mut space = [FILL; ALL];
    let answer = call(&mut space[..room]);
    recorded.answers(answer, &space[..room + (ALL - MOST)])
}

impl Call {
    // The longest that the call writes.
    pub fn longest(self) -> usize {
        match self {
            Call::Shape => layout::SHAPE_SIZE,
            Call::Sheet => layout::SHEET_MOST,
            Call::Judge | Call::JudgeSheet => layout::JUDGEMENT_SIZE,
            _ => 0,
        }
    }

    // Whether the call answers as recorded: the recorded number, place or length, and bytes. None does with
    // more room than can be lent.
    pub fn agrees(self, sample: Sample) -> bool {
        let room = sample.room.unwrap_or(self.longest());
        if MOST < room {
            return false;
        }
        let Sample {
            first,
            second,
            recorded,
            ..
        } = sample;
        match self {
            Call::CheckPack => recorded.checks(tonekit_pack::check_pack(first)),
            Call::CheckQuery => recorded.checks(tonekit_query::check_query(first)),
            Call::CheckSheet => recorded.checks(tonekit_sheet_read::check_sheet(first)),
            Call::Shape => written(recorded, room, |out| tonekit_shape::write_shape(first, out)),
            Call::Sheet => written(recorded, room, |out| {
                tonekit_sheet_write::write_sheet(first, out)
            }),
            Call::Judge => written(recorded, room, |out| {
                tonekit_station::judge(first, second, out)
            }),
            Call::JudgeSheet => written(recorded, room, |out| {
                tonekit_station::judge_sheet(first, second, out)
            }),
            Call::Ln => functions::f64s(first, recorded, tonekit_log::ln),
            Call::Log2 => functions::f64s(first, recorded, tonekit_log::log2),
            Call::Exp => functions::f64s(first, recorded, tonekit_log::exp),
            Call::Root => functions::f64s(first, recorded, tonekit_root::sqrt),
            Call::Narrow => functions::narrowed(first, recorded),
            Call::Expand => functions::expanded(first, recorded),
            Call::Pick => functions::picked(first, recorded),
            Call::Solve => functions::solved(first, recorded),
            Call::Register => functions::registered(first, recorded),
            Call::Spread => functions::spread(first, recorded),
        }
    }
}
