// What is recorded of a call, and whether an answer is as recorded.
use tonekit_core::{Rejection, layout};

// Every byte that is lent to a call.
pub const FILL: u8 = 0xA5;

// The number of a call's answer, 0 or a refusal's; its place, or how many bytes it wrote; and these bytes.
// Stays: the file records all three of every call, and each is compared; in a Result the count beside the bytes of an Ok would be lost.
#[derive(Clone, Copy)]
pub struct Recorded<'a> {
    pub number: u8,
    pub place: u32,
    pub bytes: &'a [u8],
}

// Whether all bytes are as they were lent.
pub fn untouched(lent: &[u8]) -> bool {
    lent.iter().all(|byte| *byte == FILL)
}

// Whether these bytes, and nothing else, were written to the front of what was lent.
fn wrote(lent: &[u8], n: usize, bytes: &[u8]) -> bool {
    match lent.split_at_checked(n) {
        Some((written, rest)) => written == bytes && untouched(rest),
        None => false,
    }
}

impl Recorded<'_> {
    // Whether so many bytes are recorded.
    pub fn has(self, count: usize) -> bool {
        self.number == 0 && self.place as usize == count && self.bytes.len() == count
    }

    // Whether this refusal is recorded.
    fn refuses(self, rejection: Rejection) -> bool {
        self.number == u8::from(rejection.why) && self.place as usize == rejection.place
    }

    // Whether a check answered as recorded.
    pub fn checks(self, answer: Result<(), Rejection>) -> bool {
        match answer {
            Ok(()) => self.number == 0 && self.place == 0,
            Err(rejection) => self.refuses(rejection),
        }
    }

    // Whether a call answered as recorded, and a refused one left what was lent.
    pub fn answers(self, answer: Result<usize, Rejection>, lent: &[u8]) -> bool {
        match answer {
            Ok(n) => self.has(n) && wrote(lent, n, self.bytes),
            Err(rejection) => self.refuses(rejection) && untouched(lent),
        }
    }

    // Whether what a program told is as recorded: the bytes, or 52, number, u32 place; and nothing behind it.
    pub fn told(self, lent: &[u8], n: usize) -> bool {
        if self.number == 0 {
            return wrote(lent, n, self.bytes);
        }
        let [first, second, third, fourth] = self.place.to_le_bytes();
        let record = [
            layout::REFUSAL_KIND,
            self.number,
            first,
            second,
            third,
            fourth,
        ];
        wrote(lent, n, &record)
    }
}
