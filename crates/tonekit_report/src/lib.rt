// What the programs write on standard output: bytes, or a refusal's record.
#![tactic(auto)]

ghost use Rattle.std.specs.Prelude.{◌≤◌, ◌≡◌, length, take};
ghost use Rattle.tonekit_core.specs.declared.layout.TheConstants.{REFUSAL_SIZE};
ghost use Rattle.tonekit_report.specs.Report.{refusal_bytes, told_count, told_buffer};

use tonekit_core::{Rejection, layout};

// The refusal record: 52, the number, the place as a u32.
pub fn refusal_record(e: Rejection) -> [u8; layout::REFUSAL_SIZE]
    ensures { result ≡ refusal_bytes e.why e.place }
{
    let [first, second, third, fourth] = ((e.place % 0x1_0000_0000) as u32).to_le_bytes();
    [
        layout::REFUSAL_KIND,
        u8::from(e.why),
        first,
        second,
        third,
        fourth,
    ]
}

// How many bytes at the front of a buffer a program writes, by what a call with that buffer answered. A
// refusal's record is put there first.
pub fn tell(answer: Result<usize, Rejection>, out: &mut [u8]) -> usize
    requires { REFUSAL_SIZE ≤ length out.old }
    ensures { (result ≡ told_count answer) × (out.new ≡ told_buffer out.old answer) }
{
    match answer {
        Ok(n) => n,
        Err(e) => {
            tonekit_bytes::put_bytes(out, 0, &refusal_record(e));
            layout::REFUSAL_SIZE
        }
    }
}

// The first n bytes; of a shorter slice all.
pub fn front(s: &[u8], n: usize) -> &[u8]
    ensures { result.now ≡ take n s.now }
{
    &s[..n.min(s.len())]
}
