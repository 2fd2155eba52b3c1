// The records of a sheet, each written to the front of what is lent.
ghost use Rattle.std.specs.Prelude.{◌≡◌, ◌+◌, ◌≤◌, ◌<◌, List, ℕ, length};
ghost use Rattle.tonekit_core.specs.declared.layout.TheConstants.{TONE_SIZE, TAIL_KIND, TAIL_SIZE, SHEET_ROW_SIZE, SHEET_LIST_SIZE, SHEET_COMPONENT_SIZE};
ghost use Rattle.spec_sheet.specs.Sheet.{row_bytes};
ghost use Rattle.spec_lookup.specs.Source.{carried, tail_at};
ghost use Rattle.tonekit_sheet_write.specs.Pieces.{Fronted, head_of, settings_made, tail_made, tone_made, accent_made};
ghost use Rattle.tonekit_sheet.specs.Parts.{component_bytes};

use tonekit_bytes::{byte_at, put_f32, put_f32s, put_u8, put_u16, put_u32, u32_at};
use tonekit_core::layout;
use tonekit_expect::{Component, Context, Listing};

// A record of a sheet that is made of a record of the pack.
pub trait Record: Drop {
    // Its bytes, by the pack's bytes and the place of the pack's record.
    ghost made: { List ℕ → ℕ → List ℕ };

    // Writes it: how many bytes it has.
    fn put(s: &[u8], o: usize, out: &mut [u8]) -> usize
        requires { length (made s.now o) ≤ length out.old }
        ensures front { Fronted (made s.now o) out.old out.new }
        ensures size { result ≡ length (made s.now o) };
}

// The settings: temperature and threshold.
#[derive(Drop)]
pub struct Settings;

impl Record for Settings {
    ghost made = { settings_made };

    fn put(s: &[u8], o: usize, out: &mut [u8]) -> usize {
        let temperature = u32_at(s, o, layout::SETTINGS_TEMPERATURE);
        let threshold = u32_at(s, o, layout::SETTINGS_THRESHOLD);
        put_u8(out, 0, layout::SHEET_SETTINGS_KIND);
        put_u32(out, layout::SETTINGS_TEMPERATURE, temperature);
        put_u32(out, layout::SETTINGS_THRESHOLD, threshold);
        layout::SETTINGS_SIZE
    }
}

// A value of the tail that may follow the pack's tone at o, by its bits: 0 where none follows.
fn tail_bits(s: &[u8], o: usize, value: usize) -> u32
    requires { value < TAIL_SIZE }
    ensures { result ≡ tail_at TAIL_KIND value s.now (o + TONE_SIZE) }
{
    if byte_at(s, o, layout::TONE_SIZE) == layout::TAIL_KIND {
        u32_at(s, o, layout::TONE_SIZE + value)
    } else {
        0
    }
}

// The tail of the pack's tone at o: both values, bit for bit.
fn put_tail(s: &[u8], o: usize, out: &mut [u8])
    requires { TAIL_SIZE ≤ length out.old }
    ensures { Fronted (tail_made s.now o) out.old out.new }
{
    put_u8(out, 0, layout::SHEET_TAIL_KIND);
    put_u32(out, layout::TAIL_FINAL, tail_bits(s, o, layout::TAIL_FINAL));
    put_u32(
        out,
        layout::TAIL_ELSEWHERE,
        tail_bits(s, o, layout::TAIL_ELSEWHERE),
    );
}

// A tone: number, prior and region, and its tail.
#[derive(Drop)]
pub struct Tone;

impl Record for Tone {
    ghost made = { tone_made };

    fn put(s: &[u8], o: usize, out: &mut [u8]) -> usize {
        put_u8(out, 0, layout::SHEET_TONE_KIND);
        put_u8(out, layout::OWN_NUMBER, byte_at(s, o, layout::OWN_NUMBER));
        put_u32(
            out,
            layout::SHEET_TONE_PRIOR,
            u32_at(s, o, layout::TONE_PRIOR),
        );
        put_u8(
            out,
            layout::SHEET_TONE_REGION,
            byte_at(s, o, layout::TONE_REGION),
        );
        put_u32(
            out,
            layout::SHEET_TONE_FROM,
            u32_at(s, o, layout::TONE_FROM),
        );
        put_u32(out, layout::SHEET_TONE_TO, u32_at(s, o, layout::TONE_TO));
        put_tail(s, o, &mut out[layout::SHEET_TONE_SIZE..]);
        layout::SHEET_TONE_STEP
    }
}

// An accent: number and tolerances.
#[derive(Drop)]
pub struct Accent;

impl Record for Accent {
    ghost made = { accent_made };

    fn put(s: &[u8], o: usize, out: &mut [u8]) -> usize {
        put_u8(out, 0, layout::SHEET_ACCENT_KIND);
        put_u8(out, layout::OWN_NUMBER, byte_at(s, o, layout::OWN_NUMBER));
        put_u32(
            out,
            layout::SHEET_ACCENT_CONTOUR,
            u32_at(s, o, layout::ACCENT_CONTOUR),
        );
        put_u32(
            out,
            layout::SHEET_ACCENT_ONSET,
            u32_at(s, o, layout::ACCENT_ONSET),
        );
        put_u32(
            out,
            layout::SHEET_ACCENT_OFFSET,
            u32_at(s, o, layout::ACCENT_OFFSET),
        );
        put_u32(
            out,
            layout::SHEET_ACCENT_TURNING,
            u32_at(s, o, layout::ACCENT_TURNING),
        );
        layout::SHEET_ACCENT_SIZE
    }
}

// A row's accent, tone and prev, and its two list numbers.
pub fn put_row(out: &mut [u8], c: Context, n: u8, m: u8)
    requires { SHEET_ROW_SIZE ≤ length out.old }
    ensures { Fronted (row_bytes c n m) out.old out.new }
{
    out[0] = layout::SHEET_ROW_KIND;
    out[layout::SHEET_ROW_ACCENT] = c.accent;
    out[layout::SHEET_ROW_TONE] = c.tone;
    out[layout::SHEET_ROW_PREV] = c.prev;
    out[layout::SHEET_ROW_LIST] = n;
    out[layout::SHEET_ROW_FINAL_LIST] = m;
}

// A list's number and its name, and how many components follow.
pub fn put_head(out: &mut [u8], number: u8, l: Listing)
    requires { (SHEET_LIST_SIZE ≤ length out.old) × (l.count ≤ 4) }
    ensures { Fronted (head_of number l) out.old out.new }
{
    put_u8(out, 0, layout::SHEET_LIST_KIND);
    put_u8(out, layout::OWN_NUMBER, number);
    put_u8(out, layout::SHEET_LIST_OWNER, l.name.owner);
    put_u8(out, layout::SHEET_LIST_FORM, l.name.form);
    put_u16(out, layout::SHEET_LIST_LABEL, l.name.label);
    put_u8(out, layout::SHEET_LIST_COUNT, l.count as u8);
}

// A component's weight and ten points.
pub fn put_component(out: &mut [u8], c: Component)
    requires { SHEET_COMPONENT_SIZE ≤ length out.old }
    ensures { Fronted (component_bytes (carried c)) out.old out.new }
{
    let points = c.points;
    put_u8(out, 0, layout::SHEET_COMPONENT_KIND);
    put_f32(out, layout::SHEET_COMPONENT_WEIGHT, c.weight);
    put_f32s(out, layout::SHEET_COMPONENT_POINTS, &points);
}
