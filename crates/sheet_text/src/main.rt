// sheet_text [FILE]..: each sheet as plain text on standard output, or 52, number, u32 place; - is
// standard input, and so is no FILE at all. No sheet has more bytes than are read. README.md
// describes the text.
#![tactic(auto)]

mod record;
mod tables;

use crate::record::Record;
use std::env::Env;
use std::fmt::Write;
use std::io::Read;
use std::rt::Files;
use std::{fmt, fs, io, str};
use tonekit_core::layout;
use tonekit_edge::Page;
use tonekit_sheet_read::SheetView;

// The title and the settings.
fn add_settings(out: &mut impl Write, sheet: Record) -> fmt::Result {
    write!(
        out,
        "tonekit sheet\n\nsettings: temperature {}, heard threshold {}\n\n",
        sheet.float(layout::SETTINGS_TEMPERATURE),
        sheet.float(layout::SETTINGS_THRESHOLD)
    )
}

// A tone's region, or that it has none.
fn add_region(out: &mut impl Write, tone: Record) -> fmt::Result {
    if tone.byte(layout::SHEET_TONE_REGION) == 0 {
        return write!(out, ", no region");
    }
    write!(
        out,
        ", region {} to {}",
        tone.float(layout::SHEET_TONE_FROM),
        tone.float(layout::SHEET_TONE_TO)
    )
}

// A tail, which ends its tone's line.
fn add_tail(out: &mut impl Write, tail: Record) -> fmt::Result {
    writeln!(
        out,
        ", tail at phrase end {}, elsewhere {}",
        tail.float(layout::TAIL_FINAL),
        tail.float(layout::TAIL_ELSEWHERE)
    )
}

// A tone with its tail.
// Stays: a tone and an accent share no words and no fields but their number, so one function for both would be these two behind a switch.
fn add_tone(out: &mut impl Write, tone: Record) -> fmt::Result {
    write!(
        out,
        "tone {}: prior {}",
        tone.byte(layout::OWN_NUMBER),
        tone.float(layout::SHEET_TONE_PRIOR)
    )?;
    add_region(out, tone)?;
    add_tail(out, tone.part(layout::SHEET_TONE_SIZE))
}

// So many tones from the first on, in the sheet's order.
fn add_tones(out: &mut impl Write, first: Record, tones: usize) -> fmt::Result {
    for t in 0..tones {
        add_tone(out, first.entry(layout::SHEET_TONE_STEP, t))?;
    }
    Ok(())
}

// An accent.
// Stays: beside `add_tone`, with which it shares the number alone.
fn add_accent(out: &mut impl Write, accent: Record) -> fmt::Result {
    writeln!(
        out,
        "accent {}: tolerances contour {}, onset {}, offset {}, turning {}",
        accent.byte(layout::OWN_NUMBER),
        accent.float(layout::SHEET_ACCENT_CONTOUR),
        accent.float(layout::SHEET_ACCENT_ONSET),
        accent.float(layout::SHEET_ACCENT_OFFSET),
        accent.float(layout::SHEET_ACCENT_TURNING)
    )
}

// So many accents from the first on.
fn add_accents(out: &mut impl Write, first: Record, accents: usize) -> fmt::Result {
    writeln!(out)?;
    for a in 0..accents {
        add_accent(out, first.entry(layout::SHEET_ACCENT_SIZE, a))?;
    }
    Ok(())
}

// Ten points.
fn add_points(out: &mut impl Write, points: Record) -> fmt::Result {
    write!(out, "    points {}", points.float(0))?;
    for i in 1..10 {
        write!(out, ", {}", points.float(layout::F32_SIZE * i))?;
    }
    writeln!(out)
}

// So many components from the first on.
fn add_components(out: &mut impl Write, first: Record, count: u8) -> fmt::Result {
    for j in 0..count {
        let component = first.entry(layout::SHEET_COMPONENT_SIZE, usize::from(j));
        let weight = component.float(layout::SHEET_COMPONENT_WEIGHT);
        writeln!(out, "  component {j}: weight {weight}")?;
        add_points(out, component.part(layout::SHEET_COMPONENT_POINTS))?;
    }
    Ok(())
}

// The word for a list's form.
// Stays: a form is the format's byte here as in `tonekit_core::Name`, and this match is the only one on it.
fn form_word(form: u8) -> &'static str {
    match form {
        layout::CITATION_FORM => "citation",
        layout::SINGLE_FORM => "single",
        _ => "mixture",
    }
}

// A list.
fn add_list(out: &mut impl Write, list: Record) -> fmt::Result {
    writeln!(
        out,
        "\nlist {}: owner accent {}, form {}, label {}",
        list.byte(layout::OWN_NUMBER),
        list.byte(layout::SHEET_LIST_OWNER),
        form_word(list.byte(layout::SHEET_LIST_FORM)),
        list.number(layout::SHEET_LIST_LABEL)
    )?;
    let count = list.byte(layout::SHEET_LIST_COUNT);
    add_components(out, list.part(layout::SHEET_LIST_SIZE), count)
}

// The lists at these offsets.
fn add_lists(out: &mut impl Write, sheet: Record, offsets: &[u16]) -> fmt::Result {
    writeln!(
        out,
        "\nlists, each component with its weight and ten points, evenly spaced from start to end:"
    )?;
    for offset in offsets {
        add_list(out, sheet.part(usize::from(*offset)))?;
    }
    Ok(())
}

// The text of a sheet that loads.
fn add_sheet(out: &mut impl Write, view: &SheetView) -> fmt::Result {
    let held = &view.sheet;
    let sheet = Record::new(view.bytes, 0);
    let rows = layout::sheet_accent_at(held.tones, held.accents);
    add_settings(out, sheet)?;
    add_tones(out, sheet.part(layout::sheet_tone_at(0)), held.tones)?;
    add_accents(
        out,
        sheet.part(layout::sheet_tone_at(held.tones)),
        held.accents,
    )?;
    tables::add_tables(out, sheet.part(rows), held.rows, held.tones + 1)?;
    add_lists(out, sheet, held.lists.offsets())?;
    writeln!(out, "\nend")
}

// Writes the text of a sheet, or its refusal.
fn print_sheet<R: Print + Eprint>(rt: &R, bytes: &[u8]) {
    match tonekit_sheet_read::load_sheet(bytes) {
        Ok(loaded) => {
            let mut page = Page::new(rt, "sheet_text");
            let sheet = loaded.held;
            let _ = add_sheet(&mut page, &SheetView { bytes, sheet });
            page.flush();
        }
        Err(rejection) => {
            let record = tonekit_report::refusal_record(rejection);
            tonekit_edge::write_out(rt, "sheet_text", &record);
        }
    }
}

// Prints the sheet that an open file holds.
fn print_open<R: Print + Eprint>(rt: &R, file: &mut impl Read) -> io::Result<()> {
    let mut space = [0u8; 65536];
    let n = tonekit_edge::read_full(file, &mut space)?;
    print_sheet(rt, &space[..n]);
    Ok(())
}

// Prints the sheet that a name names.
fn print_file<R: Files + Input + Print + Eprint>(rt: &R, name: &str) -> io::Result<()> {
    if name == "-" {
        return print_open(rt, &mut rt.reader());
    }
    print_open(rt, &mut fs::open(rt, name)?)
}

// Prints the sheet that argument i names, and tells on standard error where there is none to be read.
fn print_named<R: Env + Files + Input + Print + Eprint>(rt: &R, i: usize) {
    let mut name = [0u8; 4096];
    let Ok(n) = rt.arg(i, &mut name) else {
        let _ = eprintln!(rt; "sheet_text: File name too long");
        return;
    };
    let Ok(name) = str::from_utf8(&name[..n]) else {
        let _ = eprintln!(rt; "sheet_text: a file's name is not UTF-8");
        return;
    };
    if let Err(error) = print_file(rt, name) {
        tonekit_edge::fail(rt, name, error);
    }
}

// Prints the sheets that the arguments name; standard input where there are none.
fn main(rt: HostRuntime) -> io::Result<()> {
    let count = tonekit_edge::arg_count(&rt);
    if count < 2 {
        return print_open(&rt, &mut rt.reader());
    }
    for i in 1..count {
        print_named(&rt, i);
    }
    Ok(())
}
