// The tables of a sheet's text: for each accent and tone which list each context takes, contexts that take one list folded together.
use crate::record::Record;
use std::fmt;
use std::fmt::Write;
use tonekit_core::layout;

// Where a row takes a list: not at the end of a phrase, at the end, in both places or in neither.
#[derive(Clone, Copy, PartialEq, Eq)]
enum Taken {
    Inside,
    Last,
    Both,
    Neither,
}

// Where a row takes list x.
fn takes(row: Record, x: u8) -> Taken {
    let inside = row.byte(layout::SHEET_ROW_LIST) == x;
    let last = row.byte(layout::SHEET_ROW_FINAL_LIST) == x;
    match (inside, last) {
        (true, true) => Taken::Both,
        (true, false) => Taken::Inside,
        (false, true) => Taken::Last,
        (false, false) => Taken::Neither,
    }
}

// The rows of one accent and tone, one for each preceding tone, none first.
// Stays: tonekit_sheet_plan's `Rows` are a pack's, and have no field in common with it.
#[derive(Clone, Copy)]
struct Rows<'a> {
    first: Record<'a>,
    count: usize,
}

impl<'a> Rows<'a> {
    // Row p.
    fn row(self, p: usize) -> Record<'a> {
        self.first.entry(layout::SHEET_ROW_SIZE, p)
    }

    // A list, as these rows take it.
    fn of(self, list: u8) -> Takers<'a> {
        Takers { rows: self, list }
    }
}

// The rows of one accent and tone, and a list that they may take.
#[derive(Clone, Copy)]
struct Takers<'a> {
    rows: Rows<'a>,
    list: u8,
}

impl Takers<'_> {
    // Whether one of the rows takes the list so.
    fn some(self, so: Taken) -> bool {
        for p in 0..self.rows.count {
            if takes(self.rows.row(p), self.list) == so {
                return true;
            }
        }
        false
    }

    // Whether one of the rows takes the list at one place of a phrase alone.
    fn by_place(self) -> bool {
        self.some(Taken::Inside) || self.some(Taken::Last)
    }

    // Adds the preceding tones of all rows that take the list so, behind the words for it.
    fn add_so(self, out: &mut impl Write, so: Taken, words: &str) -> fmt::Result {
        let mut before = words;
        for p in 0..self.rows.count {
            let row = self.rows.row(p);
            if takes(row, self.list) == so {
                match row.byte(layout::SHEET_ROW_PREV) {
                    0 => write!(out, "{before}none")?,
                    tone => write!(out, "{before}{tone}")?,
                }
                before = ", ";
            }
        }
        Ok(())
    }

    // Adds the contexts that take the list, folded together.
    fn add_contexts(self, out: &mut impl Write) -> fmt::Result {
        if !(self.some(Taken::Neither) || self.by_place()) {
            return writeln!(out, " in every context");
        }
        self.add_so(out, Taken::Both, " after ")?;
        if self.some(Taken::Both) && self.by_place() {
            write!(out, ";")?;
        }
        self.add_so(out, Taken::Inside, " not at the end of a phrase after ")?;
        if self.some(Taken::Inside) && self.some(Taken::Last) {
            write!(out, ";")?;
        }
        self.add_so(out, Taken::Last, " at the end of a phrase after ")?;
        writeln!(out)
    }
}

// Whether a context before names list x: one of a row before row p, or row p not at the end of a phrase where the end
// is asked for.
fn named_before(rows: Rows, p: usize, x: u8, last: bool) -> bool {
    let earlier = Rows {
        first: rows.first,
        count: p,
    };
    let takers = earlier.of(x);
    takers.by_place()
        || takers.some(Taken::Both)
        || last && rows.row(p).byte(layout::SHEET_ROW_LIST) == x
}

// The entry of what row p takes, at the end of a phrase or not, where no context before names it.
fn add_entry(out: &mut impl Write, rows: Rows, p: usize, last: bool) -> fmt::Result {
    let place = if last {
        layout::SHEET_ROW_FINAL_LIST
    } else {
        layout::SHEET_ROW_LIST
    };
    let x = rows.row(p).byte(place);
    if named_before(rows, p, x, last) {
        return Ok(());
    }
    match x {
        0 => write!(out, "  nothing:")?,
        _ => write!(out, "  list {x}:")?,
    }
    rows.of(x).add_contexts(out)
}

// The table of the accent and tone of these rows; nothing where they begin further on than with no preceding tone.
fn add_table(out: &mut impl Write, rows: Rows) -> fmt::Result {
    let first = rows.first;
    if first.byte(layout::SHEET_ROW_PREV) != 0 {
        return Ok(());
    }
    writeln!(
        out,
        "\naccent {}, tone {}",
        first.byte(layout::SHEET_ROW_ACCENT),
        first.byte(layout::SHEET_ROW_TONE)
    )?;
    for p in 0..rows.count {
        add_entry(out, rows, p, false)?;
        add_entry(out, rows, p, true)?;
    }
    Ok(())
}

// The tables of so many rows from the first on, of which each accent and tone has so many.
pub fn add_tables(out: &mut impl Write, first: Record, rows: usize, each: usize) -> fmt::Result {
    writeln!(
        out,
        "\ncontexts, by preceding tone (none: no tone precedes), at the end of a phrase or not:"
    )?;
    for r in 0..rows {
        let first = first.entry(layout::SHEET_ROW_SIZE, r);
        add_table(out, Rows { first, count: each })?;
    }
    Ok(())
}
