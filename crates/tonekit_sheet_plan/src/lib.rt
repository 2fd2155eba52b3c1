// The planner of a pack's sheet: the accents in ascending order, the context of each row, and which
// list each context takes, numbered by first use along the rows.
#![tactic(auto)]

ghost use Rattle.std.specs.Prelude.{◌≡◌, ◌≤◌, ◌<◌, IfSome, length, [], ◌∷◌, ◌++◌};
ghost use Rattle.std.proofs.Math.Option.{some};
ghost use Rattle.tonekit_pack.specs.Held.{records_of};
ghost use Rattle.spec_lookup.specs.Source.{carried_of};
ghost use Rattle.spec_sheet.specs.Number.{same, number_in};
ghost use Rattle.spec_sheet.specs.Sheet.{lists_of};
ghost use Rattle.tonekit_sheet_plan.specs.Rows.{pack_view};
ghost use Rattle.tonekit_sheet_plan.specs.Listings.{carried_by, listing_from, Kept, LookKept};
ghost use Rattle.tonekit_sheet_plan.specs.Entries.{entry_listing, list_at, memo_after, Marked, Right, Consistent, FirstPlace, Noted};

mod curves;
pub mod rows;

pub use crate::curves::Curves;
pub use crate::rows::Rows;
use arrayvec::ArrayVec;
use tonekit_bytes::byte_at;
use tonekit_core::layout;
use tonekit_expect::{Listing, citation, rule_listing};
use tonekit_sheet::row_count;

// A list of a plan: the record and the owner that its listing is found again by, and its mark.
#[derive(Clone, Copy, Default)]
pub struct Entry {
    pub at: u16,
    pub owner: u8,
    pub mark: u8,
}

// What a memo says of a listing: the record and the owner that it is found again by, and the number
// of its list.
// Stays: `at` and `owner` are in `Entry` too; a struct of the two would be a third type, and one more name before each field at the five places that read one.
#[derive(Clone, Copy, Default)]
pub struct Known {
    pub at: u16,
    pub owner: u8,
    pub number: u8,
}

// The lists of a sheet of these bytes, by number, and a memo of the numbers of listings.
#[derive(Drop)]
pub struct Plan<'a> {
    pub bytes: &'a [u8],
    pub lists: ArrayVec<Entry, 128>,
    pub memo: ArrayVec<Known, 128>,
    pub ghost sane: { Consistent bytes.now lists.items memo.items },
}

impl Entry {
    // The listing of the list: a rule's parts, else a tone's citation.
    // Stays: a rule's is the one kind that is asked for; by tonekit_pack's Kind the byte would first become a Result.
    pub fn listing(self, s: &[u8]) -> Listing
        ensures { result ≡ entry_listing s.now self }
    {
        let o = usize::from(self.at);
        if byte_at(s, o, 0) == layout::RULE_KIND {
            return rule_listing(s, self.owner, o);
        }
        citation(self.owner, o)
    }

    // Whether curves of this mark are those of the list. Those of another mark are not compared.
    fn holds(self, c: Curves<'_>, mark: u8) -> bool
        requires { Marked c.bytes.now (entry_listing c.bytes.now self) self.mark × Marked c.bytes.now c.listing mark }
        ensures { result ≡ same (carried_by c.entry.bytes.now c.entry.listing)
            (carried_by c.entry.bytes.now (entry_listing c.entry.bytes.now self)) }
    {
        if self.mark != mark {
            return false;
        }
        c.same(Curves {
            bytes: c.bytes,
            listing: self.listing(c.bytes),
        })
    }
}

impl<'a> Plan<'a> {
    ghost use Rattle.tonekit_sheet_plan.specs.Plans.{planned_by, Blank, PlanOf, with_listing, with_look, with_row};

    // A plan without lists.
    pub fn empty(bytes: &'a [u8]) -> Plan<'a>
        ensures bytes { result.bytes.now ≡ bytes.now }
        ensures blank { Blank result }
    {
        Plan {
            bytes,
            lists: ArrayVec::new(),
            memo: ArrayVec::new(),
        }
    }

    // The listing of list i; past the last that of an entry of zeros.
    pub fn list_at(&self, i: usize) -> Listing
        ensures { result ≡ list_at self.now.bytes.now self.now.lists.items i }
    {
        match self.lists.as_slice().get(i) {
            Some(e) => e.listing(self.bytes),
            None => Entry::default().listing(self.bytes),
        }
    }

    // The curves of list i.
    pub fn curves(&self, i: usize) -> Curves<'a>
        requires { i < length self.now.lists.items }
        ensures bytes { result.bytes.now ≡ self.now.bytes.now }
        ensures listing { result.listing ≡ list_at self.now.bytes.now self.now.lists.items i }
    {
        Curves {
            bytes: self.bytes,
            listing: self.list_at(i),
        }
    }

    // The number that the memo has of the listing in this record under this owner.
    fn known_at(&self, at: u16, owner: u8) -> Option<u8>
        ensures { IfSome result (λ n. Noted self.now.memo.items at owner n) }
    {
        for e in self.memo.as_slice() {
            if e.at == at && e.owner == owner {
                return Some(e.number);
            }
        }
        None
    }

    // The place of a listing's list: that of the first that is the same, or behind the last.
    fn place_of(&self, c: Curves<'_>, mark: u8) -> usize
        requires { (c.bytes.now ≡ self.now.bytes.now) × Marked self.now.bytes.now c.listing mark }
        ensures place { FirstPlace (carried_by self.now.bytes.now c.entry.listing) (planned_by self.now) result }
        ensures few { result ≤ 128 }
    {
        for (i, e) in self.lists.as_slice().iter().enumerate() {
            if e.holds(c, mark) {
                return i;
            }
        }
        self.lists.len()
    }

    // One more list.
    fn enter(&mut self, e: Entry)
        requires { (length self.old.lists.items < 128) × Marked self.old.bytes.now (entry_listing self.old.bytes.now e) e.mark }
        ensures { (self.new.bytes.now ≡ self.old.bytes.now) × (self.new.lists.items ≡ self.old.lists.items ++ (e ∷ [])) }
    {
        self.lists.push(e);
    }

    // One more entry of the memo, where there is room.
    fn remember(&mut self, e: Known)
        requires { Right self.old.bytes.now (planned_by self.old) e }
        ensures { (self.new.bytes.now ≡ self.old.bytes.now) × (self.new.lists.items ≡ self.old.lists.items)
            × (self.new.memo.items ≡ memo_after self.old.memo.items e) }
    {
        if !self.memo.is_full() {
            self.memo.push(e);
        }
    }

    // The lists with one more listing's, if it is new. One that the memo has is compared with none.
    // Stays: that it is kept is asked for here, since a lookup hands back the listing alone; as Curves it would bring the bytes that the plan has, and be asked to have the same.
    fn note_listing(&mut self, l: Listing)
        requires { (length (with_listing self.old l) ≤ 128) × Kept self.old.bytes.now l }
        ensures { PlanOf (with_listing self.old l) self.old.bytes.now self.new }
    {
        let c = Curves {
            bytes: self.bytes,
            listing: l,
        };
        let at = c.record();
        let owner = l.name.owner;
        if self.known_at(at, owner).is_some() {
            return;
        }
        let mark = c.mark();
        let j = self.place_of(c, mark);
        let number = (j + 1) as u8;
        if self.lists.len() <= j {
            self.enter(Entry { at, owner, mark });
        }
        self.remember(Known { at, owner, number });
    }

    // The lists with what one more lookup gives.
    fn note(&mut self, x: Option<Listing>)
        requires { (length (with_look self.old x) ≤ 128) × LookKept self.old.bytes.now x }
        ensures { PlanOf (with_look self.old x) self.old.bytes.now self.new }
    {
        if let Some(l) = x {
            self.note_listing(l);
        }
    }

    // The lists with those of row i: not final before final.
    fn note_row(&mut self, rows: &Rows<'_>, i: usize)
        requires { (self.old.bytes.now ≡ rows.now.view.bytes.now)
            × (length (with_row rows.now.view.pack self.old i) ≤ 128) }
        ensures { PlanOf (with_row rows.now.view.pack self.old i) self.old.bytes.now self.new }
    {
        self.note(rows.look(i, false));
        self.note(rows.look(i, true));
    }

    // The lists of a pack's sheet, in a plan of its bytes that has none: at most 128, as the pack
    // loads.
    pub fn note_rows(&mut self, rows: &Rows<'_>)
        requires { (self.old.bytes.now ≡ rows.now.view.bytes.now) × Blank self.old }
        ensures { PlanOf (lists_of (pack_view rows.now.view.bytes.now (records_of rows.now.view.pack)))
            rows.now.view.bytes.now self.new }
    {
        for i in 0..row_count(rows.accents.count, rows.view.pack.tones.count) {
            self.note_row(rows, i);
        }
    }

    // The number of a listing's list: the memo's, or its place from 1.
    fn number_listing(&self, l: Listing) -> u8
        requires { Kept self.now.bytes.now l }
        ensures { result ≡ number_in (planned_by self.now) (some (carried_by self.now.bytes.now l)) }
    {
        let c = Curves {
            bytes: self.bytes,
            listing: l,
        };
        if let Some(n) = self.known_at(c.record(), l.name.owner) {
            return n;
        }
        (self.place_of(c, c.mark()) + 1) as u8
    }

    // The number of what a lookup gives, 0 for nothing.
    // Stays: 0 for nothing is the byte that a sheet's row holds; an Option would be turned into it where the row is written.
    pub fn number_of(&self, x: Option<Listing>) -> u8
        requires { LookKept self.now.bytes.now x }
        ensures { result ≡ number_in (planned_by self.now) (carried_of self.now.bytes.now x) }
    {
        match x {
            Some(l) => self.number_listing(l),
            None => 0,
        }
    }
}
