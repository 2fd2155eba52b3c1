// The records of a sheet that its text tells of.
ghost use Rattle.std.specs.Prelude.{◌≡◌, ◌+◌, ◌*◌, min};
ghost use Rattle.spec_arithmetic.specs.Fields.{byte_at, u16_at, u32_at};
ghost use Rattle.tonekit_decimal.specs.Decimal.{decimal_text};

use arrayvec::ArrayString;
use tonekit_bytes::{byte_at, u16_at, u32_at};

// A record of a sheet: what stands from an index on.
#[derive(Clone, Copy)]
pub struct Record<'a> {
    sheet: &'a [u8],
    at: usize,
}

impl<'a> Record<'a> {
    // The record at an index.
    pub fn new(sheet: &'a [u8], at: usize) -> Self
        ensures { (result.sheet.now ≡ sheet.now) × (result.at ≡ at) }
    {
        Record { sheet, at }
    }

    // Of records of one size that begin here the one with a number.
    pub fn entry(self, size: usize, number: usize) -> Self
        ensures { (result.sheet.now ≡ self.entry.sheet.now) × (result.at ≡ min (self.entry.at + min (size * number) 18446744073709551615) 18446744073709551615) }
    {
        self.part(size.saturating_mul(number))
    }

    // What stands from byte k on.
    pub fn part(self, k: usize) -> Self
        ensures { (result.sheet.now ≡ self.entry.sheet.now) × (result.at ≡ min (self.entry.at + k) 18446744073709551615) }
    {
        Record::new(self.sheet, self.at.saturating_add(k))
    }

    // Byte k.
    pub fn byte(self, k: usize) -> u8
        ensures { result ≡ byte_at self.entry.sheet.now (self.entry.at + k) }
    {
        byte_at(self.sheet, self.at, k)
    }

    // The number of the two bytes at k.
    pub fn number(self, k: usize) -> u16
        ensures { result ≡ u16_at self.entry.sheet.now (self.entry.at + k) }
    {
        u16_at(self.sheet, self.at, k)
    }

    // The float at k, as the shortest decimal that reads back to its bits.
    pub fn float(self, k: usize) -> ArrayString<192>
        ensures { result.bytes ≡ decimal_text (u32_at self.entry.sheet.now (self.entry.at + k)) }
    {
        tonekit_decimal::decimal(u32_at(self.sheet, self.at, k))
    }
}
