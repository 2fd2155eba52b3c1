// Document 01's limits.
pub const TONES: usize = 8;

pub const ACCENTS: usize = 8;

pub const RULES: usize = 64;

pub const PARTS_OF_A_RULE: usize = 4;

pub const PARTS: usize = 128;

pub const KNOTS: u8 = 10;

pub const VARIANTS: u8 = 4;

pub const FRAMES: u16 = 1024;

// Of a sheet.
pub const LISTS: usize = 128;

pub const COMPONENTS: usize = 192;
