// The constants of the format, by name (specs/Format.antt has the same for the definitions).

// The byte that opens a group, and the byte between groups (DFCB 3.2.7.1.1).
pub const SYNC: u8 = 0x16;

pub const FILL: u8 = 0x32;

// The words of the minor frame sync, at places 0 to 2 (DFCB table 10-2).
pub const SYNC_WORD_0: u8 = 0xFA;

pub const SYNC_WORD_1: u8 = 0xF3;

pub const SYNC_WORD_2: u8 = 0x20;

// A minor frame has 128 places; place 65 holds its number (DFCB table 10-3).
pub const MINOR_FRAME: usize = 128;

pub const NUMBER_PLACE: usize = 65;

// A major frame is 128 minor frames.
pub const MAJOR_FRAME: usize = 16384;
