// The recorder's file of a capture: the lengths of its parts, how many records mending keeps, and the bytes that mark a record. What
// mending makes of a recording, and what is proved of that, stands in specs/ and proofs/.
#![tactic(auto)]

ghost use Rattle.std.specs.Prelude.{◌≡◌};
ghost use Rattle.recordings.specs.Records.{mark_byte};

// The bytes of a recording in front of its records.
pub const RECORDS_AT: usize = 16;

// The bytes of a record.
pub const RECORD_LENGTH: usize = 12;

// What mending a recording came to: how many records were kept, and how many of these are in the first stretch.
#[derive(Clone, Copy)]
pub struct Mended {
    pub kept: usize,
    pub first: usize,
}

// ---- marks, as the bytes of a lent buffer, which C reads
pub const KEPT: u8 = 0;

pub const DROPPED: u8 = 1;

// Kept after a break.
pub const BROKEN: u8 = 2;

// A record's mark; the byte is made where it is stored.
#[derive(Clone, Copy, Debug, PartialEq, Eq)]
pub enum Mark {
    Kept,
    Dropped,
    // Kept after a break.
    Broken,
}

impl From<Mark> for u8 {
    ghost from_gives = { λ mark byte. byte ≡ mark_byte mark };

    fn from(mark: Mark) -> u8 {
        match mark {
            Mark::Kept => KEPT,
            Mark::Dropped => DROPPED,
            Mark::Broken => BROKEN,
        }
    }
}
