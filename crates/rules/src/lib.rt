// The rule file: where its parts stand, and what `read` and `write` answer. The calls themselves are in the crates `reading` and
// `writing`; what they promise is in specs/ here, and the tests of their checks are in checks.rt.
#![tactic(auto)]

pub mod checks;

pub const VERSION: u16 = 1;

// The header's length: where the masks begin.
pub const MASKS_AT: usize = 16;

// Where the file's own length stands in the header.
pub const TOTAL_AT: usize = 12;

// The length of the longest file.
pub const FILE_MOST: usize = 1168;

#[derive(Clone, Copy)]
pub struct RuleCounts {
    pub boards: u64,
    pub propositions: u64,
    pub nodes: u64,
}
