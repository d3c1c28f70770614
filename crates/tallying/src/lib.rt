// Runs counted into tables, in one pass, and the rows of a report that the tables come to.
#![tactic(auto)]

ghost use Rattle.std.specs.Prelude.{[]};
ghost use Rattle.tallying.specs.Tables.{TalliedRuns};

use limits::RULES_MOST;

pub mod counted;
pub mod tabled;

// How many numbers the table of counts has: one for each verdict and rule.
pub const COUNTS_ROOM: usize = 768;

// The highest tick.
pub const HIGHEST_TICK: u32 = 4294967295;

// How many runs of each rule came to each verdict, those of one verdict one behind the other; and for each rule the earliest tick of
// false, the latest, and the sum. They take 7 KB: they are lent, and never copied.
#[derive(Drop)]
pub struct RunTables {
    pub counts: [u32; COUNTS_ROOM],
    pub earliest: [u32; RULES_MOST],
    pub latest: [u32; RULES_MOST],
    pub sums: [u64; RULES_MOST],
}

impl RunTables {
    // The tables of no runs: the earliest ticks are the highest that there is, and all else is 0.
    #[tactic(auto, using(crate::proofs::TableRows::none_tallied))]
    pub fn new() -> RunTables
        ensures { TalliedRuns [] result }
    {
        RunTables {
            counts: [0; COUNTS_ROOM],
            earliest: [HIGHEST_TICK; RULES_MOST],
            latest: [0; RULES_MOST],
            sums: [0; RULES_MOST],
        }
    }
}
