// What a list of runs comes to, rule by rule: the row of a report, and the lengths of runs and reports in bytes. What a row says of
// a list, and what is proved of reports, stands in specs/ and proofs/.
#![tactic(auto)]

// The bytes of a run.
pub const RUN_LENGTH: usize = 12;

// The bytes of a report's row.
pub const ROW_LENGTH: usize = 32;

// The bytes of a report: a row for each rule.
pub const REPORT_LENGTH: usize = 8192;

// What a report says of one rule: its runs, those that came to each verdict, and of those that were false the earliest tick, the
// latest, and the sum of the ticks. Where none was false these three are 0.
#[derive(Clone, Copy)]
pub struct Row {
    pub runs: u32,
    pub falses: u32,
    pub trues: u32,
    pub pendings: u32,
    pub earliest: u32,
    pub latest: u32,
    pub sum: u64,
}
