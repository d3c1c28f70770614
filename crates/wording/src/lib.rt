// The lines that the program `vydrulka` writes for people, built as texts: of a refusal, of a rule or a report that was accepted, and of a
// recording. Nothing here writes.
#![tactic(auto)]

pub mod accepted;
pub mod recorded;
pub mod refusals;
