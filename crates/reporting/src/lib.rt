// The call `report`: what a night's runs come to, rule by rule. The runs are counted in one pass, into tables on the stack, and the report
// is written only where all of them are known.
#![tactic(auto)]

ghost use Rattle.std.specs.Prelude.{◌≡◌};
ghost use Rattle.reporting.specs.Report.{run_lengths_ok, Reports};

use answers::Refusal;
use limits::RUNS_MOST;
use reports::{REPORT_LENGTH, RUN_LENGTH};
use tallying::RunTables;

// Why runs were not counted: a refusal, or a run that is not known, with its place.
#[derive(Clone, Copy, Debug, PartialEq, Eq)]
pub enum ReportError {
    Refused(Refusal),
    NoRun(usize),
}

// Whether the runs are whole ones and not too many, and a buffer of so many bytes has a report's length.
#[tactic(auto, unfolding(crate::specs::Report::run_lengths_ok, lists::specs::Tests::both))]
fn lengths_fit(runs: &[u8], room: usize) -> bool
    ensures { result ≡ run_lengths_ok runs.now room }
{
    room == REPORT_LENGTH && runs.len() % RUN_LENGTH == 0 && runs.len() <= RUN_LENGTH * RUNS_MOST
}

#[tactic(auto, using(crate::proofs::Outcomes::length_refused, crate::proofs::Outcomes::tally_asks, crate::proofs::Outcomes::no_run, crate::proofs::Outcomes::rows_asked))]
pub fn report(runs: &[u8], report: &mut [u8]) -> Result<(), ReportError>
    ensures { Reports runs.now report.old report.new result }
{
    if !lengths_fit(runs, report.len()) {
        return Err(ReportError::Refused(Refusal::Length));
    }
    let mut tables = RunTables::new();
    let n = tables.tally(runs);
    if n < runs.len() / RUN_LENGTH {
        return Err(ReportError::NoRun(n));
    }
    tables.put_rows(report);
    Ok(())
}
