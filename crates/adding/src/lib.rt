// The call `add`: a report added to another, row by row. One pass over each report looks whether it is one and how many runs it has;
// only then is the first one written.
#![tactic(auto)]

ghost use Rattle.std.specs.Prelude.{◌≡◌, length};
ghost use Rattle.reports.specs.Bytes.{report_length};
ghost use Rattle.adding.specs.Add.{AddsReport, Surveyed, AddAsk, sum_for};

use answers::Refusal;
use limits::{RULES_MOST, RUNS_MOST};
use reports::{REPORT_LENGTH, ROW_LENGTH};
use rows::agreeing;

// What all rows of a report say: how many runs there are, and whether the numbers of each row agree.
#[derive(Clone, Copy)]
struct Survey {
    runs: u64,
    agrees: bool,
}

fn look_over(report: &[u8]) -> Survey
    requires { length report.now ≡ report_length }
    ensures { Surveyed report.now result }
{
    let mut runs: u64 = 0;
    let mut agrees = true;
    for r in 0..RULES_MOST {
        let row = rows::row_at(report, ROW_LENGTH * r);
        runs += u64::from(row.runs);
        agrees &= agreeing::agrees(row);
    }
    Survey { runs, agrees }
}

// Adds each row to the one of the same rule.
fn add_rows(total: &mut [u8], night: &[u8])
    requires { AddAsk total.old night.now }
    ensures { total.new ≡ sum_for total.old night.now }
{
    for r in 0..RULES_MOST {
        let at = ROW_LENGTH * r;
        let row = rows::plus(rows::row_at(total, at), rows::row_at(night, at));
        rows::put_row(total, at, row);
    }
}

pub fn add(total: &mut [u8], night: &[u8]) -> Result<(), Refusal>
    ensures { AddsReport total.old night.now total.new result }
{
    if total.len() != REPORT_LENGTH {
        return Err(Refusal::Length);
    }
    if night.len() != REPORT_LENGTH {
        return Err(Refusal::Length);
    }
    let a = look_over(total);
    let b = look_over(night);
    if (RUNS_MOST as u64) < a.runs + b.runs {
        return Err(Refusal::Range);
    }
    let agree = a.agrees & b.agrees;
    if !agree {
        return Err(Refusal::Offset);
    }
    add_rows(total, night);
    Ok(())
}
