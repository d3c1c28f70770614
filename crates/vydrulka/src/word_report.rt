// The words `report` and `csv`: the report of some nights' runs together, as a table or as comma-separated values. The nights' files are
// the arguments behind the word.
ghost use Rattle.std.specs.Prelude.{◌≡◌, ◌+◌, ◌*◌, ◌≤◌, length};
ghost use Rattle.reports.specs.Runs.{run_length};
ghost use Rattle.reports.specs.Bytes.{report_length};

use crate::input::NAME_ROOM;
use crate::{input, output};
use reporting::ReportError;
use reports::{REPORT_LENGTH, RUN_LENGTH};
use tables::{Page, Sheet};

// Where the nights begin among the arguments.
const NIGHTS_AT: usize = 2;

// One byte more than the longest night, so that a longer one is refused by its length and never cut.
const NIGHT_ROOM: usize = 786433;

// The run at this place cannot be counted: the numbers that stand there are told. The night's name is asked for again.
fn no_run(rt: HostRuntime, night: usize, runs: &[u8], place: usize)
    requires { run_length * place + run_length ≤ length runs.now }
{
    let mut name = [0u8; NAME_ROOM];
    let n = input::argument(rt, night, &mut name);
    let at = RUN_LENGTH * place;
    let rule = le::u32_at(runs, at);
    let verdict = le::u32_at(runs, at + 4);
    output::no_run(rt, &name[0..n], place as u64, rule as u64, verdict as u64);
}

// ---- the total
// Adds a night's report to the total: whether that was accepted. Both are reports of runs, so what is refused is too many of them.
fn add_report(rt: HostRuntime, night: usize, total: &mut [u8], report: &[u8]) -> bool {
    let outcome = adding::add(total, report);
    match outcome {
        Err(refusal) => {
            input::refused(rt, night, refusal, b"more than 65,536 runs together");
            false
        }
        Ok(()) => true,
    }
}

// Adds a night's runs to the total. The report has its length, so a refusal without a place is about that of the runs.
fn add_runs(rt: HostRuntime, night: usize, total: &mut [u8], runs: &[u8]) -> bool {
    let mut report = [0u8; REPORT_LENGTH];
    let answer = reporting::report(runs, &mut report);
    match answer {
        Err(ReportError::Refused(refusal)) => {
            input::refused(rt, night, refusal, b"not whole runs, or more than 65,536");
            false
        }
        Err(ReportError::NoRun(place)) => {
            no_run(rt, night, runs, place);
            false
        }
        Ok(()) => add_report(rt, night, total, &report),
    }
}

// Reads a night into the room, and adds it.
fn add_night(rt: HostRuntime, night: usize, total: &mut [u8], room: &mut [u8]) -> bool {
    let Ok(n) = input::take(rt, night, room) else {
        return false;
    };
    add_runs(rt, night, total, &room[0..n])
}

// Adds all nights: whether each was accepted.
fn add_nights(rt: HostRuntime, count: usize, total: &mut [u8], room: &mut [u8]) -> bool {
    for night in NIGHTS_AT..count {
        if !add_night(rt, night, total, room) {
            return false;
        }
    }
    true
}

// The room is made in a function of its own: it is too large to be looked at with what is done in it.
fn add_up(rt: HostRuntime, count: usize, total: &mut [u8]) -> bool {
    let mut room = [0u8; NIGHT_ROOM];
    add_nights(rt, count, total, &mut room)
}

// ---- the page
// Writes the page of the total, and tells what it has.
fn print(rt: HostRuntime, total: &[u8], sheet: Sheet, nights: u64)
    requires { length total.now ≡ report_length }
{
    let mut page = Page::new();
    sheet.put(&mut page, total);
    if output::result(rt, page.bytes()) {
        let totals = tables::totals(total);
        output::report(rt, totals.runs, totals.rules, nights);
    }
}

// Runs the word, with so many arguments, the program's name and the word among them. The total begins as the report of no runs.
pub fn run(rt: HostRuntime, count: usize, sheet: Sheet) {
    if count <= NIGHTS_AT {
        output::usage(rt);
        return;
    }
    let mut total = [0u8; REPORT_LENGTH];
    if add_up(rt, count, &mut total) {
        print(rt, &total, sheet, (count - NIGHTS_AT) as u64);
    }
}
