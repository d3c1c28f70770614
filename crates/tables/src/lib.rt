// A report for people: a table with a line for each rule that ran, and the same as comma-separated values for a spreadsheet. The bytes
// are put on a page. Nothing here writes.
#![tactic(auto)]

mod average;
mod cells;
mod row_lines;

ghost use Rattle.std.specs.Prelude.{◌≡◌, ◌++◌, ◌+◌, ◌*◌, ◌<◌, ◌≤◌, [], length};
ghost use Rattle.limits.specs.Limits.{rules_most};
ghost use Rattle.reports.specs.Bytes.{report_length, row_in, runs_told};
ghost use Rattle.tables.specs.Pages.{row_line, lines_below, header_of, header_most, line_most, page_of, ran_once, ran_below};

use limits::RULES_MOST;
use lines::TextBuffer;
use reports::ROW_LENGTH;

// How a page is laid out: as a table, or as comma-separated values.
#[derive(Clone, Copy)]
pub enum Sheet {
    Table,
    Values,
}

// How many runs a report has, and how many rules ran.
#[derive(Clone, Copy)]
pub struct ReportTotals {
    pub runs: u64,
    pub rules: u64,
}

// Room for the longest page: the header and a line for each rule.
pub const PAGE_ROOM: usize = 55881;

// A page that is built from its front.
pub type Page = TextBuffer<PAGE_ROOM>;

impl Sheet {
    // Puts the names of the columns.
    fn put_header(self, page: &mut Page)
        requires { length page.old + header_most ≤ PAGE_ROOM }
        ensures header { page.new ≡ page.old ++ header_of self }
        ensures few { length page.new ≤ length page.old + header_most }
    {
        match self {
            Sheet::Table => {
                page.put(
                    b"rule   runs  false   true  pending    earliest      latest       average\n",
                );
            }
            Sheet::Values => {
                page.put(b"rule,runs,false,true,pending,earliest,latest,sum,average\n");
            }
        }
    }

    // Puts the line of a rule, where the rule ran.
    #[tactic(auto, unfolding(crate::specs::Pages::row_line, lists::specs::Tests::pick))]
    fn put_row(self, page: &mut Page, report: &[u8], rule: usize)
        requires { (length page.old + line_most ≤ PAGE_ROOM) × (length report.now ≡ report_length) × (rule < rules_most) }
        ensures row { page.new ≡ page.old ++ row_line self rule (row_in report.now rule) }
        ensures few { length page.new ≤ length page.old + line_most }
    {
        let row = rows::row_at(report, ROW_LENGTH * rule);
        if row.runs != 0 {
            self.put_line(page, rule as u64, row);
        }
    }

    // Puts the lines of all rules.
    #[tactic(auto, using(crate::proofs::Rows::lines_more), unfolding(crate::specs::Pages::lines_below))]
    fn put_rows(self, page: &mut Page, report: &[u8])
        requires { (length page.old + line_most * rules_most ≤ PAGE_ROOM) × (length report.now ≡ report_length) }
        ensures rows { page.new ≡ page.old ++ lines_below self report.now rules_most }
        ensures few { length page.new ≤ length page.old + line_most * rules_most }
    {
        for rule in 0..RULES_MOST {
            self.put_row(page, report, rule);
        }
    }

    // Makes the page that of a report, of any bytes that have a report's length.
    pub fn put(self, page: &mut Page, report: &[u8])
        requires { length report.now ≡ report_length }
        ensures { page.new ≡ page_of self report.now }
    {
        page.clear();
        self.put_header(page);
        self.put_rows(page, report);
    }
}

// One where a rule ran.
#[tactic(auto, unfolding(crate::specs::Pages::ran_once, lists::specs::Tests::pick))]
fn ran(runs: u32) -> u64
    ensures { result ≡ ran_once runs }
{
    u64::from(runs != 0)
}

// Counts the runs of all rules, and the rules that ran.
pub fn totals(report: &[u8]) -> ReportTotals
    requires { length report.now ≡ report_length }
    ensures { (result.runs ≡ runs_told report.now rules_most) × (result.rules ≡ ran_below report.now rules_most) }
{
    let mut runs: u64 = 0;
    let mut rules: u64 = 0;
    for rule in 0..RULES_MOST {
        let row = rows::row_at(report, ROW_LENGTH * rule);
        runs += u64::from(row.runs);
        rules += ran(row.runs);
    }
    ReportTotals { runs, rules }
}
