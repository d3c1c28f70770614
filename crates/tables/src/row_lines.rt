// The line of a rule that ran.
ghost use Rattle.std.specs.Prelude.{◌≡◌, ◌++◌, ◌+◌, ◌^◌, ◌<◌, ◌≤◌, length};
ghost use Rattle.tables.specs.Cells.{gap_most, number_most, further_of};
ghost use Rattle.tables.specs.Average.{average_text, average_most};
ghost use Rattle.tables.specs.Pages.{average_width, counts_text, counts_most, sum_text, span_text, none_text, ticks_text, ticks_most, line_of, line_most};

use crate::{PAGE_ROOM, Page, Sheet, average};
use reports::Row;

// The widths of a table's columns: the rule's number; runs, false and true; pending; the earliest and the latest tick; the average.
const RULE_WIDTH: usize = 4;

const COUNT_WIDTH: usize = 5;

const PENDING_WIDTH: usize = 7;

const TICK_WIDTH: usize = 10;

const AVERAGE_WIDTH: usize = 12;

impl Sheet {
    // Puts the rule's number, its runs, and how many of them came to each verdict.
    fn put_counts(self, page: &mut Page, rule: u64, row: Row)
        requires { length page.old + counts_most ≤ PAGE_ROOM }
        ensures counts { page.new ≡ page.old ++ counts_text self rule row }
        ensures few { length page.new ≤ length page.old + counts_most }
    {
        self.put_number(page, RULE_WIDTH, rule);
        self.put_further_number(page, COUNT_WIDTH, row.runs as u64);
        self.put_further_number(page, COUNT_WIDTH, row.falses as u64);
        self.put_further_number(page, COUNT_WIDTH, row.trues as u64);
        self.put_further_number(page, PENDING_WIDTH, row.pendings as u64);
    }

    // Puts the sum of the ticks, which stands among values and in no table.
    fn put_sum(self, page: &mut Page, sum: u64)
        requires { length page.old + (gap_most + number_most) ≤ PAGE_ROOM }
        ensures sum { page.new ≡ page.old ++ sum_text self sum }
        ensures few { length page.new ≤ length page.old + (gap_most + number_most) }
    {
        match self {
            Sheet::Table => {}
            Sheet::Values => self.put_further_number(page, 0, sum),
        }
    }

    // Puts the average tick.
    fn put_average(self, page: &mut Page, sum: u64, falses: u64)
        requires { (length page.old + (gap_most + average_most) ≤ PAGE_ROOM) × (0 < falses) × (falses < 2 ^ 32) }
        ensures average { page.new ≡ page.old ++ further_of self average_width (average_text sum falses) }
        ensures few { length page.new ≤ length page.old + (gap_most + average_most) }
    {
        self.put_further(page, AVERAGE_WIDTH, average::text(sum, falses).bytes());
    }

    // Puts the ticks of a rule that was false.
    fn put_span(self, page: &mut Page, row: Row)
        requires { (length page.old + ticks_most ≤ PAGE_ROOM) × (0 < row.falses) }
        ensures span { page.new ≡ page.old ++ span_text self row }
        ensures few { length page.new ≤ length page.old + ticks_most }
    {
        self.put_further_number(page, TICK_WIDTH, row.earliest as u64);
        self.put_further_number(page, TICK_WIDTH, row.latest as u64);
        self.put_sum(page, row.sum);
        self.put_average(page, row.sum, row.falses as u64);
    }

    // Puts what stands for the ticks of a rule that was never false.
    fn put_none(self, page: &mut Page)
        requires { length page.old + ticks_most ≤ PAGE_ROOM }
        ensures none { page.new ≡ page.old ++ none_text self }
        ensures few { length page.new ≤ length page.old + ticks_most }
    {
        match self {
            Sheet::Table => self.put_further(page, TICK_WIDTH, b"no false"),
            Sheet::Values => page.put(b",no false,no false,0,no false"),
        }
    }

    // Puts what is said of ticks.
    #[tactic(auto, unfolding(crate::specs::Pages::ticks_text, lists::specs::Tests::pick))]
    fn put_ticks(self, page: &mut Page, row: Row)
        requires { length page.old + ticks_most ≤ PAGE_ROOM }
        ensures ticks { page.new ≡ page.old ++ ticks_text self row }
        ensures few { length page.new ≤ length page.old + ticks_most }
    {
        if row.falses == 0 {
            self.put_none(page);
        } else {
            self.put_span(page, row);
        }
    }

    // Puts the whole line.
    pub(crate) fn put_line(self, page: &mut Page, rule: u64, row: Row)
        requires { length page.old + line_most ≤ PAGE_ROOM }
        ensures line { page.new ≡ page.old ++ line_of self rule row }
        ensures few { length page.new ≤ length page.old + line_most }
    {
        self.put_counts(page, rule, row);
        self.put_ticks(page, row);
        page.put(b"\n");
    }
}
