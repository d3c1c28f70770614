// The rows that the tables come to, put into a report.
ghost use Rattle.std.specs.Prelude.{◌≡◌};
ghost use Rattle.reports.specs.Bytes.{report_bytes};
ghost use Rattle.tallying.specs.Tables.{RowAsk, RowsAsk, table_row};

use crate::RunTables;
use limits::RULES_MOST;
use reports::{ROW_LENGTH, Row};

impl RunTables {
    // The row of a rule. The counts of one verdict stand one behind the other: those of false, of true, of pending.
    #[tactic(auto, using(crate::proofs::TableRows::counts_fit), unfolding(crate::specs::Tables::table_row, lists::specs::Tests::pick))]
    fn row_of(&self, rule: usize) -> Row
        requires { RowAsk rule self.now }
        ensures { result ≡ table_row self.now rule }
    {
        let falses = self.counts[RULES_MOST * 0 + rule];
        let trues = self.counts[RULES_MOST * 1 + rule];
        let pendings = self.counts[RULES_MOST * 2 + rule];
        Row {
            runs: falses + trues + pendings,
            falses,
            trues,
            pendings,
            earliest: if falses == 0 { 0 } else { self.earliest[rule] },
            latest: self.latest[rule],
            sum: self.sums[rule],
        }
    }

    // Puts the rows of all rules.
    pub fn put_rows(&self, report: &mut [u8])
        requires { RowsAsk report.old self.now }
        ensures { report.new ≡ report_bytes (table_row self.now) }
    {
        for r in 0..RULES_MOST {
            let row = self.row_of(r);
            rows::put_row(report, ROW_LENGTH * r, row);
        }
    }
}
