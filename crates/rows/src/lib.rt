// A row of a report, read from its bytes, put there, and added to another; and whether its numbers agree.
#![tactic(auto)]

ghost use Rattle.std.specs.Prelude.{◌≡◌, ◌++◌, ◌+◌, ◌≤◌, length, take, drop, eqb};
ghost use Rattle.lists.specs.Tests.{pick};
ghost use Rattle.reports.specs.Report.{added};
ghost use Rattle.reports.specs.Bytes.{row_length, row_at, row_bytes};
ghost use Rattle.rows.specs.Sums.{RowsFit};

use reports::Row;

pub mod agreeing;

// The row in the bytes at `at`.
#[tactic(auto, unfolding(reports::specs::Bytes::row_at))]
pub fn row_at(s: &[u8], at: usize) -> Row
    requires { at + row_length ≤ length s.now }
    ensures { result ≡ row_at s.now at }
{
    Row {
        runs: le::u32_at(s, at),
        falses: le::u32_at(s, at + 4),
        trues: le::u32_at(s, at + 8),
        pendings: le::u32_at(s, at + 12),
        earliest: le::u32_at(s, at + 16),
        latest: le::u32_at(s, at + 20),
        sum: le::u64_at(s, at + 24),
    }
}

// Puts the row into the bytes at `at`.
pub fn put_row(s: &mut [u8], at: usize, row: Row)
    requires { at + row_length ≤ length s.old }
    ensures { s.new ≡ take at s.old ++ (row_bytes row ++ drop (at + row_length) s.old) }
{
    le::put_u32(s, at, row.runs);
    le::put_u32(s, at + 4, row.falses);
    le::put_u32(s, at + 8, row.trues);
    le::put_u32(s, at + 12, row.pendings);
    le::put_u32(s, at + 16, row.earliest);
    le::put_u32(s, at + 20, row.latest);
    le::put_u64(s, at + 24, row.sum);
}

// ---- two rows together
// Of a, which stands for m ticks, and b, which stands for n, the one that is picked; where one stands for none it is the other.
#[tactic(auto, unfolding(lists::specs::Tests::pick))]
fn of_both(m: u32, a: u32, n: u32, b: u32, picked: u32) -> u32
    ensures { result ≡ pick (eqb m 0) b (pick (eqb n 0) a picked) }
{
    if m == 0 {
        return b;
    }
    if n == 0 {
        return a;
    }
    picked
}

// What is said of a rule in two reports, as one row.
#[tactic(auto, unfolding(reports::specs::Report::added, reports::specs::Report::of_both))]
pub fn plus(a: Row, b: Row) -> Row
    requires { RowsFit a b }
    ensures { result ≡ added a b }
{
    Row {
        runs: a.runs + b.runs,
        falses: a.falses + b.falses,
        trues: a.trues + b.trues,
        pendings: a.pendings + b.pendings,
        earliest: of_both(
            a.falses,
            a.earliest,
            b.falses,
            b.earliest,
            a.earliest.min(b.earliest),
        ),
        latest: of_both(
            a.falses,
            a.latest,
            b.falses,
            b.latest,
            a.latest.max(b.latest),
        ),
        sum: a.sum + b.sum,
    }
}
