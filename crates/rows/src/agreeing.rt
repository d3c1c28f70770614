// Whether the numbers of a row agree, so that some runs have it. 64 bits have room for what is worked out, whatever the numbers are.
ghost use Rattle.std.specs.Prelude.{◌≡◌, ◌+◌, ◌-◌, ◌*◌, ◌<◌};
ghost use Rattle.reports.specs.Bytes.{no_span, span_ok, row_agrees};

use reports::Row;

// The sum of one tick that is b and of all others that are a, where there are so many.
fn sum_of(falses: u32, a: u32, b: u32) -> u64
    requires { 0 < falses }
    ensures { result ≡ b + (falses - 1) * a }
{
    u64::from(b) + u64::from(falses - 1) * u64::from(a)
}

// There are no ticks.
#[tactic(auto, unfolding(lists::specs::Tests::both))]
fn no_span(earliest: u32, latest: u32, sum: u64) -> bool
    ensures { result ≡ no_span earliest latest sum }
{
    earliest == 0 && latest == 0 && sum == 0
}

// So many ticks can have this earliest and latest one and this sum.
#[tactic(auto, unfolding(lists::specs::Tests::both))]
fn span_ok(falses: u32, earliest: u32, latest: u32, sum: u64) -> bool
    requires { 0 < falses }
    ensures { result ≡ span_ok falses earliest latest sum }
{
    earliest <= latest
        && sum_of(falses, earliest, latest) <= sum
        && sum <= sum_of(falses, latest, earliest)
}

#[tactic(auto, unfolding(lists::specs::Tests::both, lists::specs::Tests::pick, reports::specs::Bytes::row_agrees))]
pub fn agrees(row: Row) -> bool
    ensures { result ≡ row_agrees row }
{
    let told = u64::from(row.falses) + u64::from(row.trues) + u64::from(row.pendings);
    if u64::from(row.runs) != told {
        return false;
    }
    if row.falses == 0 {
        return no_span(row.earliest, row.latest, row.sum);
    }
    span_ok(row.falses, row.earliest, row.latest, row.sum)
}
