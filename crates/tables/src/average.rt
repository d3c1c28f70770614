// The average tick of the runs that were false, with one decimal.
ghost use Rattle.std.specs.Prelude.{◌≡◌, ◌/◌, ◌%◌, ◌^◌, ◌<◌, ◌≤◌, length};
ghost use Rattle.tables.specs.Average.{tenths_of, average_text, average_most};

use lines::TextBuffer;

// Room for two numbers and a point.
pub const AVERAGE_ROOM: usize = 41;

// Whole ticks, and tenths behind them.
#[derive(Clone, Copy)]
pub struct AverageTick {
    pub whole: u64,
    pub tenths: u64,
}

// What a rest of the sum, less than a tick for each run, adds to the average: in tenths of a tick, to the nearest one.
#[tactic(auto, unfolding(crate::specs::Average::tenths_of))]
fn tenths(rest: u64, falses: u64) -> u64
    requires { (rest < falses) × (falses < 2 ^ 32) }
    ensures { result ≡ tenths_of rest falses }
{
    (20 * rest + falses) / (2 * falses)
}

// The average. Twenty times the sum may have more than 64 bits, so whole ticks are taken off before tenths are looked at.
fn average(sum: u64, falses: u64) -> AverageTick
    requires { (0 < falses) × (falses < 2 ^ 32) }
    ensures { (result.whole ≡ tenths_of sum falses / 10) × (result.tenths ≡ tenths_of sum falses % 10) }
{
    let rest = tenths(sum % falses, falses);
    AverageTick {
        whole: sum / falses + rest / 10,
        tenths: rest % 10,
    }
}

// The average as a text.
pub fn text(sum: u64, falses: u64) -> TextBuffer<AVERAGE_ROOM>
    requires { (0 < falses) × (falses < 2 ^ 32) }
    ensures { (result ≡ average_text sum falses) × (length result ≤ average_most) }
{
    let average = average(sum, falses);
    let mut text = TextBuffer::new();
    text.number(average.whole);
    text.put(b".");
    text.number(average.tenths);
    text
}
