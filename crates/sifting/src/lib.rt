// The pass that mends: each record is marked, and the kept ones are put one behind the other. A record is put behind those that were
// kept before its mark is looked at; where it is dropped the next one takes its place.
#![tactic(auto)]

ghost use Rattle.std.specs.Prelude.{◌≡◌, ◌++◌, ◌+◌, ◌*◌, ◌≤◌, length, take, drop, eqb};
ghost use Rattle.lists.specs.Tests.{both};
ghost use Rattle.recordings.specs.Records.{broken};
ghost use Rattle.neighbours.specs.Steps.{mark_of_step};
ghost use Rattle.recordings.specs.Recording.{record_length, one_record};
ghost use Rattle.sifting.specs.Sifted.{SiftAsk, SiftedTo, SiftsTo, Sifts};

use recordings::{Mended, RECORD_LENGTH};

// How far a pass has come, and how many records were kept by then.
#[derive(Clone, Copy)]
struct Reached {
    place: usize,
    kept: usize,
}

// Whether to stop before a record that this step leads to: at a break, where that is asked. The flag says how far a pass
// goes and chooses no step, so a closure in its place would say less.
#[tactic(auto, unfolding(lists::specs::Tests::both, lists::specs::Tests::pick, neighbours::specs::Steps::mark_of_step))]
fn stops_at(stop: bool, step: u32) -> bool
    ensures { result ≡ both stop (eqb (mark_of_step step) broken) }
{
    stop && 1 < step
}

// Puts a record behind k records.
fn put_record(out: &mut [u8], k: usize, counter: u32, event: u64)
    requires { record_length * k + record_length ≤ length out.old }
    ensures { out.new ≡ take (record_length * k) out.old ++ (one_record (record { counter = counter; event = event }) ++ drop (record_length * k + record_length) out.old) }
{
    let at = RECORD_LENGTH * k;
    le::put_u32(out, at, counter);
    le::put_u64(out, at + 4, event);
}

// Puts the marks of the records from one on, and those that are kept behind the others, all of them or, where
// `stop` is asked, up to the first break.
fn sift_from(
    recording: &[u8],
    from: usize,
    had: usize,
    out: &mut [u8],
    marks: &mut [u8],
    stop: bool,
) -> Reached
    requires { SiftAsk recording.now out.old marks.old × SiftedTo recording.now out.old marks.old from had × (from ≤ length marks.old) }
    ensures { SiftsTo recording.now out.new marks.new (length marks.old) from stop result }
{
    let n = marks.len();
    let mut before = neighbours::before_at(recording, from, n);
    let mut kept = had;
    for i in from..n {
        let counter = neighbours::counter_at(recording, i);
        let step = neighbours::step(before, counter);
        if stops_at(stop, step) {
            return Reached { place: i, kept };
        }
        let mark = neighbours::mark_of(step);
        let event = neighbours::event_at(recording, i);
        put_record(out, kept, counter, event);
        let byte = u8::from(mark);
        marks[i] = byte;
        kept += neighbours::kept_by(byte);
        before = counter;
    }
    Reached { place: n, kept }
}

// Puts the marks of all records, the kept records to the front of `out`, and zeros behind them. The first stretch is gone through on its
// own, so that the other records need not be asked whether they belong to it.
pub fn sift(recording: &[u8], out: &mut [u8], marks: &mut [u8]) -> Mended
    requires { SiftAsk recording.now out.old marks.old }
    ensures { Sifts recording.now out.old out.new marks.new (length marks.old) result }
{
    let first = sift_from(recording, 0, 0, out, marks, true);
    let all = sift_from(recording, first.place, first.kept, out, marks, false);
    let end = RECORD_LENGTH * all.kept;
    out[end..].fill(0);
    Mended {
        kept: all.kept,
        first: first.kept,
    }
}
