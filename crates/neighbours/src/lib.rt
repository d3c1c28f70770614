// The records of a recording, and the step from one to the next, by which a record is marked. A pass over the records keeps the counter
// of the one before in a number of its own.
#![tactic(auto)]

ghost use Rattle.std.specs.Prelude.{◌≡◌, ◌+◌, ◌<◌, ◌≤◌, length, ◌==◌};
ghost use Rattle.lists.specs.Tests.{pick};
ghost use Rattle.recordings.specs.Records.{mark_byte, step_from, dropped};
ghost use Rattle.recordings.specs.Recording.{record_length, recording_length, record_in};
ghost use Rattle.neighbours.specs.Steps.{mark_of_step, StepsTo, StepsToFirst};

use recordings::{DROPPED, Mark, RECORD_LENGTH, RECORDS_AT};

#[tactic(auto, unfolding(recordings::specs::Recording::record_in))]
pub fn counter_at(recording: &[u8], i: usize) -> u32
    requires { recording_length i + record_length ≤ length recording.now }
    ensures { result ≡ (record_in recording.now i).counter }
{
    le::u32_at(recording, RECORDS_AT + RECORD_LENGTH * i)
}

#[tactic(auto, unfolding(recordings::specs::Recording::record_in))]
pub fn event_at(recording: &[u8], i: usize) -> u64
    requires { recording_length i + record_length ≤ length recording.now }
    ensures { result ≡ (record_in recording.now i).event }
{
    le::u64_at(recording, RECORDS_AT + RECORD_LENGTH * i + 4)
}

// The step from one counter to the next. A counter goes from its top to 0, and so does the subtraction.
#[tactic(auto, unfolding(recordings::specs::Records::step_from))]
pub fn step(before: u32, counter: u32) -> u32
    ensures { result ≡ step_from before counter }
{
    counter.wrapping_sub(before)
}

// The counter that the first of n records comes one step after: it is kept, whatever it is.
#[tactic(auto, unfolding(crate::specs::Steps::step_by, recordings::specs::Records::step_from))]
fn before_first(recording: &[u8], n: usize) -> u32
    requires { recording_length n ≤ length recording.now }
    ensures { StepsToFirst recording.now n result }
{
    if n == 0 {
        return 0;
    }
    counter_at(recording, 0).wrapping_sub(1)
}

// The counter that record i of n comes after: the one before it has that, where there is one.
pub fn before_at(recording: &[u8], i: usize, n: usize) -> u32
    requires { (recording_length n ≤ length recording.now) × (i ≤ n) }
    ensures { i < n → StepsTo recording.now i result }
{
    if i == 0 {
        return before_first(recording, n);
    }
    counter_at(recording, i - 1)
}

// The mark of a record that does not clash with the one before it, by the step to it: where the counter is the same, the event is too.
#[tactic(auto, unfolding(crate::specs::Steps::mark_of_step, lists::specs::Tests::pick))]
pub fn mark_of(step: u32) -> Mark
    ensures { mark_byte result ≡ mark_of_step step }
{
    match step {
        0 => Mark::Dropped,
        1 => Mark::Kept,
        _ => Mark::Broken,
    }
}

// How many records this mark keeps, which is told by its byte: any byte but that of a dropped record keeps one.
#[tactic(auto, unfolding(lists::specs::Tests::pick))]
pub fn kept_by(mark: u8) -> usize
    ensures { result ≡ pick (mark == dropped) 0 1 }
{
    usize::from(mark != DROPPED)
}
