// The word `watch`: watches the first stretch of a recording under a rule. Behind the first break nothing is known of the ticks, so
// nothing there is looked at.
ghost use Rattle.std.specs.Prelude.{◌≡◌, length};
ghost use Rattle.vydrulka.specs.Rooms.{records_most, RecordingRooms};

use crate::input::{FILE_AT, NAME_ROOM};
use crate::recording::{RECORDING_MOST, RECORDING_ROOM, RECORDS_MOST};
use crate::rule_file::FILE_ROOM;
use crate::{input, output, recording, rule_file};
use answers::{Refusal, Verdict};
use recordings::{RECORD_LENGTH, RECORDS_AT};
use state::STATE_ROOM;

// How many arguments there are: the program's name, the word, the rule and the recording.
const ARGUMENTS: usize = 4;

// Where the recording's name stands among them.
const RECORDING_AT: usize = 3;

// ---- the watch
// Writes the line of the state that is left, and tells how much of the first stretch was watched. The state comes from `load` or `capture`,
// so it is never refused.
fn report(rt: HostRuntime, state: &[u8], closed: usize, ticks: usize) {
    let answer = asking::ask(state);
    match answer {
        Err(refusal) => output::refused(rt, refusal, b"the state that is left"),
        Ok(standing) => {
            let verdict = standing.verdict;
            let written = output::standing(
                rt,
                standing.ticks as u64,
                verdict,
                standing.slots as u64,
                standing.nodes as u64,
            );
            if written {
                output::watched(rt, closed as u64, ticks as u64, verdict);
            }
        }
    }
}

// The event at this place of the first stretch is refused.
fn refused_event(rt: HostRuntime, refusal: Refusal, place: usize) {
    let at = place as u64;
    match refusal {
        Refusal::Slots => output::refused_event(rt, refusal, at, b"more than 64 slots"),
        Refusal::Nodes => output::refused_event(rt, refusal, at, b"more than 4,096 nodes"),
        Refusal::State => output::refused_event(rt, refusal, at, b"a state that fails its check"),
        Refusal::Outside => output::refused_event(rt, refusal, at, b"a bit that no board sees"),
        Refusal::Already => output::refused_event(
            rt,
            refusal,
            at,
            b"a board that has sampled already",
        ),
        _ => output::refused_event(rt, refusal, at, b"the tick counter is at its end"),
    }
}

// Watches the events, one a tick. The watch goes on, so what is refused is an event and not the call.
fn capture(rt: HostRuntime, state: &mut [u8], second: &mut [u8], events: &[u64]) {
    let answer = capturing::capture(state, second, events);
    match answer {
        Err(refusal) => output::refused(rt, refusal, b"the state that was loaded"),
        Ok(captured) => {
            let stop = captured.stop;
            match stop {
                Err(refusal) => refused_event(rt, refusal, captured.closed),
                Ok(()) => report(rt, state, captured.closed, events.len()),
            }
        }
    }
}

// Whether the watch is over before its first tick, as that of the rule `true`.
fn decided(state: &[u8]) -> bool {
    let answer = asking::ask(state);
    let Ok(standing) = answer else {
        return false;
    };
    let verdict = standing.verdict;
    match verdict {
        Verdict::Pending => false,
        _ => true,
    }
}

// A watch that is over takes no event.
fn watch(rt: HostRuntime, state: &mut [u8], second: &mut [u8], events: &[u64]) {
    if decided(state) {
        report(rt, state, 0, events.len());
        return;
    }
    capture(rt, state, second, events);
}

// ---- the recording
// Takes the events of a mended recording, which is never refused.
fn take_events(
    rt: HostRuntime,
    state: &mut [u8],
    second: &mut [u8],
    mended: &[u8],
    events: &mut [u64],
) {
    let answer = stretching::stretch(mended, events);
    match answer {
        Err(refusal) => output::refused(rt, refusal, b"the mended recording"),
        Ok(n) => watch(rt, state, second, &events[0..n]),
    }
}

// Mends the recording in these rooms. What is told of it stands before what came of the watch.
fn mend_in(
    rt: HostRuntime,
    state: &mut [u8],
    second: &mut [u8],
    room: &mut [u8],
    mended: &mut [u8],
    marks: &mut [u8],
    events: &mut [u64],
)
    requires { RecordingRooms room.old mended.old marks.old × (length events.old ≡ records_most) }
{
    let answer = recording::take(rt, RECORDING_AT, room, mended, marks);
    let Some(counts) = answer else {
        return;
    };
    let records = counts.records;
    recording::tell(rt, room, &marks[0..records], counts);
    let kept = counts.kept;
    let length = RECORDS_AT + RECORD_LENGTH * kept;
    take_events(rt, state, second, &mended[0..length], &mut events[0..kept]);
}

// ---- the rule
// Its file is refused: the name is asked for again.
fn refused_rule(rt: HostRuntime, refusal: Refusal) {
    let mut name = [0u8; NAME_ROOM];
    let n = input::argument(rt, FILE_AT, &mut name);
    rule_file::refused(rt, refusal, &name[0..n]);
}

// Begins the watch, before the recording is read.
fn load(
    rt: HostRuntime,
    file: &[u8],
    room: &mut [u8],
    mended: &mut [u8],
    marks: &mut [u8],
    events: &mut [u64],
)
    requires { RecordingRooms room.old mended.old marks.old × (length events.old ≡ records_most) }
{
    let mut state = [0u8; STATE_ROOM];
    let outcome = loading::load(file, &mut state);
    match outcome {
        Err(refusal) => refused_rule(rt, refusal),
        Ok(()) => {
            let mut second = [0u8; STATE_ROOM];
            mend_in(rt, &mut state, &mut second, room, mended, marks, events);
        }
    }
}

// Reads the rule file.
fn read_in(
    rt: HostRuntime,
    room: &mut [u8],
    mended: &mut [u8],
    marks: &mut [u8],
    events: &mut [u64],
)
    requires { RecordingRooms room.old mended.old marks.old × (length events.old ≡ records_most) }
{
    let mut file = [0u8; FILE_ROOM];
    let Ok(n) = input::take(rt, FILE_AT, &mut file) else {
        return;
    };
    load(rt, &file[0..n], room, mended, marks, events);
}

// The rooms are made in a function of their own: they are too large to be looked at with what is done in them.
fn read(rt: HostRuntime) {
    let mut room = [0u8; RECORDING_ROOM];
    let mut mended = [0u8; RECORDING_MOST];
    let mut marks = [0u8; RECORDS_MOST];
    let mut events = [0u64; RECORDS_MOST];
    read_in(rt, &mut room, &mut mended, &mut marks, &mut events);
}

// Runs the word, with so many arguments, the program's name and the word among them.
pub fn run(rt: HostRuntime, count: usize) {
    if count != ARGUMENTS {
        output::usage(rt);
        return;
    }
    read(rt);
}
