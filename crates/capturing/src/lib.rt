// The call `capture`: a run of events in one call, tick by tick, up to their end, a verdict, or an event that is refused. It equals the
// samples, steps and closes made one at a time, and leaves the last closed state. The state is checked once.
#![tactic(auto)]

mod running;

ghost use Rattle.capturing.specs.Capture.{Captures};
ghost use Rattle.capturing.specs.Running.{RunningAsk, RanAll};

use answers::{Refusal, Verdict};
use limits::{BOARDS_MOST, NODES_ROOM, PROPOSITIONS_MOST};
use opening::Opening;
use running::Ran;
use state::{Counts, Form};

// How many events were closed, how the watch stands behind them, and whether the next one was refused.
#[derive(Clone, Copy)]
pub struct Captured {
    pub closed: usize,
    pub verdict: Verdict,
    pub stop: Result<(), Refusal>,
}

// Runs the events on a watch that goes on. What stands in the second buffer afterwards is cleared.
fn capture_going(state: &mut [u8], c: Counts, second: &mut [u8], events: &[u64]) -> Captured
    requires { RunningAsk state.old c second.old }
    ensures { RanAll state.old second.old events.now state.new second.new result }
{
    let b = c.boards;
    let mut masks = [0u64; BOARDS_MOST];
    state::masks_of(state, &mut masks, b);
    let mut owner = [0u8; PROPOSITIONS_MOST];
    scores::owners(&masks[..b], &mut owner);
    let mut u = [0u8; NODES_ROOM];
    let mut tags = [0u32; NODES_ROOM];
    let Ran { captured, used } = running::run(
        state,
        c,
        second,
        events,
        &masks[..b],
        &owner,
        &mut u,
        &mut tags,
    );
    buffers::clear(&mut second[..used]);
    captured
}

pub fn capture(state: &mut [u8], second: &mut [u8], events: &[u64]) -> Result<Captured, Refusal>
    ensures { Captures state.old second.old events.now state.new second.new result }
{
    let form = Form::from(state.len());
    if second.len() != form.length() {
        return Err(Refusal::Length);
    }
    let opened = opening::open(state);
    match opened {
        Opening::Broken => Err(Refusal::State),
        Opening::Finished(_) => Err(Refusal::Finished),
        Opening::Going(c) => Ok(capture_going(state, c, second, events)),
    }
}
