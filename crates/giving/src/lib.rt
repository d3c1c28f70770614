// A tick up to its close: an event is split by the boards' masks, each board samples its part, and the slots are stepped from the
// highest number down, so that each is ready when its turn comes. The state was opened, and is not checked again: a sample keeps it
// passing, and so does a step, unless it leaves a lone proposition of another board.
#![tactic(auto)]

mod straying;

ghost use Rattle.std.specs.Prelude.{◌≡◌, ◌≤◌};
ghost use Rattle.limits.specs.Limits.{boards_most};
ghost use Rattle.lists.specs.Listed.{listed};
ghost use Rattle.masks.specs.Masks.{union_with};
ghost use Rattle.state.specs.Form.{Formed};
ghost use Rattle.state.specs.Fields.{mask_in};
ghost use Rattle.course.specs.Given.{follow, sampled_from, stepped_below};
ghost use Rattle.giving.specs.Give.{passing, given_passing, GoingOn, GivesEvent};

use answers::Refusal;
use state::Counts;
use straying::strays;

// The union of the boards' masks.
fn union(state: &[u8], boards: usize) -> u64
    requires { Formed state.now × (boards ≤ boards_most) }
    ensures { result ≡ union_with 0 (listed (mask_in state.now) boards) }
{
    let mut all = 0;
    for i in 0..boards {
        all |= state::mask_of(state, i);
    }
    all
}

// Each board samples its part of the event.
fn sample_all(state: &mut [u8], c: Counts, event: u64) -> Result<(), Refusal>
    requires { GoingOn state.old c }
    ensures { GivesEvent (sampled_from c.boards event 0 state.old) c state.new result }
{
    for i in 0..c.boards {
        taking::sample_going(state, c, i as u64, event & state::mask_of(state, i))?;
    }
    Ok(())
}

// Each slot is stepped, the highest number first.
fn step_all(state: &mut [u8], c: Counts) -> Result<(), Refusal>
    requires { GoingOn state.old c }
    ensures { GivesEvent (follow (stepped_below c.slots state.old) passing) c state.new result }
{
    for k in (0..c.slots).rev() {
        settling::step_going(state, c, k as u64)?;
        if strays(state, c, k) {
            return Err(Refusal::State);
        }
    }
    Ok(())
}

// Gives the event to the network of a watch that goes on. A refusal on the way leaves the calls before it done.
pub fn give(state: &mut [u8], c: Counts, event: u64) -> Result<(), Refusal>
    requires { GoingOn state.old c }
    ensures { GivesEvent (given_passing state.old event) c state.new result }
{
    if event & union(state, c.boards) != event {
        return Err(Refusal::Outside);
    }
    sample_all(state, c, event)?;
    step_all(state, c)
}
