// A slot settled in a state that was opened: what the call `step` does on a watch that goes on.
#![tactic(auto)]

mod putting;

ghost use Rattle.std.specs.Prelude.{◌≡◌, false};
ghost use Rattle.state.specs.Calls.{finished_in};
ghost use Rattle.state.specs.Opened.{Opened};
ghost use Rattle.settling.specs.Step.{StepsSlot};

use answers::Refusal;
use putting::put_stepped;
use state::Counts;

// A slot that is ready is resolved in its own stretch of the state.
pub fn step_going(state: &mut [u8], c: Counts, slot: u64) -> Result<(), Refusal>
    requires { Opened state.old c × (finished_in state.old ≡ false) }
    ensures { StepsSlot state.old slot state.new result }
{
    if c.slots as u64 <= slot {
        return Err(Refusal::Nowhere);
    }
    let k = slot as usize;
    if state::mark_of(state, c, k) != 0 {
        return Err(Refusal::Already);
    }
    let sight = seeing::sight_of(state, c, k);
    let Some(seen) = sight else {
        return Err(Refusal::Unready);
    };
    put_stepped(state, c, k, seen);
    Ok(())
}
