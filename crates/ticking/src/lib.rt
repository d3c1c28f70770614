// One tick of a capture: the event is given in the second buffer, which holds a copy of the state, and the tick is closed back into the
// state. That is written only where nothing can refuse any more, so a refusal leaves it as it was.
#![tactic(auto)]

ghost use Rattle.ticking.specs.Tick.{TickAsk, TicksOnce};

use answers::Refusal;
use state::Counts;

pub fn tick(
    state: &mut [u8],
    c: Counts,
    second: &mut [u8],
    event: u64,
    masks: &[u64],
    owner: &[u8],
    u: &mut [u8],
    tags: &mut [u32],
) -> Result<(), Refusal>
    requires { TickAsk state.old c second.old masks.now owner.now u.old tags.old }
    ensures { TicksOnce state.old c event state.new second.new result }
{
    // A `match` and no `?`: what is told of a refusal stands here, where an edit can turn it.
    match giving::give(second, c, event) {
        Err(why) => Err(why),
        Ok(()) => closing::close_lent(
            second,
            c,
            state,
            c.stretches + c.nodes,
            masks,
            owner,
            u,
            tags,
        ),
    }
}
