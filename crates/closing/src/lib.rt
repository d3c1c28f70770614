// The call `close`: when all boards have sampled and all slots are stepped, the network is laid out again into a second buffer.
#![tactic(auto)]

ghost use Rattle.std.specs.Prelude.{◌≡◌, false, length};
ghost use Rattle.answers.specs.Said.{said_outcome};
ghost use Rattle.state.specs.Form.{form_in, state_length};
ghost use Rattle.state.specs.Calls.{finished_in};
ghost use Rattle.state.specs.Opened.{Opened};
ghost use Rattle.closing.specs.Close.{over_says, Closes, CloseLentAsk};

use answers::Refusal;
use opening::Opening;
use state::{Counts, Form};

// Whether the tick of a state that was opened can be closed: it is done, and the ticks can be counted on.
fn over(state: &[u8], c: Counts) -> Result<(), Refusal>
    requires { Opened state.now c }
    ensures { said_outcome result ≡ over_says state.now }
{
    if !done::all_sampled(state, c) {
        return Err(Refusal::Unready);
    }
    if !done::all_stepped(state, c) {
        return Err(Refusal::Unready);
    }
    if u32::MAX <= state::ticks_of(state) {
        return Err(Refusal::Ticks);
    }
    Ok(())
}

// Closes a watch that goes on into a second buffer of its length.
fn close_going(state: &[u8], c: Counts, second: &mut [u8]) -> Result<(), Refusal>
    requires { Opened state.now c × (finished_in state.now ≡ false) × (length second.old ≡ state_length (form_in state.now)) }
    ensures { Closes state.now second.old second.new result }
{
    over(state, c)?;
    advancing::advance(state, c, second)
}

// The same for one tick of many: the masks and the room are lent, and the second buffer is zero from `used` on.
pub fn close_lent(
    state: &[u8],
    c: Counts,
    second: &mut [u8],
    used: usize,
    masks: &[u64],
    owner: &[u8],
    u: &mut [u8],
    tags: &mut [u32],
) -> Result<(), Refusal>
    requires { CloseLentAsk state.now c second.old used masks.now owner.now u.old tags.old }
    ensures { Closes state.now second.old second.new result }
{
    over(state, c)?;
    advancing::advance_lent(state, c, second, used, masks, owner, u, tags)
}

pub fn close(state: &[u8], second: &mut [u8]) -> Result<(), Refusal>
    ensures { Closes state.now second.old second.new result }
{
    let form = Form::from(state.len());
    if second.len() != form.length() {
        return Err(Refusal::Length);
    }
    let opened = opening::open(state);
    match opened {
        Opening::Broken => Err(Refusal::State),
        Opening::Finished(_) => Err(Refusal::Finished),
        Opening::Going(c) => close_going(state, c, second),
    }
}
