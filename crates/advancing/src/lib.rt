// A tick that is done is closed: the slots and nodes of the new layout are counted, and only where they are within the limits the next
// state is put into the second buffer.
#![tactic(auto)]

ghost use Rattle.counting.specs.OpenedWith.{OpenedWith};
ghost use Rattle.advancing.specs.Advance.{NextFound, AdvanceAsk, Advances, LentAsk};

use answers::Refusal;
use counting::Totals;
use limits::{BOARDS_MOST, NODES_ROOM, PROPOSITIONS_MOST};
use state::{Counts, Form};

// Counts the layout that a tick closes to: 7 and 8 by the whole of it, however large.
fn find_next(state: &[u8], c: Counts, owner: &[u8]) -> Result<Totals, Refusal>
    requires { OpenedWith state.now c owner.now }
    ensures { NextFound state.now result }
{
    let form = Form::from(state.len());
    let next = counting::count_next(state, c, owner);
    if form.slots_most() < next.slots {
        return Err(Refusal::Slots);
    }
    if form.nodes_most() < next.nodes {
        return Err(Refusal::Nodes);
    }
    Ok(next)
}

// Closes a tick that is done: the layout's limits, then the next state.
pub fn advance(state: &[u8], c: Counts, second: &mut [u8]) -> Result<(), Refusal>
    requires { AdvanceAsk state.now second.old c }
    ensures { Advances state.now second.old second.new result }
{
    let b = c.boards;
    let mut masks = [0u64; BOARDS_MOST];
    state::masks_of(state, &mut masks, b);
    let mut owner = [0u8; PROPOSITIONS_MOST];
    scores::owners(&masks[..b], &mut owner);
    let t = find_next(state, c, &owner)?;
    let all = second.len();
    let mut u = [0u8; NODES_ROOM];
    let mut tags = [0u32; NODES_ROOM];
    renewing::put_next(
        state,
        c,
        second,
        all,
        &masks[..b],
        &owner,
        t.slots,
        t.nodes,
        &mut u,
        &mut tags,
    );
    Ok(())
}

// The same for one tick of many: the masks and the room are lent, and the second buffer is zero from `used` on.
pub fn advance_lent(
    state: &[u8],
    c: Counts,
    second: &mut [u8],
    used: usize,
    masks: &[u64],
    owner: &[u8],
    u: &mut [u8],
    tags: &mut [u32],
) -> Result<(), Refusal>
    requires { LentAsk state.now second.old c used masks.now owner.now u.old tags.old }
    ensures { Advances state.now second.old second.new result }
{
    let t = find_next(state, c, owner)?;
    renewing::put_next(
        state, c, second, used, masks, owner, t.slots, t.nodes, u, tags,
    );
    Ok(())
}
