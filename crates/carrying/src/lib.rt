// One slot carried over into the next network: unfolded, and tagged on its board, so that it can be laid again.
#![tactic(auto)]

ghost use Rattle.carrying.specs.Carries.{PutSlotAsk, PutsSlot};

use state::{Counts, Span};

// Unfolds slot m to the front of u, and tags it on its board.
pub fn put_slot(
    state: &[u8],
    c: Counts,
    m: usize,
    owner: &[u8],
    u: &mut [u8],
    tags: &mut [u32],
) -> usize
    requires { PutSlotAsk state.now c m owner.now u.old tags.old }
    ensures { PutsSlot state.now m u.old u.new tags.new result }
{
    let Span { from, to } = state::span_of(state, c, m);
    let n = unfolding::unfold_into(u, &state[from..to]);
    let board = state::board_of(state, c, m);
    tagging::tag(&u[..n], tags, owner, board);
    n
}
