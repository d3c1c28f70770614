// The next state of a watch: its network is spread out, tagged, and laid out again into a second buffer with one more tick.
#![tactic(auto)]

ghost use Rattle.std.specs.Prelude.{◌≡◌};
ghost use Rattle.renewing.specs.Renew.{next_state, NextAsk};

use state::Counts;

// Spreads the network out, and lays it into the second buffer with one more tick. That is zero from `used` on already.
pub fn put_next(
    state: &[u8],
    c: Counts,
    second: &mut [u8],
    used: usize,
    masks: &[u64],
    owner: &[u8],
    slots: usize,
    nodes: usize,
    u: &mut [u8],
    tags: &mut [u32],
)
    requires { NextAsk state.now second.old used c masks.now owner.now slots nodes u.old tags.old }
    ensures { second.new ≡ next_state state.now }
{
    let ticks = state::ticks_of(state) + 1;
    let n = spreading::spread(state, c, owner, u, tags);
    storing::put_state(second, used, masks, slots, nodes, ticks, &u[..n], tags);
}
