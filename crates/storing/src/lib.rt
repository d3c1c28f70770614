// Writing a whole state: the header, the boards with nothing sampled, and the network that a tagged formula is laid out to.
#![tactic(auto)]

ghost use Rattle.std.specs.Prelude.{◌≡◌, ◌⊎◌, ◌≤◌};
ghost use Rattle.state.specs.Form.{form_in};
ghost use Rattle.storing.specs.Stores.{NetworkAsk, StoresNetwork, StateAsk, Stores};

use state::ROWS_ROOM;

// The records and the nodes of the network that u and its tags are laid out to, and zeros behind them. The records are laid in
// `rows` first: one slice cannot lend two of its parts at once.
fn put_network(out: &mut [u8], rows: &mut [u8], slots: usize, nodes: usize, u: &[u8], tags: &[u32])
    requires { NetworkAsk out.old rows.old slots nodes u.now tags.now }
    ensures { StoresNetwork slots nodes u.now tags.now out.old out.new }
{
    let n = state::rows(slots);
    laying::lay_root(u, tags, &mut out[n..], rows);
    buffers::copy(out, &rows[..n]);
    let end = n + nodes;
    buffers::clear(&mut out[end..]);
}

// The farther one of two places in a state.
pub fn farther(a: usize, b: usize) -> usize
    ensures { (a ≤ result) × (b ≤ result) × ((result ≡ a) ⊎ (result ≡ b)) }
{
    if a < b {
        return b;
    }
    a
}

// The state of the network that u and its tags are laid out to, which has so many slots and nodes. The bytes from `used` on are zero
// already, so that no more than those before are cleared.
pub fn put_state(
    state: &mut [u8],
    used: usize,
    masks: &[u64],
    slots: usize,
    nodes: usize,
    ticks: u32,
    u: &[u8],
    tags: &[u32],
)
    requires { StateAsk state.old used masks.now slots nodes u.now tags.now }
    ensures { Stores (form_in state.old) masks.now slots nodes ticks u.now tags.now state.new }
{
    let mut rows = [0u8; ROWS_ROOM];
    let at = state::put_front(state, masks, slots, nodes, ticks);
    let end = farther(at + state::rows(slots) + nodes, used);
    put_network(&mut state[at..end], &mut rows, slots, nodes, u, tags);
}
