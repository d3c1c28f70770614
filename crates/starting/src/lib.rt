// The first state of a watch: the rule is unfolded, tagged on its board, and laid out into the state.
#![tactic(auto)]

ghost use Rattle.state.specs.Form.{form_in};
ghost use Rattle.starting.specs.Starting.{FirstAsk, Firsts};

// Unfolds the rule into u, tags it on its board, and lays it out into the state.
pub fn put_first(
    state: &mut [u8],
    masks: &[u64],
    rule: &[u8],
    owner: &[u8],
    board: u8,
    slots: usize,
    nodes: usize,
    u: &mut [u8],
    tags: &mut [u32],
)
    requires { FirstAsk state.old masks.now rule.now owner.now board slots nodes u.old tags.old }
    ensures { Firsts (form_in state.old) masks.now rule.now state.new }
{
    let n = unfolding::unfold_into(u, rule);
    tagging::tag(&u[..n], tags, owner, board);
    let all = state.len();
    storing::put_state(state, all, masks, slots, nodes, 0, &u[..n], tags);
}
