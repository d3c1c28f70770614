// A watch begun with a rule that was read: its layout is counted as the rule stands, and only where it is within the limits the first
// state is put.
#![tactic(auto)]

ghost use Rattle.std.specs.Prelude.{◌≡◌, eqb};
ghost use Rattle.lists.specs.Tests.{pick};
ghost use Rattle.limits.specs.Limits.{boards_most};
ghost use Rattle.beginning.specs.Beginning.{BeginAsk, Begun};

use answers::Refusal;
use limits::{NODES_ROOM, PROPOSITIONS_MOST};
use scores::STAYS;
use state::Form;

// The board of the first slot: board 0 where all scores are 0.
fn first_board(choice: u8) -> u8
    ensures { result ≡ pick (eqb choice boards_most) 0 choice }
{
    if choice == STAYS { 0 } else { choice }
}

// Begins a watch with a rule that was read: 7 and 8 by the whole layout, however large, then its state.
pub fn begin(masks: &[u64], rule: &[u8], state: &mut [u8]) -> Result<(), Refusal>
    requires { BeginAsk masks.now rule.now state.old }
    ensures { Begun masks.now rule.now state.old state.new result }
{
    let form = Form::from(state.len());
    let mut owner = [0u8; PROPOSITIONS_MOST];
    scores::owners(masks, &mut owner);
    let part = cutting::count_cuts(rule, &owner, STAYS).part;
    let slots = 1 + part.cuts;
    if form.slots_most() < slots {
        return Err(Refusal::Slots);
    }
    let nodes = sizing::count_unfolded(rule) + part.cuts;
    if form.nodes_most() < nodes {
        return Err(Refusal::Nodes);
    }
    let board = first_board(part.choice);
    let mut u = [0u8; NODES_ROOM];
    let mut tags = [0u32; NODES_ROOM];
    starting::put_first(
        state, masks, rule, &owner, board, slots, nodes, &mut u, &mut tags,
    );
    Ok(())
}
