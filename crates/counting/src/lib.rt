// How many slots and nodes the network has that a state closes to, counted without laying anything. A slot holds slots of higher
// numbers alone, so the last one is counted first: each counts its own cuts and nodes, and what the slots count that it holds.
#![tactic(auto)]

ghost use Rattle.std.specs.Prelude.{◌≡◌, ◌+◌, ◌<◌, ◌≤◌, ◌^◌};
ghost use Rattle.kinds.specs.Kinds.{hold_code};
ghost use Rattle.limits.specs.Limits.{nodes_room, slots_room};
ghost use Rattle.state.specs.Fields.{masks_in, board_of_in};
ghost use Rattle.state.specs.Bytes.{formula_at};
ghost use Rattle.state.specs.Calls.{next_in};
ghost use Rattle.checked.specs.Holds.{Holds};
ghost use Rattle.counting.specs.OpenedWith.{OpenedWith};
ghost use Rattle.counting.specs.Totals.{capped, Totalled};
ghost use Rattle.counting.specs.Held.{held_at, entry_in};
ghost use Rattle.counting.specs.Tables.{Tables, HeldBy, FormulaAsk, CountedOn, CountsOn};

use kinds::Kind;
use limits::{NODES_ROOM, SLOTS_ROOM};
use state::{Counts, Span};

// How many slots and nodes there are; what is over a limit counts as one more than it.
#[derive(Clone, Copy)]
pub struct Totals {
    pub slots: usize,
    pub nodes: usize,
}

// A count, or one more than the most where it is over.
fn cap(n: usize, most: usize) -> usize
    requires { most ≤ nodes_room }
    ensures { result ≡ capped most n }
{
    if n <= most { n } else { most + 1 }
}

// Two counts in one.
fn together(a: Totals, b: Totals) -> Totals
    requires { (a.slots + b.slots < 2 ^ 64) × (a.nodes + b.nodes < 2 ^ 64) }
    ensures { (result.slots ≡ capped slots_room (a.slots + b.slots)) × (result.nodes ≡ capped nodes_room (a.nodes + b.nodes)) }
{
    Totals {
        slots: cap(a.slots + b.slots, SLOTS_ROOM),
        nodes: cap(a.nodes + b.nodes, NODES_ROOM),
    }
}

// One node further: a place holder adds what its slot counts.
fn after(b: u8, t: Totals, slots: &[u8], nodes: &[u16]) -> Totals
    requires { Tables slots.now nodes.now × (b < hold_code + slots_room) × (t.slots ≤ slots_room + 1) × (t.nodes ≤ nodes_room + 1) }
    ensures { (result.slots ≡ capped slots_room (t.slots + held_at (entry_in slots.now) b)) × (result.nodes ≡ capped nodes_room (t.nodes + held_at (entry_in nodes.now) b)) }
{
    if b < Kind::HOLD {
        return t;
    }
    let m = (b - Kind::HOLD) as usize;
    let held_slots = slots[m] as usize;
    let held_nodes = nodes[m] as usize;
    together(
        t,
        Totals {
            slots: held_slots,
            nodes: held_nodes,
        },
    )
}

// What the slots count that the place holders among the bytes p stand for.
fn held_by(p: &[u8], slots: &[u8], nodes: &[u16]) -> Totals
    requires { Tables slots.now nodes.now × Holds slots_room p.now }
    ensures { HeldBy slots.now nodes.now p.now result }
{
    let mut t = Totals { slots: 0, nodes: 0 };
    for b in p {
        t = after(*b, t, slots, nodes);
    }
    t
}

// What a slot on the board counts whose bytes are p.
fn count_formula(p: &[u8], board: u8, owner: &[u8], slots: &[u8], nodes: &[u16]) -> Totals
    requires { FormulaAsk p.now board owner.now slots.now nodes.now }
    ensures { CountsOn p.now board owner.now slots.now nodes.now result }
{
    let cuts = cutting::count_cuts(p, owner, board).part.cuts;
    let own_slots = 1 + cuts;
    let own_nodes = cuts + sizing::count_unfolded(p);
    together(
        Totals {
            slots: own_slots,
            nodes: own_nodes,
        },
        held_by(p, slots, nodes),
    )
}

// What slot k counts, the tables having what the slots count that it holds.
fn count_slot(
    state: &[u8],
    c: Counts,
    k: usize,
    owner: &[u8],
    slots: &[u8],
    nodes: &[u16],
) -> Totals
    requires { OpenedWith state.now c owner.now × (k < c.slots) × Tables slots.now nodes.now }
    ensures { CountedOn (masks_in state.now) slots.now nodes.now (formula_at state.now k) (board_of_in state.now k) result }
{
    let Span { from, to } = state::span_of(state, c, k);
    let board = state::board_of(state, c, k);
    count_formula(&state[from..to], board, owner, slots, nodes)
}

// Counts every slot into the tables, the last one first; what the first slot counts is the whole.
fn count_down(state: &[u8], c: Counts, owner: &[u8], slots: &mut [u8], nodes: &mut [u16]) -> Totals
    requires { OpenedWith state.now c owner.now × Tables slots.old nodes.old }
    ensures { Totalled (next_in state.now) result }
{
    for k in (0..c.slots).rev() {
        let t = count_slot(state, c, k, owner, slots, nodes);
        slots[k] = t.slots as u8;
        nodes[k] = t.nodes as u16;
    }
    let all_slots = slots[0] as usize;
    let all_nodes = nodes[0] as usize;
    Totals {
        slots: all_slots,
        nodes: all_nodes,
    }
}

// The slots and nodes of the network that the state closes to.
pub fn count_next(state: &[u8], c: Counts, owner: &[u8]) -> Totals
    requires { OpenedWith state.now c owner.now }
    ensures { Totalled (next_in state.now) result }
{
    let mut slots = [0u8; SLOTS_ROOM];
    let mut nodes = [0u16; SLOTS_ROOM];
    count_down(state, c, owner, &mut slots, &mut nodes)
}
