// The slots' formulas: each is checked in one pass over its bytes, and the place holders seen are handed on from slot to slot.
ghost use Rattle.std.specs.Prelude.{◌≡◌, true, ◌≤◌};
ghost use Rattle.limits.specs.Limits.{propositions_most};
ghost use Rattle.state.specs.Fields.{slot_bytes};
ghost use Rattle.state.specs.Clauses.{each_below, is_constant_in, record_ok};
ghost use Rattle.state.specs.Counted.{Sized};
ghost use Rattle.state.specs.Opened.{SlotThere};
ghost use Rattle.scanning.specs.OnePass.{Fitted, at, pass};
ghost use Rattle.checking.specs.Slotted.{holdable_in, Holdable, sampled_for, own_stepped, allowed_in, held_in, formulas_ok};

use scanning::{Allowed, pass_over};
use slot_sets::{SlotSet, every_slot, no_slots, with_slot};
use state::{Counts, Span};

// Slot k is the single byte 0 or 1.
pub fn is_constant(s: &[u8], c: Counts, k: usize) -> bool
    requires { SlotThere s.now c k }
    ensures { result ≡ is_constant_in s.now k }
{
    let Span { from, to } = state::span_of(s, c, k);
    to - from == 1 && s[from] <= 1
}

// Slot k is stepped and no constant: a stepped slot may hold it.
#[tactic(auto, unfolding(lists::specs::Tests::both, crate::specs::Slotted::holdable_in))]
fn is_holdable(s: &[u8], c: Counts, k: usize) -> bool
    requires { SlotThere s.now c k }
    ensures { result ≡ holdable_in s.now k }
{
    state::mark_of(s, c, k) == 1 && !is_constant(s, c, k)
}

// The slots that a stepped slot may hold.
fn holdable(s: &[u8], c: Counts) -> SlotSet
    requires { Sized s.now c × (each_below c.slots (record_ok s.now) ≡ true) }
    ensures { Holdable s.now result }
{
    let mut slots = no_slots();
    for k in 0..c.slots {
        if is_holdable(s, c, k) {
            slots = with_slot(slots, k as u8);
        }
    }
    slots
}

// The board of slot k has sampled, if the slot is stepped.
#[tactic(auto, unfolding(lists::specs::Tests::either, crate::specs::Slotted::sampled_for))]
fn sampled_for(s: &[u8], c: Counts, k: usize) -> bool
    requires { SlotThere s.now c k }
    ensures { result ≡ sampled_for s.now k }
{
    state::mark_of(s, c, k) != 1 || state::sampled_of(s, usize::from(state::board_of(s, c, k))) == 1
}

// The propositions that may stand in a stepped slot of n nodes.
#[tactic(auto, unfolding(lists::specs::Tests::pick, crate::specs::Slotted::own_stepped))]
fn own_stepped(mask: u64, n: usize) -> u64
    ensures { result ≡ own_stepped mask n }
{
    if n == 1 { mask } else { u64::MAX }
}

// What may stand in slot k's formula.
#[tactic(auto, unfolding(lists::specs::Tests::pick, crate::specs::Slotted::allowed_in))]
fn allowed_in(s: &[u8], c: Counts, k: usize, p: u64, holdable: SlotSet) -> Allowed
    requires { SlotThere s.now c k }
    ensures { result ≡ allowed_in s.now p holdable k }
{
    let mask = state::mask_of(s, usize::from(state::board_of(s, c, k)));
    let unstepped = Allowed {
        propositions: p,
        slots: c.slots as u64,
        slot: k as u64,
        own: mask,
        holders: every_slot(),
        temporal: false,
    };
    if state::mark_of(s, c, k) != 1 {
        return unstepped;
    }
    Allowed {
        own: own_stepped(mask, state::length_of(s, c, k)),
        holders: holdable,
        temporal: true,
        ..unstepped
    }
}

// Slot k's formula, with the place holders that the slots before it have.
fn slot_held(s: &[u8], c: Counts, k: usize, allowed: Allowed, seen: SlotSet) -> Option<SlotSet>
    requires { SlotThere s.now c k × Fitted allowed }
    ensures { result ≡ pass allowed (slot_bytes s.now k) (at 1 0 seen) }
{
    let Span { from, to } = state::span_of(s, c, k);
    pass_over(&s[from..to], allowed, seen)
}

// Slot k's clause, and the place holders seen behind it.
fn formula_held(
    s: &[u8],
    c: Counts,
    k: usize,
    p: u64,
    holdable: SlotSet,
    seen: SlotSet,
) -> Option<SlotSet>
    requires { SlotThere s.now c k × (p ≤ propositions_most) × Holdable s.now holdable }
    ensures { result ≡ held_in s.now p k seen }
{
    if !sampled_for(s, c, k) {
        return None;
    }
    slot_held(s, c, k, allowed_in(s, c, k, p, holdable), seen)
}

// Every slot's formula passes its clause, and no place holder stands twice.
pub fn formulas_ok(s: &[u8], c: Counts, p: u64) -> bool
    requires { Sized s.now c × (each_below c.slots (record_ok s.now) ≡ true) × (p ≤ propositions_most) }
    ensures { result ≡ formulas_ok s.now p c.slots }
{
    let holders = holdable(s, c);
    let mut seen = no_slots();
    for k in 0..c.slots {
        let Some(held) = formula_held(s, c, k, p, holders, seen) else {
            return false;
        };
        seen = held;
    }
    true
}
