// What a board sees at a tick, and what a node without operands becomes by it.
#![tactic(auto)]

ghost use Rattle.std.specs.Prelude.{◌≡◌, ◌<◌};
ghost use Rattle.limits.specs.Limits.{propositions_most, holder_codes};
ghost use Rattle.lists.specs.Tests as tests;
ghost use Rattle.kinds.specs.declared.Leaf.TheVariants.{Const, Hold};
ghost use Rattle.kinds.specs.Kinds.{leaf_code, leaf_coded};
ghost use Rattle.resolving.specs.Settles.{settled_leaf};

use kinds::{Kind, Leaf};
use slot_sets::{SlotSet, has_slot};

// What a board sees at a tick: its event, and which of the slots that it holds have answered true, and false.
#[derive(Clone, Copy)]
pub struct Seen {
    pub event: u64,
    pub yes: SlotSet,
    pub no: SlotSet,
}

// Whether proposition i is true in the event n.
#[tactic(auto, unfolding(lists::specs::Tests::bit))]
fn bit(n: u64, i: u8) -> bool
    requires { i < propositions_most }
    ensures { result ≡ tests.bit n i }
{
    (n >> i) % 2 == 1
}

// The byte of a constant.
fn constant(v: bool) -> u8
    ensures { result ≡ leaf_code (Const v) }
{
    if v { Kind::TRUE } else { Kind::FALSE }
}

// The byte that a node without operands becomes.
pub fn leaf_under(a: Leaf, seen: Seen) -> u8
    requires { leaf_coded a }
    ensures { result ≡ leaf_code (settled_leaf seen a) }
{
    match a {
        Leaf::Const(v) => constant(v),
        Leaf::Prop(i) => constant(bit(seen.event, i)),
        Leaf::Hold(k) => held_under(k, seen),
    }
}

// The byte that the place holder of slot k becomes.
#[tactic(auto, unfolding(lists::specs::Tests::pick))]
fn held_under(k: u8, seen: Seen) -> u8
    requires { k < holder_codes }
    ensures { result ≡ leaf_code (settled_leaf seen (Hold k)) }
{
    if has_slot(seen.yes, k) {
        return Kind::TRUE;
    }
    if has_slot(seen.no, k) {
        return Kind::FALSE;
    }
    Kind::HOLD + k
}
