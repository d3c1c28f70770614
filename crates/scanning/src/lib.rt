// A slot's formula, checked in one pass over its bytes. Two counts tell which operands are still owed: those outside next and the
// temporal operators, and those inside one, which come first.
#![tactic(auto)]

ghost use Rattle.std.specs.Prelude.{◌≡◌, ◌+◌, ◌<◌, ◌^◌};
ghost use Rattle.kinds.specs.Kinds.{kind_of};
ghost use Rattle.scanning.specs.OnePass.{leaf_outside, unary_outside, binary_outside, outside_after, inside_after, pass_after, pass, Fitted};

use kinds::{Binary, Kind, Leaf, Unary};
use slot_sets::{SlotSet, has_slot, with_slot};

// What may stand in a slot's formula. Propositions are below `propositions`, and outside next and the temporal operators in `own`;
// place holders are above `slot`, below `slots` and in `holders`. Temporal operators stand outside next where `temporal` says so.
#[derive(Clone, Copy)]
pub struct Allowed {
    pub propositions: u64,
    pub slots: u64,
    pub slot: u64,
    pub own: u64,
    pub holders: SlotSet,
    pub temporal: bool,
}

// Where the pass stands: the operands owed outside and inside, and the slots whose place holders were seen. Behind a node that may not
// stand there it stands nowhere.
#[derive(Clone, Copy)]
pub struct Pass {
    pub outer: usize,
    pub inner: usize,
    pub seen: SlotSet,
}

// Outside, behind a node without operands.
#[tactic(auto, unfolding(lists::specs::Tests::pick, lists::specs::Tests::both, lists::specs::Tests::bit))]
fn leaf_outside(a: Leaf, allowed: Allowed, others: usize, seen: SlotSet) -> Option<Pass>
    requires { Fitted allowed }
    ensures { result ≡ leaf_outside allowed a others seen }
{
    let on = Pass {
        outer: others,
        inner: 0,
        seen,
    };
    match a {
        Leaf::Const(_) => Some(on),
        Leaf::Prop(i) => {
            if allowed.propositions <= u64::from(i) || (allowed.own >> i) % 2 != 1 {
                return None;
            }
            Some(on)
        }
        Leaf::Hold(m) => {
            if allowed.slots <= u64::from(m) {
                return None;
            }
            if u64::from(m) <= allowed.slot {
                return None;
            }
            if !has_slot(allowed.holders, m) || has_slot(seen, m) {
                return None;
            }
            Some(Pass {
                seen: with_slot(seen, m),
                ..on
            })
        }
    }
}

// Outside, behind a node with one operand.
#[tactic(auto, unfolding(lists::specs::Tests::pick))]
fn unary_outside(o: Unary, temporal: bool, others: usize, seen: SlotSet) -> Option<Pass>
    requires { others + 2 < 2 ^ 64 }
    ensures { result ≡ unary_outside temporal o others seen }
{
    let within = Pass {
        outer: others,
        inner: 1,
        seen,
    };
    match o {
        Unary::Not => Some(Pass {
            outer: others + 1,
            inner: 0,
            seen,
        }),
        Unary::Next => Some(within),
        Unary::Ever(_) => if temporal { Some(within) } else { None },
    }
}

// Outside, behind a node with two operands.
#[tactic(auto, unfolding(lists::specs::Tests::pick))]
fn binary_outside(o: Binary, temporal: bool, others: usize, seen: SlotSet) -> Option<Pass>
    requires { others + 2 < 2 ^ 64 }
    ensures { result ≡ binary_outside temporal o others seen }
{
    match o {
        Binary::Joined(_) => Some(Pass {
            outer: others + 2,
            inner: 0,
            seen,
        }),
        Binary::Until => if temporal {
            Some(Pass {
                outer: others,
                inner: 2,
                seen,
            })
        } else {
            None
        },
    }
}

// Outside, with `others` operands owed beside this node.
fn outside(k: Kind, allowed: Allowed, others: usize, seen: SlotSet) -> Option<Pass>
    requires { Fitted allowed × (others + 2 < 2 ^ 64) }
    ensures { result ≡ outside_after allowed k others seen }
{
    match k {
        Kind::Zero(a) => leaf_outside(a, allowed, others, seen),
        Kind::One(o) => unary_outside(o, allowed.temporal, others, seen),
        Kind::Two(o) => binary_outside(o, allowed.temporal, others, seen),
        Kind::NoCode => None,
    }
}

// Inside, a rule's nodes may stand: no place holder.
#[tactic(auto, unfolding(lists::specs::Tests::pick))]
fn inside(k: Kind, p: u64, others: usize, outer: usize, seen: SlotSet) -> Option<Pass>
    requires { others + 2 < 2 ^ 64 }
    ensures { result ≡ inside_after p k others outer seen }
{
    if owing::stands(k, p, 0) {
        return Some(Pass {
            outer,
            inner: others + Kind::operands(k),
            seen,
        });
    }
    None
}

// One node further.
#[tactic(auto, unfolding(lists::specs::Tests::pick, crate::specs::OnePass::pass_after))]
fn after(b: u8, allowed: Allowed, at: Pass) -> Option<Pass>
    requires { Fitted allowed × (at.outer + at.inner + 2 < 2 ^ 64) }
    ensures { result ≡ pass_after allowed (kind_of b) at }
{
    if 0 < at.inner {
        return inside(
            Kind::from(b),
            allowed.propositions,
            at.inner - 1,
            at.outer,
            at.seen,
        );
    }
    if at.outer < 1 {
        return None;
    }
    outside(Kind::from(b), allowed, at.outer - 1, at.seen)
}

// The pass over a slot's bytes, with the place holders that the slots before it have.
#[tactic(auto, using(crate::proofs::Owing::turns), unfolding(lists::specs::Tests::pick, crate::specs::OnePass::ended))]
pub fn pass_over(s: &[u8], allowed: Allowed, seen: SlotSet) -> Option<SlotSet>
    requires { Fitted allowed }
    ensures { result ≡ pass allowed s.now (record { outer = 1; inner = 0; seen = seen }) }
{
    let mut at = Pass {
        outer: 1,
        inner: 0,
        seen,
    };
    for b in s {
        at = after(*b, allowed, at)?;
    }
    if 0 < at.outer || 0 < at.inner {
        return None;
    }
    Some(at.seen)
}
