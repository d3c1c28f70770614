// Laying an unfolded formula that was tagged: its nodes and those of the slots that are cut out of it into one stretch of nodes, the
// slots' records into another. Laying a slot cuts its parts, and each cut part lays a slot. At a place holder the slot that it holds
// is laid: its formula stands further on in the same bytes, and the tag at the place holder says how far.
#![tactic(auto)]

ghost use Rattle.std.specs.Prelude.{◌≡◌, [], ◌∷◌, ◌++◌, ◌<◌, ◌≤◌, length, get_or, drop};
ghost use Rattle.le.specs.Le.{le};
ghost use Rattle.laying.specs.Lays.{CutAsk, Cuts, LookAsk, Looks, SlotAsk, LaysSlot, Plain, WholeAsk, PutsWhole, IsJoin, RootAsk, LaysRoot};
ghost use Rattle.kinds.specs.declared.Unary.TheVariants.{Not};
ghost use Rattle.kinds.specs.declared.Kind.TheVariants.{One};
ghost use Rattle.kinds.specs.Kinds.{kind_of};

use kinds::{Binary, Kind, Leaf, Unary};
use state::SLOT_ROW;
use tagging::packed;

// Where laying stands: the board of the slot whose nodes are written; the next slot's number, where its nodes begin in the network,
// and how far behind the node to be written that is.
#[derive(Clone, Copy)]
pub struct Place {
    pub board: u8,
    pub slot: usize,
    pub node: usize,
    pub gap: usize,
}

// What was laid: the bytes read, the nodes written in the slot itself, the slots cut out of it and their nodes.
#[derive(Clone, Copy)]
pub struct Lain {
    pub read: usize,
    pub here: usize,
    pub slots: usize,
    pub nodes: usize,
}

// Lays the formula that u begins with in the slot that is being laid: its top stays, and its operands are looked at.
#[cycle(cut_not_cut_pair_cut_parts_lay_slot_look)]
pub fn cut_parts(u: &[u8], tags: &[u32], at: Place, p: &mut [u8], r: &mut [u8]) -> Lain
    requires { CutAsk u.now tags.now at p.old r.old }
    ensures { Cuts u.now tags.now at p.old r.old p.new r.new result }
{
    let b = u[0];
    let k = Kind::from(b);
    match k {
        Kind::Zero(a) => match a {
            Leaf::Const(_) => put_leaf(p, b),
            Leaf::Prop(_) => put_leaf(p, b),
            Leaf::Hold(_) => {
                let ahead = packed::ahead_of(tags[0]);
                let x = lay_slot(&u[ahead..], &tags[ahead..], at, p, r);
                Lain {
                    read: 1,
                    here: x.here,
                    slots: x.slots,
                    nodes: x.nodes,
                }
            }
        },
        Kind::One(o) => match o {
            Unary::Not => cut_not(u, tags, at, p, r),
            Unary::Next => put_whole(u, tags, p),
            Unary::Ever(_) => put_whole(u, tags, p),
        },
        Kind::Two(o) => match o {
            Binary::Joined(_) => cut_pair(u, tags, at, p, r),
            Binary::Until => put_whole(u, tags, p),
        },
        // No formula begins with such a byte.
        Kind::NoCode => put_leaf(p, b),
    }
}

// A node without operands.
fn put_leaf(p: &mut [u8], b: u8) -> Lain
    requires { 0 < length p.old }
    ensures { (p.new ≡ (b ∷ []) ++ drop 1 p.old) × Plain 1 result }
{
    p[0] = b;
    Lain {
        read: 1,
        here: 1,
        slots: 0,
        nodes: 0,
    }
}

// The formula that u begins with, as it stands: its tag has its length.
fn put_whole(u: &[u8], tags: &[u32], p: &mut [u8]) -> Lain
    requires { WholeAsk u.now tags.now p.old }
    ensures { PutsWhole u.now p.old p.new result }
{
    let n = packed::length_of(tags[0]);
    buffers::copy(p, &u[..n]);
    Lain {
        read: n,
        here: n,
        slots: 0,
        nodes: 0,
    }
}

// Not: its operand is looked at.
#[cycle(cut_not_cut_pair_cut_parts_lay_slot_look)]
fn cut_not(u: &[u8], tags: &[u32], at: Place, p: &mut [u8], r: &mut [u8]) -> Lain
    requires { CutAsk u.now tags.now at p.old r.old × (kind_of (get_or u.now 0 0) ≡ One Not) }
    ensures { Cuts u.now tags.now at p.old r.old p.new r.new result }
{
    p[0] = Kind::NOT;
    let inner = Place {
        board: at.board,
        slot: at.slot,
        node: at.node,
        gap: at.gap - 1,
    };
    let x = look(&u[1..], &tags[1..], inner, &mut p[1..], r);
    Lain {
        read: 1 + x.read,
        here: 1 + x.here,
        slots: x.slots,
        nodes: x.nodes,
    }
}

// And or or: its operands are looked at, left to right.
#[cycle(cut_not_cut_pair_cut_parts_lay_slot_look)]
fn cut_pair(u: &[u8], tags: &[u32], at: Place, p: &mut [u8], r: &mut [u8]) -> Lain
    requires { CutAsk u.now tags.now at p.old r.old × IsJoin u.now }
    ensures { Cuts u.now tags.now at p.old r.old p.new r.new result }
{
    p[0] = u[0];
    let left = Place {
        board: at.board,
        slot: at.slot,
        node: at.node,
        gap: at.gap - 1,
    };
    let x = look(&u[1..], &tags[1..], left, &mut p[1..], r);
    let m = 1 + x.read;
    let here = 1 + x.here;
    let records = state::rows(x.slots);
    let right = Place {
        board: at.board,
        slot: at.slot + x.slots,
        node: at.node + x.nodes,
        gap: at.gap - here + x.nodes,
    };
    let y = look(
        &u[m..],
        &tags[m..],
        right,
        &mut p[here..],
        &mut r[records..],
    );
    Lain {
        read: m + y.read,
        here: here + y.here,
        slots: x.slots + y.slots,
        nodes: x.nodes + y.nodes,
    }
}

// Looks at the operand that u begins with: where it stays its own operands are looked at, else it is cut.
#[cycle(cut_not_cut_pair_cut_parts_lay_slot_look)]
fn look(u: &[u8], tags: &[u32], at: Place, p: &mut [u8], r: &mut [u8]) -> Lain
    requires { LookAsk u.now tags.now at p.old r.old }
    ensures { Looks u.now tags.now at p.old r.old p.new r.new result }
{
    let choice = packed::board_of(tags[0]);
    if scores::stays_on(choice, at.board) {
        return cut_parts(u, tags, at, p, r);
    }
    lay_slot(u, tags, at, p, r)
}

// Lays the formula that u begins with as a slot of its own, on the board of its tag, and puts its place holder.
#[cycle(cut_not_cut_pair_cut_parts_lay_slot_look)]
fn lay_slot(u: &[u8], tags: &[u32], at: Place, p: &mut [u8], r: &mut [u8]) -> Lain
    requires { SlotAsk u.now tags.now at p.old r.old }
    ensures { LaysSlot u.now tags.now at p.old r.old p.new r.new result }
{
    let tag = tags[0];
    let n = packed::length_of(tag);
    let board = packed::board_of(tag);
    let gap = at.gap;
    p[0] = Kind::HOLD + at.slot as u8;
    state::put_record(r, board, at.node as u16, n as u16);
    let own = Place {
        board,
        slot: at.slot + 1,
        node: at.node + n,
        gap: n,
    };
    let x = cut_parts(u, tags, own, &mut p[gap..], &mut r[SLOT_ROW..]);
    Lain {
        read: x.read,
        here: 1,
        slots: 1 + x.slots,
        nodes: n + x.nodes,
    }
}

// Lays the formula that u begins with as the first slot of a network, on the board of its tag: its nodes and those of the slots cut
// out of it to the front of p, their records to the front of r.
pub fn lay_root(u: &[u8], tags: &[u32], p: &mut [u8], r: &mut [u8])
    requires { RootAsk u.now tags.now p.old r.old }
    ensures { LaysRoot u.now tags.now p.old r.old p.new r.new }
{
    let tag = tags[0];
    let n = packed::length_of(tag);
    let board = packed::board_of(tag);
    state::put_record(r, board, 0, n as u16);
    let own = Place {
        board,
        slot: 1,
        node: n,
        gap: n,
    };
    cut_parts(u, tags, own, p, &mut r[SLOT_ROW..]);
}
