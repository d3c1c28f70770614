// A part of a formula as it is unfolded, written in tokens from its top on: one token is written, and the part's operands are left to be
// looked at. What is left stands at the end of the same room, the next one first; each writes one token at least, so the two never meet.
#![tactic(auto)]

ghost use Rattle.std.specs.Prelude.{◌≡◌, ◌+◌, ◌/◌, ◌<◌, ◌≤◌, length, get_or};
ghost use Rattle.limits.specs.Limits.{nodes_room, slots_room};
ghost use Rattle.kinds.specs.Kinds.{leaf_code, leaf_coded};
ghost use Rattle.choices.specs.Marks.{length_in};
ghost use Rattle.parting.specs.Parts.{parts_room, node_code, ChosenFor};
ghost use Rattle.parting.specs.Tops.{alone_top, over_top, between_top, text_top, single_top, pair_top, held_leaf, TopAsk, TopsPart, SmallTop, PutsTop};

use choices::marks;
use kinds::{Binary, Join, Kind, Leaf, Unary};

// How many parts of a node are told apart.
pub const PARTS: usize = 4;

// Of a node's parts: the node unfolded, what an until asks of its left operand and of later ticks, and the node under next.
pub const NODE: usize = 0;

pub const LATER: usize = 1;

pub const AGAIN: usize = 2;

// Tokens from here on are texts under next.
pub const TEXT: usize = 256;

// The top of a part: its token, how many nodes that stands for, how many operands there are, and which parts they are.
#[derive(Clone, Copy)]
pub struct PartTop {
    pub token: usize,
    pub nodes: usize,
    pub operands: usize,
    pub left: usize,
    pub right: usize,
}

// A token without operands.
fn alone(token: usize) -> PartTop
    ensures { result ≡ alone_top token }
{
    PartTop {
        token,
        nodes: 1,
        operands: 0,
        left: 0,
        right: 0,
    }
}

// A token with one operand.
fn over(token: usize, operand: usize) -> PartTop
    ensures { result ≡ over_top token operand }
{
    PartTop {
        token,
        nodes: 1,
        operands: 1,
        left: operand,
        right: 0,
    }
}

// A token with two operands.
fn between(token: usize, left: usize, right: usize) -> PartTop
    ensures { result ≡ between_top token left right }
{
    PartTop {
        token,
        nodes: 1,
        operands: 2,
        left,
        right,
    }
}

// Next, and the text at a place under it.
fn text_top(marks: &[u32], at: usize) -> PartTop
    requires { (at < length marks.now) × (at < nodes_room) }
    ensures { result ≡ text_top at (length_in (get_or marks.now at 0)) }
{
    let n = marks::length_of(marks[at]);
    PartTop {
        token: TEXT + at,
        nodes: 1 + n,
        operands: 0,
        left: 0,
        right: 0,
    }
}

// The top of a node with two operands: the left one stands behind it, the right one behind that.
fn pair_top(marks: &[u32], at: usize, o: Binary) -> PartTop
    requires { (at + 1 < length marks.now) × (at < nodes_room) }
    ensures { result ≡ pair_top o at (length_in (get_or marks.now (at + 1) 0)) }
{
    let left = at + 1;
    let right = left + marks::length_of(marks[left]);
    match o {
        Binary::Joined(j) => between(usize::from(u8::from(j)), left * PARTS, right * PARTS),
        Binary::Until => between(usize::from(Kind::OR), right * PARTS, at * PARTS + LATER),
    }
}

// The top of a node with one operand.
fn single_top(marks: &[u32], at: usize, o: Unary) -> PartTop
    requires { (at + 1 < length marks.now) × (at + 1 < nodes_room) }
    ensures { result ≡ single_top o at (length_in (get_or marks.now (at + 1) 0)) }
{
    let operand = at + 1;
    match o {
        Unary::Not => over(usize::from(Kind::NOT), operand * PARTS),
        Unary::Next => text_top(marks, operand),
        Unary::Ever(j) => between(
            usize::from(u8::from(j)),
            operand * PARTS,
            at * PARTS + AGAIN,
        ),
    }
}

// A leaf: a place holder stands for the entry of its slot.
fn leaf_token(b: u8, a: Leaf, held: &[u8]) -> usize
    requires { (b ≡ leaf_code a) × leaf_coded a × (length held.now ≡ slots_room) }
    ensures { result ≡ leaf_code (held_leaf held.now a) }
{
    match a {
        Leaf::Const(_) => usize::from(b),
        Leaf::Prop(_) => usize::from(b),
        Leaf::Hold(m) => usize::from(Kind::HOLD) + usize::from(held[m as usize]),
    }
}

// The top of the node at a place, unfolded: what it asks of this tick comes first, and its copy under next last.
fn node_top(u: &[u8], marks: &[u32], held: &[u8], at: usize) -> PartTop
    requires { TopAsk u.now marks.now held.now (node_code at) }
    ensures { TopsPart u.now marks.now held.now (node_code at) result }
{
    let b = u[0];
    let k = Kind::from(b);
    match k {
        Kind::Zero(a) => alone(leaf_token(b, a, held)),
        Kind::One(o) => single_top(marks, at, o),
        Kind::Two(o) => pair_top(marks, at, o),
        // No formula begins with such a byte.
        Kind::NoCode => alone(usize::from(b)),
    }
}

// The top of a part, whose node stands at the front of u.
pub fn top_of(u: &[u8], marks: &[u32], held: &[u8], part: usize) -> PartTop
    requires { TopAsk u.now marks.now held.now part }
    ensures { TopsPart u.now marks.now held.now part result }
{
    let at = part / PARTS;
    let which = part % PARTS;
    if which == NODE {
        return node_top(u, marks, held, at);
    }
    if which == LATER {
        return between(usize::from(Kind::AND), (at + 1) * PARTS, at * PARTS + AGAIN);
    }
    text_top(marks, at)
}

// The choice of a part.
pub fn choice_of(marks: &[u32], part: usize) -> u8
    requires { part / parts_room < length marks.now }
    ensures { ChosenFor marks.now part result }
{
    let mark = marks[part / PARTS];
    let which = part % PARTS;
    if which == NODE {
        return marks::choice_of(mark);
    }
    if which == LATER {
        return marks::later_of(mark);
    }
    marks::again_of(mark)
}

// Writes a token at w, and puts its operands in front of what is still to be looked at, which begins at `rest`. Answers where that begins
// then.
pub fn put_top(desk: &mut [u16], w: usize, rest: usize, t: PartTop) -> usize
    requires { (w + 1 + t.operands ≤ rest) × (rest ≤ length desk.old) × SmallTop t }
    ensures { PutsTop desk.old w rest t desk.new result }
{
    desk[w] = buffers::narrow(t.token);
    if t.operands == 0 {
        return rest;
    }
    if t.operands == 1 {
        desk[rest - 1] = buffers::narrow(t.left);
        return rest - 1;
    }
    desk[rest - 1] = buffers::narrow(t.right);
    desk[rest - 2] = buffers::narrow(t.left);
    rest - 2
}
