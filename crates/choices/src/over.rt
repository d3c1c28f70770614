// The mark of a node whose operands are marked, and its rows of counts. The rows of the parts that wait stand one behind the other, the
// one read last in front: as they stand in `raw`, unfolded in `opened`. A node's rows are put where those of its last operand were.
ghost use Rattle.std.specs.Prelude.{◌≡◌, ◌+◌, ◌≤◌, length};
ghost use Rattle.limits.specs.Limits.{boards_most};
ghost use Rattle.choices.specs.Over.{OverNone, OverOneAsk, OverNext, OverEver, OverOne, OverJoinAsk, OverJoin, OverUntilAsk, OverUntil, OverTwoAsk, OverTwo};

use crate::marks::{again_of, choice_of, length_of, mark_of};
use crate::picks::together;
use crate::rows::{opened_at, put_opened, put_raw, raw_at};
use kinds::{Binary, Unary};
use limits::BOARDS_MOST;
use scores::{STAYS, Scores};

// A node without operands: its owner, if it has one, is what it is chosen for.
pub fn over_none(owner: u8, raw: &mut [u16], opened: &mut [u32], at: usize) -> u32
    requires { (owner ≤ boards_most) × (at + boards_most ≤ length raw.old) × (at + boards_most ≤ length opened.old) }
    ensures { OverNone owner at raw.old opened.old raw.new opened.new result }
{
    let scores = Scores::one(owner);
    put_raw(raw, at, scores);
    put_opened(opened, at, scores);
    mark_of(1, owner, STAYS, owner)
}

// A formula under next is not unfolded.
fn over_next(m: u32, raw: &[u16], opened: &mut [u32], at: usize) -> u32
    requires { OverOneAsk m at raw.now opened.old }
    ensures { OverNext m at raw.now opened.old opened.new result }
{
    let scores = raw_at(raw, at);
    put_opened(opened, at, scores);
    let again = again_of(m);
    mark_of(1 + length_of(m), again, STAYS, again)
}

// Eventually and always ask the same of this tick and of later ones: the operand unfolded, and the operator as it stands.
fn over_ever(m: u32, raw: &[u16], opened: &mut [u32], at: usize) -> u32
    requires { OverOneAsk m at raw.now opened.old }
    ensures { OverEver m at raw.now opened.old opened.new result }
{
    let scores = raw_at(raw, at);
    let first = opened_at(opened, at);
    let sums = first.plus(scores);
    put_opened(opened, at, sums);
    let again = again_of(m);
    mark_of(
        1 + length_of(m),
        together(choice_of(m), again, sums),
        STAYS,
        again,
    )
}

// A node with one operand, which has the mark m. Not changes no row, and its mark has one node more.
pub fn over_one(o: Unary, m: u32, raw: &[u16], opened: &mut [u32], at: usize) -> u32
    requires { OverOneAsk m at raw.now opened.old }
    ensures { OverOne o m at raw.now opened.old opened.new result }
{
    match o {
        Unary::Not => m + 1,
        Unary::Next => over_next(m, raw, opened, at),
        Unary::Ever(_) => over_ever(m, raw, opened, at),
    }
}

// And and or, of n nodes: a and b are the choices of the operands unfolded.
fn over_join(n: usize, a: u8, b: u8, again: u8, opened: &mut [u32], at: usize) -> u32
    requires { OverJoinAsk n a b again at opened.old }
    ensures { OverJoin n a b again at opened.old opened.new result }
{
    let left = opened_at(opened, at);
    let right = opened_at(opened, at + BOARDS_MOST);
    let sums = left.plus(right);
    put_opened(opened, at + BOARDS_MOST, sums);
    mark_of(n, together(a, b, sums), STAYS, again)
}

// Until, of n nodes: it asks its right operand of this tick, or else its left one and itself of later ticks, as it stands. The left
// operand is done with before the right one is read: with both read first the compiler adds and compares one count at a time.
fn over_until(n: usize, a: u8, b: u8, again: u8, copy: Scores, opened: &mut [u32], at: usize) -> u32
    requires { OverUntilAsk n a b again copy.counts at opened.old }
    ensures { OverUntil n a b again copy.counts at opened.old opened.new result }
{
    let left = opened_at(opened, at);
    let laters = left.plus(copy);
    let later = together(a, again, laters);
    let right = opened_at(opened, at + BOARDS_MOST);
    let sums = right.plus(laters);
    put_opened(opened, at + BOARDS_MOST, sums);
    mark_of(n, together(b, later, sums), later, again)
}

// A node with two operands, which have the marks l and r.
pub fn over_two(o: Binary, l: u32, r: u32, raw: &mut [u16], opened: &mut [u32], at: usize) -> u32
    requires { OverTwoAsk l r at raw.old opened.old }
    ensures { OverTwo o l r at raw.old opened.old raw.new opened.new result }
{
    let left = raw_at(raw, at);
    let right = raw_at(raw, at + BOARDS_MOST);
    let sums = left.plus(right);
    put_raw(raw, at + BOARDS_MOST, sums);
    let again = together(again_of(l), again_of(r), sums);
    let n = 1 + length_of(l) + length_of(r);
    match o {
        Binary::Joined(_) => over_join(n, choice_of(l), choice_of(r), again, opened, at),
        Binary::Until => over_until(n, choice_of(l), choice_of(r), again, sums, opened, at),
    }
}
