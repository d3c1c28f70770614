// Infix signs that wait for their left operand, the latest last: the level of each stands in one array, the number of brackets that are
// open there in another. Where a sign has both operands its byte is put in front of theirs, so that a formula is written from its end.
#![tactic(auto)]

ghost use Rattle.std.specs.Prelude.{◌≡◌};
ghost use Rattle.kinds.specs.Kinds.{binary_code};
ghost use Rattle.popping.specs.Waits.{sign_at, Room, Spare, Pops, Pushes};

use kinds::{Binary, Kind};

// How many signs wait, and where the bytes begin.
#[derive(Clone, Copy)]
pub struct Edges {
    pub top: usize,
    pub at: usize,
}

// The byte of the sign of a level.
#[tactic(auto, unfolding(crate::specs::Waits::sign_at, lists::specs::Tests::pick))]
fn code_at(level: u8) -> u8
    ensures { result ≡ binary_code (sign_at level) }
{
    match level {
        0 => Kind::UNTIL,
        1 => Kind::AND,
        _ => Kind::OR,
    }
}

// Signs of the depth d that bind tighter than the level k have both operands: their bytes go in front.
pub fn pop(out: &mut [u8], levels: &[u8], depths: &[usize], x: Edges, d: usize, k: u8) -> Edges
    requires { Room levels.now depths.now out.old x }
    ensures { Pops levels.now depths.now d k x out.old result out.new }
{
    let mut at = x.at;
    for i in (0..x.top).rev() {
        let j = levels[i];
        if depths[i] != d || k <= j {
            return Edges { top: i + 1, at };
        }
        at -= 1;
        out[at] = code_at(j);
    }
    Edges { top: 0, at }
}

// The sign o at the depth d has its right operand, and waits for its left one. Signs of its own level go in front, for they group to
// the right.
pub fn push(
    out: &mut [u8],
    levels: &mut [u8],
    depths: &mut [usize],
    x: Edges,
    d: usize,
    o: Binary,
) -> Edges
    requires { Spare 1 levels.old depths.old out.old x }
    ensures { Pushes o d levels.old depths.old out.old x levels.new depths.new out.new result }
{
    let j = text::level_of(o);
    let p = pop(out, levels, depths, x, d, j + 1);
    levels[p.top] = j;
    depths[p.top] = d;
    Edges {
        top: p.top + 1,
        at: p.at,
    }
}
