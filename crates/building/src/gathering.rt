// One sign of a text more, towards its front. Others use `Midway` and `take_in`.
ghost use Rattle.std.specs.Prelude.{◌≡◌, ◌+◌, ◌-◌, ◌*◌, ◌%◌, ◌<◌, ◌≤◌, length};
ghost use Rattle.limits.specs.Limits.{propositions_most};
ghost use Rattle.kinds.specs.declared.Leaf.TheVariants.{Const, Prop};
ghost use Rattle.kinds.specs.Kinds.{leaf_code, unary_code};
ghost use Rattle.building.specs.Takes.{Fronts, MoreRoom, TakesIn};

use kinds::{Join, Kind, Unary};
use limits::PROPOSITIONS_MOST;
use popping::{Edges, pop, push};
use text::{LOOSEST, Sign};

// Where the pass stands: what waits and where the bytes begin, the brackets that are open, the digits met as a number, and what the
// next digit counts. Of digits that are no number of a text only a remainder is kept.
#[derive(Clone, Copy)]
pub struct Midway {
    pub edges: Edges,
    pub depth: usize,
    pub number: u8,
    pub scale: u8,
}

// The byte of a prefix sign.
fn unary_code(o: Unary) -> u8
    ensures { result ≡ unary_code o }
{
    match o {
        Unary::Not => Kind::NOT,
        Unary::Next => Kind::NEXT,
        Unary::Ever(Join::And) => Kind::ALWAYS,
        Unary::Ever(Join::Or) => Kind::EVENTUALLY,
    }
}

// The byte of a constant.
fn const_code(v: bool) -> u8
    ensures { result ≡ leaf_code (Const v) }
{
    if v { Kind::TRUE } else { Kind::FALSE }
}

// The byte of a proposition.
fn prop_code(n: u8) -> u8
    ensures { result ≡ leaf_code (Prop (n % propositions_most)) }
{
    Kind::PROP + n % (PROPOSITIONS_MOST as u8)
}

// The digit n in front of the digits met, what it counts being m.
fn with_digit(number: u8, n: u8, m: u8) -> u8
    ensures { result ≡ (n * m + number) % 256 }
{
    n.wrapping_mul(m).wrapping_add(number)
}

// The byte b in front of the bytes.
fn front(out: &mut [u8], x: Midway, b: u8) -> Midway
    requires waiting { 0 < x.edges.at }
    requires within { x.edges.at ≤ length out.old }
    ensures { Fronts b out.old x out.new result }
{
    let at = x.edges.at - 1;
    out[at] = b;
    Midway {
        edges: Edges { at, ..x.edges },
        ..x
    }
}

// Takes the sign s in.
pub fn take_in(
    out: &mut [u8],
    levels: &mut [u8],
    depths: &mut [usize],
    x: Midway,
    s: Sign,
) -> Midway
    requires { MoreRoom s levels.old depths.old out.old x }
    ensures { TakesIn s levels.old depths.old out.old x levels.new depths.new out.new result }
{
    match s {
        Sign::Blank | Sign::Other => x,
        Sign::Prefix(o) => front(out, x, unary_code(o)),
        Sign::Infix(o) => Midway {
            edges: push(out, levels, depths, x.edges, x.depth, o),
            ..x
        },
        Sign::Open => Midway {
            edges: pop(out, levels, depths, x.edges, x.depth, LOOSEST),
            depth: x.depth.saturating_sub(1),
            ..x
        },
        Sign::Close => Midway {
            depth: x.depth + 1,
            ..x
        },
        Sign::Word(v) => front(out, x, const_code(v)),
        Sign::Letter => front(
            out,
            Midway {
                number: 0,
                scale: 1,
                ..x
            },
            prop_code(x.number),
        ),
        Sign::Digit(n) => Midway {
            number: with_digit(x.number, n, x.scale),
            scale: with_digit(0, 10, x.scale),
            ..x
        },
    }
}
