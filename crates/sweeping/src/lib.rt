// Resolving a formula in place, in its own bytes, in one loop from the last byte to the first. The bytes that are not read yet stand in
// front, the results of those that were read at the end, and what is written never reaches what is not read. Beside the bytes are
// notes: in front which parts stay whole, at the end how long the results are.
#![tactic(auto)]

ghost use Rattle.std.specs.Prelude.{◌≡◌, ◌+◌, ◌<◌, ◌≤◌, length};
ghost use Rattle.kinds.specs.declared.Leaf.TheVariants.{Const};
ghost use Rattle.kinds.specs.Kinds.{leaf_code};
ghost use Rattle.ltl.specs.Progression as progression;
ghost use Rattle.sweeping.specs.Passes.{NodeAsk, NodeSettles, KeepWholeAsk, KeepsWhole, KeptFrom, Forgets, Turnable, Turns, Outlining, SettlesAll};

use kinds::{Binary, Join, Kind, Unary};
use resolving::Seen;

// Where reading stands, and where the lowest result begins.
#[derive(Clone, Copy)]
pub struct Spot {
    pub i: usize,
    pub w: usize,
}

// The byte of the constant that settles a join.
fn deciding(j: Join) -> u8
    ensures { result ≡ leaf_code (Const (progression.deciding j)) }
{
    match j {
        Join::And => Kind::FALSE,
        Join::Or => Kind::TRUE,
    }
}

// A node with the byte c, whose operands' results are the lowest, becomes a result.
fn settle_node(c: u8, seen: Seen, p: &mut [u8], notes: &mut [u16], w: usize) -> usize
    requires { NodeAsk c seen p.old notes.old w }
    ensures { NodeSettles c seen p.old notes.old w p.new notes.new result }
{
    let k = Kind::from(c);
    match k {
        Kind::Zero(a) => stacking::push(resolving::leaf_under(a, seen), p, notes, w),
        Kind::One(o) => match o {
            Unary::Not => stacking::negate(p, notes, w),
            // Next and the temporal operators stay whole.
            Unary::Next | Unary::Ever(_) => w,
        },
        Kind::Two(o) => match o {
            Binary::Joined(j) => joining::join(p, notes, w, c, deciding(j)),
            Binary::Until => w,
        },
        // No formula begins with such a byte.
        Kind::NoCode => w,
    }
}

// Where what is kept of a part at a begins, whose first byte is b: behind the byte of a next.
fn kept_from(b: u8, a: usize) -> usize
    requires { a < 65536 }
    ensures { KeptFrom b a result }
{
    if b == Kind::NEXT { a + 1 } else { a }
}

// Nothing is known of the left operands of a formula of m bytes at v.
fn forget(p: &[u8], notes: &mut [u16], v: usize, m: usize)
    requires { (0 < m) × (v + m ≤ length p.now) × (length p.now ≤ length notes.old) }
    ensures { Forgets p.now notes.old v m notes.new }
{
    if stacking::is_join(p[v]) {
        buffers::clear_notes(notes, v, m);
    }
}

// The part of n bytes that ends at i stays whole: it becomes a result as it stands, a next without its byte.
fn keep_whole(p: &mut [u8], notes: &mut [u16], i: usize, n: usize, w: usize) -> usize
    requires { KeepWholeAsk p.old notes.old i n w }
    ensures { KeepsWhole p.old notes.old i n w p.new notes.new result }
{
    let a = i - n;
    let from = kept_from(p[a], a);
    let m = i - from;
    let v = w - m;
    buffers::raise(p, from, m, w - i);
    forget(p, notes, v, m);
    notes[v] = buffers::narrow(m);
    v
}

// The node, or the part that stays whole, that ends at i.
fn turn(p: &mut [u8], notes: &mut [u16], seen: Seen, i: usize, w: usize) -> Spot
    requires { Turnable seen p.old notes.old i w }
    ensures { Turns seen p.old notes.old i w p.new notes.new result }
{
    let j = i - 1;
    let n = usize::from(notes[j]);
    if n == 0 {
        return Spot {
            i: j,
            w: settle_node(p[j], seen, p, notes, w),
        };
    }
    Spot {
        i: i - n,
        w: keep_whole(p, notes, i, n, w),
    }
}

// Resolves the formula that p is, with its outline beside it. What it becomes stands at the end of p, from the answer on.
pub fn sweep(p: &mut [u8], notes: &mut [u16], seen: Seen) -> usize
    requires { Outlining p.old notes.old }
    ensures { SettlesAll seen p.old p.new result }
{
    let mut at = Spot {
        i: p.len(),
        w: p.len(),
    };
    // A `while`, since a part that stays whole is gone over in one turn.
    while 0 < at.i {
        at = turn(p, notes, seen, at.i, at.w);
    }
    at.w
}
