// Unfolding a formula from its bytes into an output: one loop forwards, with a list of what is still to be done. What is written is
// outlined on the way: the notes say which of its parts stay whole when it is resolved.
#![tactic(auto)]

ghost use Rattle.std.specs.Prelude.{◌≡◌, ◌∷◌, ◌++◌, ◌+◌, ◌-◌, ◌<◌, ◌≤◌, length, set, take, drop};
ghost use Rattle.kinds.specs.declared.Unary.TheVariants.{Next};
ghost use Rattle.kinds.specs.Kinds.{unary_code};
ghost use Rattle.limits.specs.Limits.{nodes_room};
ghost use Rattle.outlining.specs.Outlined.{Outlined};
ghost use Rattle.unfolding.specs.Stages.{Busy, BusyHere, Turns, TurnsHere};
ghost use Rattle.unfolding.specs.Unfolds.{Unfoldable, UnfoldWithin, UnfoldAsk, Unfolds};

use kinds::{Binary, Join, Kind, Unary};
use limits::NODES_ROOM;
use outlining::SMALL_NODES;

// Where an unfolding has come to: the place that is read next, how much is written, and where what is still to be done begins.
#[derive(Clone, Copy)]
struct Cursor {
    read: usize,
    written: usize,
    top: usize,
}

// Unfolds the formula s to the front of `out`, and notes beside what is written which of its parts stay whole. The end of `notes` is
// used besides, for what is still to be done, as numbers: 0 is to unfold the formula at the reading place, and a place of s with one, two
// or three times NODES_ROOM is what `unfold_turn` says. Each writes one byte at least, so the two never meet. Answers how much is written.
pub fn unfold_outlined(out: &mut [u8], s: &[u8], notes: &mut [u16]) -> usize
    requires { Unfoldable out.old s.now notes.old }
    ensures { Unfolds out.old s.now out.new result × Outlined out.new notes.new result }
{
    let n = notes.len();
    let mut k = n - 1;
    notes[k] = 0;
    let mut r: usize = 0;
    let mut w: usize = 0;
    // A `while`: k goes up and down with what is still to be done, and the end is where nothing is.
    while k < n {
        let t = unfold_turn(out, s, r, w, notes, k);
        r = t.read;
        w = t.written;
        k = t.top;
    }
    w
}

// The same with notes of its own, as many as are needed.
pub fn unfold_into(out: &mut [u8], s: &[u8]) -> usize
    requires { UnfoldAsk out.old s.now }
    ensures { Unfolds out.old s.now out.new result }
{
    if sizing::count_unfolded(s) <= SMALL_NODES {
        unfold_with::<SMALL_NODES>(out, s)
    } else {
        unfold_with::<NODES_ROOM>(out, s)
    }
}

// With N of them. Each is filled at every call, so a small formula has few.
fn unfold_with<const N: usize>(out: &mut [u8], s: &[u8]) -> usize
    requires asks { UnfoldWithin N out.old s.now }
    requires most { N ≤ nodes_room }
    ensures { Unfolds out.old s.now out.new result }
{
    let mut notes = [1u16; N];
    unfold_outlined(out, s, &mut notes)
}

// What stands at the top of what is to be done is done, up to the next operand that is to be unfolded.
fn unfold_turn(out: &mut [u8], s: &[u8], r: usize, w: usize, notes: &mut [u16], k: usize) -> Cursor
    requires { Busy s.now out.old notes.old r w k }
    ensures { Turns s.now out.old notes.old r w k out.new notes.new result.read result.written result.top }
{
    let x = usize::from(notes[k]);
    if x == 0 {
        return unfold_node(out, s, r, w, notes, k);
    }
    // The operand of the eventually or always at a was unfolded: then the whole, which has just been read, under next.
    if x < 2 * NODES_ROOM {
        let a = x - NODES_ROOM;
        let v = put_next(out, notes, w, s, a, r - a);
        return Cursor {
            read: r,
            written: v,
            top: k + 1,
        };
    }
    // The right operand of the until at a was unfolded: then and, the left one, and what is below.
    if x < 3 * NODES_ROOM {
        let a = x - 2 * NODES_ROOM;
        let left = a + 1;
        put_join(out, notes, w, Kind::AND, k, 3 * NODES_ROOM + a);
        return Cursor {
            read: left,
            written: w + 1,
            top: k - 1,
        };
    }
    // Both operands of the until at a were unfolded: then the whole under next. What is read next stands behind it.
    let a = x - 3 * NODES_ROOM;
    let n = nodes::operand_end(&s[a..]);
    let v = put_next(out, notes, w, s, a, n);
    Cursor {
        read: a + n,
        written: v,
        top: k + 1,
    }
}

// The first node of the formula at r is unfolded, and its operands are to be.
fn unfold_node(out: &mut [u8], s: &[u8], r: usize, w: usize, notes: &mut [u16], k: usize) -> Cursor
    requires { BusyHere s.now out.old notes.old r w k }
    ensures { TurnsHere s.now out.old notes.old r w k out.new notes.new result.read result.written result.top }
{
    let b = s[r];
    let kind = Kind::from(b);
    match kind {
        Kind::Zero(_) => {
            put_plain(out, notes, w, b);
            Cursor {
                read: r + 1,
                written: w + 1,
                top: k + 1,
            }
        }
        Kind::One(o) => match o {
            // The operand is to be done where the node was.
            Unary::Not => {
                put_plain(out, notes, w, b);
                Cursor {
                    read: r + 1,
                    written: w + 1,
                    top: k,
                }
            }
            Unary::Next => {
                let n = nodes::operand_end(&s[r + 1..]);
                let v = put_next(out, notes, w, s, r + 1, n);
                Cursor {
                    read: r + 1 + n,
                    written: v,
                    top: k + 1,
                }
            }
            Unary::Ever(j) => {
                put_join(out, notes, w, u8::from(j), k, NODES_ROOM + r);
                Cursor {
                    read: r + 1,
                    written: w + 1,
                    top: k - 1,
                }
            }
        },
        Kind::Two(o) => match o {
            Binary::Joined(_) => {
                put_join(out, notes, w, b, k, 0);
                Cursor {
                    read: r + 1,
                    written: w + 1,
                    top: k - 1,
                }
            }
            // The right operand first.
            Binary::Until => {
                let n = nodes::operand_end(&s[r + 1..]);
                put_join(out, notes, w, Kind::OR, k, 2 * NODES_ROOM + r);
                Cursor {
                    read: r + 1 + n,
                    written: w + 1,
                    top: k - 1,
                }
            }
        },
        // No formula begins with such a byte.
        Kind::NoCode => Cursor {
            read: r,
            written: w,
            top: k,
        },
    }
}

// Puts a byte at w that begins no part that stays whole.
fn put_plain(out: &mut [u8], notes: &mut [u16], w: usize, b: u8)
    requires { (w < length out.old) × (w < length notes.old) }
    ensures { (out.new ≡ set out.old w b) × (notes.new ≡ set notes.old w 0) }
{
    out[w] = b;
    notes[w] = 0;
}

// Puts the join b at w. In place of what is to be done at k come its left operand, and then x.
fn put_join(out: &mut [u8], notes: &mut [u16], w: usize, b: u8, k: usize, x: usize)
    requires { (w < length out.old) × (w < length notes.old) × (0 < k) × (k < length notes.old) × (x < 65536) }
    ensures { (out.new ≡ set out.old w b) × (notes.new ≡ set (set (set notes.old w 0) k x) (k - 1) 0) }
{
    put_plain(out, notes, w, b);
    notes[k] = buffers::narrow(x);
    notes[k - 1] = 0;
}

// Puts next and n bytes of s from a on, which stay whole, at w. Answers where they end.
fn put_next(out: &mut [u8], notes: &mut [u16], w: usize, s: &[u8], a: usize, n: usize) -> usize
    requires { (w + n < length out.old) × (w + n < length notes.old) × (a + n ≤ length s.now) × (n < 65535) }
    ensures { (result ≡ w + 1 + n) × (out.new ≡ take w out.old ++ ((unary_code Next ∷ take n (drop a s.now)) ++ drop (w + 1 + n) out.old)) × (notes.new ≡ set notes.old (w + n) (n + 1)) }
{
    out[w] = Kind::NEXT;
    buffers::put(out, w + 1, s, a, n);
    notes[w + n] = buffers::narrow(n + 1);
    w + 1 + n
}
