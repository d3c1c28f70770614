// Folding the constants of a formula in one loop from its last byte to its first. The results of what was read stand at the end of
// another buffer, and what is known of each is noted apart (module `results`), so that every byte is read once and nothing is moved.
#![tactic(auto)]

mod results;

ghost use Rattle.std.specs.Prelude.{◌≡◌, ◌≤◌};
ghost use Rattle.limits.specs.Limits.{nodes_room};
ghost use Rattle.folding.specs.Bare.{bare_byte, bare_from, lowest_from};
ghost use Rattle.folding.specs.Folds.{FoldNodeAsk, FoldsNode, FoldAsk, FoldNotedAsk, Folds};

use kinds::{Binary, Kind};
use limits::NODES_ROOM;
use outlining::SMALL_NODES;
use results::{fold_join, fold_leaf, fold_one, fold_until, put_constant};

// Where the lowest result begins, and where its note stands.
#[derive(Clone, Copy)]
pub struct Lows {
    pub w: usize,
    pub t: usize,
}

// Whether a byte behind `last` is no constant's, or true's behind until's.
#[tactic(auto, unfolding(crate::specs::Bare::bare_byte, lists::specs::Tests::both, lists::specs::Tests::either))]
fn bare_byte(last: u8, b: u8) -> bool
    ensures { result ≡ bare_byte last b }
{
    2 <= b || last == Kind::UNTIL && b == Kind::TRUE
}

// The lowest byte, 255 where there is none. A loop without a way out, which compilers turn into one over many bytes at a time.
fn lowest(s: &[u8]) -> u8
    ensures { result ≡ lowest_from 255 s.now }
{
    let mut low = u8::MAX;
    for &b in s {
        low = low.min(b);
    }
    low
}

// Whether every byte is such a one.
#[tactic(auto, unfolding(lists::specs::Tests::both))]
fn bare_bytes(s: &[u8]) -> bool
    ensures { result ≡ bare_from 0 s.now }
{
    let mut last = 0;
    for &b in s {
        if !bare_byte(last, b) {
            return false;
        }
        last = b;
    }
    true
}

// The same: then the formula is folded as it stands. Most rules have no constant, and the lowest byte tells that soonest.
pub fn is_bare(s: &[u8]) -> bool
    ensures { result ≡ bare_from 0 s.now }
{
    2 <= lowest(s) || bare_bytes(s)
}

// The node with the byte c, whose operands' results are the lowest, becomes a result.
fn fold_node(c: u8, p: &mut [u8], notes: &mut [u16], w: usize, t: usize) -> Lows
    requires { FoldNodeAsk c p.old notes.old w t }
    ensures { FoldsNode c p.old notes.old w t p.new notes.new result.w result.t }
{
    let k = Kind::from(c);
    match k {
        Kind::Zero(_) => Lows {
            w: fold_leaf(c, p, notes, w, t),
            t: t - 1,
        },
        Kind::One(o) => Lows {
            w: fold_one(o, c, p, notes, w, t),
            t,
        },
        Kind::Two(o) => match o {
            Binary::Joined(j) => Lows {
                w: fold_join(j, c, p, notes, w, t),
                t: t + 1,
            },
            Binary::Until => Lows {
                w: fold_until(p, notes, w, t),
                t: t + 1,
            },
        },
        // No formula begins with such a byte.
        Kind::NoCode => Lows { w, t },
    }
}

// Folds the formula s into p, with notes for its results.
fn fold_noted(s: &[u8], p: &mut [u8], notes: &mut [u16]) -> usize
    requires { FoldNotedAsk s.now p.old notes.old }
    ensures { Folds s.now p.new result }
{
    let mut low = Lows {
        w: p.len(),
        t: notes.len(),
    };
    for i in (0..s.len()).rev() {
        low = fold_node(s[i], p, notes, low.w, low.t);
    }
    put_constant(notes[low.t], p, low.w)
}

// The same with notes of its own, N of them. Each is filled at every call, so a small formula has few.
fn fold_with<const N: usize>(s: &[u8], p: &mut [u8]) -> usize
    requires asks { FoldAsk N s.now p.old }
    requires most { N ≤ nodes_room }
    ensures { Folds s.now p.new result }
{
    let mut notes = [1u16; N];
    fold_noted(s, p, &mut notes)
}

// Folds the formula s into p. What it becomes stands at the end of p, from the answer on.
pub fn fold(s: &[u8], p: &mut [u8]) -> usize
    requires { FoldAsk nodes_room s.now p.old }
    ensures { Folds s.now p.new result }
{
    if s.len() <= SMALL_NODES {
        fold_with::<SMALL_NODES>(s, p)
    } else {
        fold_with::<NODES_ROOM>(s, p)
    }
}
