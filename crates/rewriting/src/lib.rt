// A formula rewritten in its own bytes as what it becomes: resolved there, moved to the front, and zeros behind it. The notes beside the
// bytes are local: a small formula has a small array of them.
#![tactic(auto)]

ghost use Rattle.std.specs.Prelude.{◌≤◌};
ghost use Rattle.limits.specs.Limits.{nodes_room};
ghost use Rattle.sweeping.specs.Passes.{Outlining};
ghost use Rattle.rewriting.specs.Rewritten.{Rewritable, RewritableIn, Fronted, Rewritten};

use limits::NODES_ROOM;
use outlining::SMALL_NODES;
use resolving::Seen;

// Resolves the formula that p is, with its outline beside it, and moves what it becomes to the front. Answers its length.
pub fn to_front(p: &mut [u8], notes: &mut [u16], seen: Seen) -> usize
    requires { Outlining p.old notes.old }
    ensures { Fronted seen p.old p.new result }
{
    let w = sweeping::sweep(p, notes, seen);
    let n = p.len() - w;
    buffers::slide(p, w, n);
    n
}

// The same of a formula without its outline.
fn rewrite_noted(p: &mut [u8], notes: &mut [u16], seen: Seen) -> usize
    requires { RewritableIn p.old notes.old }
    ensures { Fronted seen p.old p.new result }
{
    outlining::outline(p, notes);
    to_front(p, notes, seen)
}

// The same with notes of its own, N of them.
fn rewrite_with<const N: usize>(p: &mut [u8], seen: Seen) -> usize
    requires asks { Rewritable N p.old }
    requires most { N ≤ nodes_room }
    ensures { Fronted seen p.old p.new result }
{
    let mut notes = [1u16; N];
    rewrite_noted(p, &mut notes, seen)
}

// With as many as are needed: each is filled at every call.
fn rewrite_any(p: &mut [u8], seen: Seen) -> usize
    requires { Rewritable nodes_room p.old }
    ensures { Fronted seen p.old p.new result }
{
    if p.len() <= SMALL_NODES {
        rewrite_with::<SMALL_NODES>(p, seen)
    } else {
        rewrite_with::<NODES_ROOM>(p, seen)
    }
}

// Rewrites the formula that p is. Answers the result's length.
pub fn rewrite(p: &mut [u8], seen: Seen) -> usize
    requires { Rewritable nodes_room p.old }
    ensures { Rewritten seen p.old p.new result }
{
    let n = rewrite_any(p, seen);
    buffers::clear(&mut p[n..]);
    n
}
