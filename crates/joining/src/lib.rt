// The two lowest results joined, by the member rule. The result stands where the two stood, at their end: to drop the left one is to
// leave it behind, to keep both is to put the operator below them.
#![tactic(auto)]

mod members;

ghost use Rattle.joining.specs.Joins.{JoinAsk, JoinsPair, OpenAsk, OpenJoins, KeepAsk, Keeps};

use members::is_member;

// Joins the results at w by op, which the constant `decide` settles.
pub fn join(p: &mut [u8], notes: &mut [u16], w: usize, op: u8, decide: u8) -> usize
    requires { JoinAsk p.old notes.old w op decide }
    ensures { JoinsPair p.old notes.old w op decide p.new notes.new result }
{
    let l = usize::from(notes[w]);
    let m = w + l;
    let r = usize::from(notes[m]);
    let first = p[w];
    if first == decide {
        return stacking::push(decide, p, notes, m + r);
    }
    if first < 2 {
        return m;
    }
    if p[m] == decide {
        return m;
    }
    join_open(p, notes, w, op, l, r)
}

// The same where the left one, of l bytes, is no constant, and the right one, of r bytes, does not settle it.
fn join_open(p: &mut [u8], notes: &mut [u16], w: usize, op: u8, l: usize, r: usize) -> usize
    requires { OpenAsk p.old notes.old w op l r }
    ensures { OpenJoins p.old notes.old w op l r p.new notes.new result }
{
    let right = w + l;
    if p[right] < 2 {
        return keep_left(p, notes, w, l);
    }
    if is_member(p, notes, op, w, l, r) {
        return right;
    }
    let v = w - 1;
    p[v] = op;
    notes[v] = buffers::narrow(1 + l + r);
    notes[w] = buffers::narrow(l);
    v
}

// The left one, of l bytes, moved over a right one of one byte that says nothing.
fn keep_left(p: &mut [u8], notes: &mut [u16], w: usize, l: usize) -> usize
    requires { KeepAsk p.old notes.old w l }
    ensures { Keeps p.old notes.old w l p.new notes.new result }
{
    let first = p[w];
    let v = w + 1;
    buffers::raise(p, w, l, 1);
    if stacking::is_join(first) {
        buffers::raise_notes(notes, w, l, 1);
        return v;
    }
    notes[v] = buffers::narrow(l);
    v
}
