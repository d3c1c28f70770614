// The results of a loop that folds from the last byte to the first. Their bytes stand one behind the other at the end of p, the one read
// last lowest; a constant has no bytes there. Of each is noted, one behind the other at the end of the notes, the constant that it is,
// or else one more than its length. So to leave out an operand is to leave its bytes behind, and no result is ever moved.
ghost use Rattle.std.specs.Prelude.{◌≡◌, ◌<◌, ◌≤◌, length};
ghost use Rattle.kinds.specs.declared.Leaf.TheVariants.{Const};
ghost use Rattle.kinds.specs.declared.Binary.TheVariants as binary;
ghost use Rattle.kinds.specs.Kinds.{leaf_code, binary_code};
ghost use Rattle.ltl.specs.Progression as progression;
ghost use Rattle.folding.specs.Results.{note_length, MakesConstant, FoldsLeaf, OneAsk, FoldsOne, TwoAsk, FoldsTwo, PutsConstant};

use kinds::{Join, Kind, Unary};

// How many bytes stand of a result with this note: of a constant none.
fn note_length(n: u16) -> usize
    ensures { result ≡ note_length n }
{
    usize::from(n.saturating_sub(1))
}

// A result of one node with the byte c, below the others.
pub fn fold_leaf(c: u8, p: &mut [u8], notes: &mut [u16], w: usize, t: usize) -> usize
    requires { (0 < w) × (w ≤ length p.old) × (0 < t) × (t ≤ length notes.old) }
    ensures { FoldsLeaf c p.old notes.old w t p.new notes.new result }
{
    let at = t - 1;
    if c < 2 {
        notes[at] = u16::from(c);
        return w;
    }
    let v = w - 1;
    p[v] = c;
    notes[at] = 2;
    v
}

// What the operator makes of the constant n: not the other one, next and the temporal operators the same.
fn of_constant(o: Unary, n: u16) -> u16
    requires { n < 2 }
    ensures { MakesConstant o n result }
{
    match o {
        Unary::Not => 1 - n,
        Unary::Next | Unary::Ever(_) => n,
    }
}

// The operator o, with the byte c, over the lowest result.
#[tactic(auto, using(crate::proofs::Made::room))]
pub fn fold_one(o: Unary, c: u8, p: &mut [u8], notes: &mut [u16], w: usize, t: usize) -> usize
    requires { OneAsk p.old notes.old w t }
    ensures { FoldsOne o c p.old notes.old w t p.new notes.new result }
{
    let n = notes[t];
    if n < 2 {
        notes[t] = of_constant(o, n);
        return w;
    }
    let v = w - 1;
    p[v] = c;
    notes[t] = n + 1;
    v
}

// The constant that settles a join, as a note.
fn deciding(j: Join) -> u16
    ensures { result ≡ leaf_code (Const (progression.deciding j)) }
{
    match j {
        Join::And => 0,
        Join::Or => 1,
    }
}

// The join j, with the byte c, over the two lowest results.
#[tactic(auto, using(crate::proofs::Pairs::room))]
pub fn fold_join(j: Join, c: u8, p: &mut [u8], notes: &mut [u16], w: usize, t: usize) -> usize
    requires { TwoAsk p.old notes.old w t }
    ensures { FoldsTwo (binary.Joined j) c p.old notes.old w t p.new notes.new result }
{
    let d = deciding(j);
    let l = notes[t];
    let r = notes[t + 1];
    if l == d {
        notes[t + 1] = d;
        return w + note_length(r);
    }
    if r == d {
        return w + note_length(l);
    }
    if l < 2 {
        return w;
    }
    if r < 2 {
        notes[t + 1] = l;
        return w;
    }
    let v = w - 1;
    p[v] = c;
    notes[t + 1] = l + r;
    v
}

// Until over the two lowest results: its right operand where that is a constant, or the left one is false.
#[tactic(auto, using(crate::proofs::Pairs::room))]
pub fn fold_until(p: &mut [u8], notes: &mut [u16], w: usize, t: usize) -> usize
    requires { TwoAsk p.old notes.old w t }
    ensures { FoldsTwo binary.Until (binary_code binary.Until) p.old notes.old w t p.new notes.new result }
{
    let l = notes[t];
    let r = notes[t + 1];
    if r < 2 {
        return w + note_length(l);
    }
    if l == 0 {
        return w;
    }
    if l < 2 {
        p[w - 1] = Kind::TRUE;
        p[w - 2] = Kind::UNTIL;
        notes[t + 1] = r + 2;
        return w - 2;
    }
    let v = w - 1;
    p[v] = Kind::UNTIL;
    notes[t + 1] = l + r;
    v
}

// The byte of a result that is the constant n, put where it has none yet; another result stays.
pub fn put_constant(n: u16, p: &mut [u8], w: usize) -> usize
    requires { (n < 2 → 0 < w) × (w ≤ length p.old) }
    ensures { PutsConstant n p.old w p.new result }
{
    if n < 2 {
        let v = w - 1;
        p[v] = n as u8;
        return v;
    }
    w
}
