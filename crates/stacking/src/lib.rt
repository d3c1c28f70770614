// The results of the formulas that were read, from the last byte on: they stand one behind the other at the end of the bytes, the one
// read last lowest, and beside their bytes is noted how long they are. Here is what the member rule does not concern: a result of one
// byte more, and not of the lowest one.
#![tactic(auto)]

ghost use Rattle.std.specs.Prelude.{◌≡◌, ◌+◌, ◌-◌, ◌<◌, ◌≤◌, length, set};
ghost use Rattle.stacking.specs.Stacks.{Negatable, Negates, JoinByte};

use kinds::Kind;

// A result of one byte, below the one at w.
pub fn push(b: u8, p: &mut [u8], notes: &mut [u16], w: usize) -> usize
    requires { (0 < w) × (w ≤ length p.old) × (w ≤ length notes.old) }
    ensures { (result ≡ w - 1) × (p.new ≡ set p.old (w - 1) b) × (notes.new ≡ set notes.old (w - 1) 1) }
{
    let v = w - 1;
    p[v] = b;
    notes[v] = 1;
    v
}

// Not of the result at w: of a constant the other constant.
pub fn negate(p: &mut [u8], notes: &mut [u16], w: usize) -> usize
    requires { Negatable p.old notes.old w }
    ensures { Negates p.old notes.old w p.new notes.new result }
{
    let a = p[w];
    if a < 2 {
        p[w] = 1 - a;
        return w;
    }
    let n = usize::from(notes[w]);
    let v = w - 1;
    p[v] = Kind::NOT;
    notes[v] = buffers::narrow(n + 1);
    v
}

// Whether a formula that begins with the byte b is two joined by and, or by or.
pub fn is_join(b: u8) -> bool
    ensures { JoinByte b result }
{
    b == Kind::AND || b == Kind::OR
}
