// The member test over bytes. The lengths of left operands are noted beside the bytes, so that a long one is stepped over; where one is
// not known it is looked for once and noted.
ghost use Rattle.std.specs.Prelude.{◌+◌, ◌<◌, ◌≤◌, length};
ghost use Rattle.joining.specs.Members.{SameAt, LeftAsk, LeftOf, Comparable, IsMember};

// Whether the formula that stands from `at` to `end` is the one of l bytes at w. No formula's bytes begin another's, so comparing
// bytes compares formulas.
fn is_same(p: &[u8], w: usize, l: usize, at: usize, end: usize) -> bool
    requires { (0 < l) × (w + l ≤ length p.now) × (at ≤ end) × (end ≤ length p.now) }
    ensures { SameAt p.now w l at end result }
{
    end - at == l && buffers::same(p, w, at, l)
}

// The length of the left operand of what is joined at `at`.
fn left_of(p: &[u8], notes: &mut [u16], at: usize) -> usize
    requires { LeftAsk p.now notes.old at }
    ensures { LeftOf p.now notes.old at notes.new result }
{
    let left = at + 1;
    let known = usize::from(notes[left]);
    if 0 < known {
        return known;
    }
    let n = nodes::operand_end(&p[left..]);
    notes[left] = buffers::narrow(n);
    n
}

// Whether the formula of l bytes at w is a member by the join op of the one of r bytes behind it: that one itself and, where it is
// joined so, its left operand and the members of its right.
pub fn is_member(p: &[u8], notes: &mut [u16], op: u8, w: usize, l: usize, r: usize) -> bool
    requires { Comparable p.now notes.old w l r op }
    ensures { IsMember p.now notes.old w l r op notes.new result }
{
    let mut at = w + l;
    let end = at + r;
    // A `while`, since each turn goes on to the right operand, which begins behind a left one of any length.
    while p[at] == op {
        // A formula that is not longer has no other member that the one at w could be.
        if end - at <= l {
            return is_same(p, w, l, at, end);
        }
        let n = left_of(p, notes, at);
        let right = at + 1 + n;
        if is_same(p, w, l, at + 1, right) {
            return true;
        }
        at = right;
    }
    is_same(p, w, l, at, end)
}
