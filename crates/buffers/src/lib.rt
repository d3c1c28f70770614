// Runs of bytes, of masks and of notes, moved, cleared and compared in place.
#![tactic(auto)]

ghost use Rattle.std.specs.Prelude.{◌≡◌, ◌++◌, ◌+◌, ◌<◌, ◌≤◌, length, take, drop, replicate};
ghost use Rattle.buffers.specs.Compares.{Compares};

// A number as it is noted beside a byte, a place or a length.
pub fn narrow(x: usize) -> u16
    requires { x < 65536 }
    ensures { result ≡ x }
{
    x as u16
}

// Copies s to the front of `to`. A loop, as in the two below: compilers turn it into moves of many bytes at a time, or into memcpy where
// they see that the two cannot overlap. The slice's own copy calls memmove, which the archive for C would need from outside too.
pub fn copy(to: &mut [u8], s: &[u8])
    requires { length s.now ≤ length to.old }
    ensures { to.new ≡ s.now ++ drop (length s.now) to.old }
{
    for i in 0..s.len() {
        to[i] = s[i];
    }
}

// Copies s, of the same length, over `to`.
pub fn copy_masks(to: &mut [u64], s: &[u64])
    requires { length s.now ≡ length to.old }
    ensures { to.new ≡ s.now }
{
    for i in 0..s.len() {
        to[i] = s[i];
    }
}

// Copies n bytes of s, from `from` on, to the place `to` of p; all else stays.
pub fn put(p: &mut [u8], to: usize, s: &[u8], from: usize, n: usize)
    requires { (to + n ≤ length p.old) × (from + n ≤ length s.now) }
    ensures { p.new ≡ take to p.old ++ (take n (drop from s.now) ++ drop (to + n) p.old) }
{
    for i in 0..n {
        p[to + i] = s[from + i];
    }
}

// Moves eight bytes from `from` to `to`. All are read before one is stored, so that the two runs may overlap.
fn move_eight(p: &mut [u8], from: usize, to: usize)
    requires { (from + 8 ≤ length p.old) × (to + 8 ≤ length p.old) }
    ensures { p.new ≡ take to p.old ++ (take 8 (drop from p.old) ++ drop (to + 8) p.old) }
{
    let mut eight = [0u8; 8];
    eight.copy_from_slice(&p[from..from + 8]);
    p[to..to + 8].copy_from_slice(&eight);
}

// Moves n bytes from `from` to the front of p, from the first one to the last; what stands behind them stays.
pub fn slide(p: &mut [u8], from: usize, n: usize)
    requires { from + n ≤ length p.old }
    ensures { p.new ≡ take n (drop from p.old) ++ drop n p.old }
{
    if from == 0 {
        return;
    }
    let mut moved: usize = 0;
    // Eight a turn: `copy_within` takes a fifth longer for the few bytes that most formulas have.
    while 8 <= n - moved {
        move_eight(p, from + moved, moved);
        moved += 8;
    }
    for i in moved..n {
        p[i] = p[from + i];
    }
}

// Moves n bytes from `from` up by `up`, from the last one to the first; what stands below and behind them stays.
pub fn raise(p: &mut [u8], from: usize, n: usize, up: usize)
    requires { from + n + up ≤ length p.old }
    ensures { p.new ≡ take (from + up) p.old ++ (take n (drop from p.old) ++ drop (from + up + n) p.old) }
{
    if up == 0 {
        return;
    }
    let mut left = n;
    // Eight a turn, as in slide: here `copy_within` takes up to a half longer.
    while 8 <= left {
        left -= 8;
        move_eight(p, from + left, from + up + left);
    }
    for i in (0..left).rev() {
        p[from + up + i] = p[from + i];
    }
}

// Moves n notes from `from` up by `up`, as raise does with bytes.
pub fn raise_notes(notes: &mut [u16], from: usize, n: usize, up: usize)
    requires { from + n + up ≤ length notes.old }
    ensures { notes.new ≡ take (from + up) notes.old ++ (take n (drop from notes.old) ++ drop (from + up + n) notes.old) }
{
    // A loop: `copy_within` calls memmove too.
    for i in (0..n).rev() {
        notes[from + up + i] = notes[from + i];
    }
}

// Sets n notes from `from` on to 0. A loop, because `fill` stores the last one apart and takes half as long again for a few notes.
pub fn clear_notes(notes: &mut [u16], from: usize, n: usize)
    requires { from + n ≤ length notes.old }
    ensures { notes.new ≡ take from notes.old ++ (replicate n 0 ++ drop (from + n) notes.old) }
{
    for note in &mut notes[from..from + n] {
        *note = 0;
    }
}

// Sets every byte of p to 0.
pub fn clear(p: &mut [u8])
    ensures { p.new ≡ replicate (length p.old) 0 }
{
    p.fill(0);
}

// Whether the same n bytes stand at a and at b. The first and the last are compared before the others: most runs that differ do so there.
pub fn same(p: &[u8], a: usize, b: usize, n: usize) -> bool
    requires { (0 < n) × (a + n ≤ length p.now) × (b + n ≤ length p.now) }
    ensures { Compares p.now a b n result }
{
    let l = n - 1;
    if p[a] != p[b] || p[a + l] != p[b + l] {
        return false;
    }
    n <= 2 || p[a + 1..a + l] == p[b + 1..b + l]
}
