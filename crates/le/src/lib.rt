// Little-endian numbers in a byte slice, once over the width. The calls of a fixed width need no proof of their own.
#![tactic(auto)]

ghost use Rattle.std.specs.Prelude.{◌≡◌, ◌++◌, ◌+◌, ◌-◌, ◌*◌, ◌<◌, ◌≤◌, ◌^◌, length, take, drop};
ghost use Rattle.lists.specs.Listed.{listed};
ghost use Rattle.le.specs.Le.{le, le_at};

// The number in the w bytes at `at`.
fn number_at(s: &[u8], at: usize, w: usize) -> u64
    requires { (at + w ≤ length s.now) × (w ≤ 8) }
    ensures { (result ≡ le_at s.now at w) × (result < 256 ^ w) }
{
    let mut v: u64 = 0;
    for i in (0..w).rev() {
        v = v * 256 + u64::from(s[at + i]);
    }
    v
}

// Puts v into the w bytes at `at`.
fn put_at(s: &mut [u8], at: usize, w: usize, v: u64)
    requires { at + w ≤ length s.old }
    ensures { s.new ≡ take at s.old ++ (le w v ++ drop (at + w) s.old) }
{
    let mut x = v;
    for k in 0..w {
        s[at + k] = (x % 256) as u8;
        x /= 256;
    }
}

pub fn u16_at(s: &[u8], at: usize) -> u16
    requires { at + 2 ≤ length s.now }
    ensures { result ≡ le_at s.now at 2 }
{
    number_at(s, at, 2) as u16
}

pub fn u32_at(s: &[u8], at: usize) -> u32
    requires { at + 4 ≤ length s.now }
    ensures { result ≡ le_at s.now at 4 }
{
    number_at(s, at, 4) as u32
}

pub fn u64_at(s: &[u8], at: usize) -> u64
    requires { at + 8 ≤ length s.now }
    ensures { result ≡ le_at s.now at 8 }
{
    number_at(s, at, 8)
}

// The first numbers of n rows of `step` bytes, the first row at `at`, to the front of `out`.
pub fn column(s: &[u8], at: usize, step: usize, out: &mut [u64], n: usize)
    requires { (8 ≤ step) × (at + step * n ≤ length s.now) × (n ≤ length out.old) }
    ensures { out.new ≡ listed (λ i. le_at s.now (at + step * i) 8) n ++ drop n out.old }
{
    for i in 0..n {
        out[i] = u64_at(s, at + step * i);
    }
}

pub fn put_u16(s: &mut [u8], at: usize, v: u16)
    requires { at + 2 ≤ length s.old }
    ensures { s.new ≡ take at s.old ++ (le 2 v ++ drop (at + 2) s.old) }
{
    put_at(s, at, 2, u64::from(v));
}

pub fn put_u32(s: &mut [u8], at: usize, v: u32)
    requires { at + 4 ≤ length s.old }
    ensures { s.new ≡ take at s.old ++ (le 4 v ++ drop (at + 4) s.old) }
{
    put_at(s, at, 4, u64::from(v));
}

pub fn put_u64(s: &mut [u8], at: usize, v: u64)
    requires { at + 8 ≤ length s.old }
    ensures { s.new ≡ take at s.old ++ (le 8 v ++ drop (at + 8) s.old) }
{
    put_at(s, at, 8, v);
}

// Seven numbers in a row, six of two bytes and one of four: the header of a rule file, and of a state.
pub fn put_header(s: &mut [u8], a: u16, b: u16, c: u16, d: u16, e: u16, f: u16, g: u32)
    requires { 16 ≤ length s.old }
    ensures { s.new ≡ (le 2 a ++ (le 2 b ++ (le 2 c ++ (le 2 d ++ (le 2 e ++ (le 2 f ++ le 4 g)))))) ++ drop 16 s.old }
{
    put_u16(s, 0, a);
    put_u16(s, 2, b);
    put_u16(s, 4, c);
    put_u16(s, 6, d);
    put_u16(s, 8, e);
    put_u16(s, 10, f);
    put_u32(s, 12, g);
}
