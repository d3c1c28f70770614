// Bytes as they are shown to people, each in one column, so that a mark below stands right: a byte that does not print is shown as `?`.
ghost use Rattle.std.specs.Prelude.{◌≡◌, ℕ, List, ◌++◌, map, ◌+◌, ◌≤◌, length};
ghost use Rattle.std.specs.List.{AllZip};
ghost use Rattle.pointing.specs.Columns.{shown_byte, under_byte};

use lines::TextBuffer;

const TAB: u8 = b'\t';

// A byte as it is shown. A carriage return, which ends a line in some files, is a blank.
#[tactic(auto, unfolding(crate::specs::Columns::shown_byte, lists::specs::Tests::pick))]
fn shown(c: u8) -> u8
    ensures { result ≡ shown_byte c }
{
    match c {
        TAB | 32..=126 => c,
        b'\r' => b' ',
        _ => b'?',
    }
}

// What stands below it in a line with a mark: a tab below a tab, and else a blank.
#[tactic(auto, unfolding(crate::specs::Columns::under_byte, lists::specs::Tests::pick))]
fn under(c: u8) -> u8
    ensures { result ≡ under_byte c }
{
    if c == TAB { c } else { b' ' }
}

// Puts bytes, each as `of` gives it.
fn put_each<const N: usize, F: Fn(u8) -> u8>(out: &mut TextBuffer<N>, bytes: &[u8], of: F)
    requires room { length out.old + length bytes.now ≤ N }
    requires callable { F.IsAlwaysCallable of }
    ensures { (put : List ℕ) × AllZip (F.post of) bytes.now put × (out.new ≡ out.old ++ put) }
{
    for c in bytes {
        out.put(&[of(*c)]);
    }
}

// Puts bytes as they are shown.
pub fn put_shown<const N: usize>(out: &mut TextBuffer<N>, bytes: &[u8])
    requires { length out.old + length bytes.now ≤ N }
    ensures { out.new ≡ out.old ++ map shown_byte bytes.now }
{
    put_each(out, bytes, shown);
}

// Puts what stands below them.
pub fn put_under<const N: usize>(out: &mut TextBuffer<N>, bytes: &[u8])
    requires { length out.old + length bytes.now ≤ N }
    ensures { out.new ≡ out.old ++ map under_byte bytes.now }
{
    put_each(out, bytes, under);
}
