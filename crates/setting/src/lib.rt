// The nodes that tokens spell, written with new numbers in the place holders: a token is a node's code, or next and a text that is copied.
#![tactic(auto)]

ghost use Rattle.std.specs.Prelude.{◌≡◌, ◌∷◌, ◌++◌, ◌≤◌, ◌<◌, length, drop};
ghost use Rattle.kinds.specs.Kinds.{unary_code};
ghost use Rattle.kinds.specs.declared.Unary.TheVariants.{Next};
ghost use Rattle.setting.specs.Setting.{text_at, put_of, TextInside, TokenAsk, SetAsk, Sets};

use choices::marks;
use kinds::Kind;

// Where the tokens of place holders begin, and those of texts.
const HOLDERS: u16 = 128;

const TEXTS: u16 = 256;

// Writes next and the text at a place.
fn put_text(at: usize, bytes: &[u8], marks: &[u32], out: &mut [u8]) -> usize
    requires { TextInside bytes.now marks.now at × (length (text_at bytes.now marks.now at) < length out.old) }
    ensures { (result ≡ length (unary_code Next ∷ text_at bytes.now marks.now at)) × (out.new ≡ (unary_code Next ∷ text_at bytes.now marks.now at) ++ drop result out.old) }
{
    let n = marks::length_of(marks[at]);
    out[0] = Kind::NEXT;
    buffers::copy(&mut out[1..], &bytes[at..at + n]);
    1 + n
}

// Writes the nodes of one token.
fn put_token(t: u16, bytes: &[u8], marks: &[u32], numbers: &[u8], out: &mut [u8]) -> usize
    requires { TokenAsk bytes.now marks.now numbers.now t × (length (put_of bytes.now marks.now numbers.now t) ≤ length out.old) }
    ensures { (result ≡ length (put_of bytes.now marks.now numbers.now t)) × (out.new ≡ put_of bytes.now marks.now numbers.now t ++ drop result out.old) }
{
    if t < HOLDERS {
        out[0] = t as u8;
        return 1;
    }
    if t < TEXTS {
        out[0] = Kind::HOLD + numbers[(t - HOLDERS) as usize];
        return 1;
    }
    put_text((t - TEXTS) as usize, bytes, marks, out)
}

// Writes the nodes that the tokens spell, the place holders by their new numbers, and answers how many.
pub fn put_nodes(
    tokens: &[u16],
    bytes: &[u8],
    marks: &[u32],
    numbers: &[u8],
    out: &mut [u8],
) -> usize
    requires { SetAsk bytes.now marks.now numbers.now tokens.now (length out.old) }
    ensures { Sets bytes.now marks.now numbers.now tokens.now out.old out.new result }
{
    let mut w = 0;
    for t in tokens {
        w += put_token(*t, bytes, marks, numbers, &mut out[w..]);
    }
    w
}
