// Rules as people type them: what a byte of a text is, and how tightly an infix sign binds. The grammar, the place of a refusal and the
// print are definitions in specs/.
#![tactic(auto)]

ghost use Rattle.std.specs.Prelude.{◌≡◌};
ghost use Rattle.text.specs.Signs.{sign_of, digit_of, level};

use kinds::{Binary, Join, Unary};

// The level of a whole text, looser than every infix sign.
pub const LOOSEST: u8 = 3;

// How tightly an infix sign binds.
pub fn level_of(o: Binary) -> u8
    ensures { result ≡ level o }
{
    match o {
        Binary::Until => 0,
        Binary::Joined(j) => match j {
            Join::And => 1,
            Join::Or => 2,
        },
    }
}

// A blank, a sign in front of its operand, one between its operands, a bracket, the first letter of a constant, of a proposition, a
// digit, or none of these.
#[derive(Clone, Copy, Debug, PartialEq, Eq)]
pub enum Sign {
    Blank,
    Prefix(Unary),
    Infix(Binary),
    Open,
    Close,
    Word(bool),
    Letter,
    Digit(u8),
    Other,
}

impl From<u8> for Sign {
    ghost from_gives = { λ b sign. sign ≡ sign_of b };

    #[tactic(auto, unfolding(crate::specs::Signs::sign_of, lists::specs::Tests::pick))]
    fn from(b: u8) -> Sign {
        match b {
            b' ' | b'\t' | b'\n' | b'\r' => Sign::Blank,
            b'!' => Sign::Prefix(Unary::Not),
            b'X' => Sign::Prefix(Unary::Next),
            b'F' => Sign::Prefix(Unary::Ever(Join::Or)),
            b'G' => Sign::Prefix(Unary::Ever(Join::And)),
            b'U' => Sign::Infix(Binary::Until),
            b'&' => Sign::Infix(Binary::Joined(Join::And)),
            b'|' => Sign::Infix(Binary::Joined(Join::Or)),
            b'(' => Sign::Open,
            b')' => Sign::Close,
            b't' => Sign::Word(true),
            b'f' => Sign::Word(false),
            b'p' => Sign::Letter,
            _ => Sign::digit_of(b),
        }
    }
}

impl Sign {
    // A byte that is none of the signs by name.
    fn digit_of(b: u8) -> Sign
        ensures { result ≡ digit_of b }
    {
        if b < 48 {
            return Sign::Other;
        }
        if b < 58 {
            return Sign::Digit(b - 48);
        }
        Sign::Other
    }
}
