// The outline of a formula that is to be resolved: which of its parts stay whole, noted beside their last bytes. A next's operand is
// kept as it stands, and so is a temporal operator; nothing in them is resolved. A loop from the last byte to the first meets such a
// part at its end, so that is where its length is noted.
#![tactic(auto)]

ghost use Rattle.std.specs.Prelude.{◌≡◌};
ghost use Rattle.outlining.specs.Outlined.{whole_kind, Outlinable, Outlines};

use kinds::{Binary, Kind, Unary};

// The most nodes of a small formula, which has a small array of notes: a large one is filled each time that it is made. What notes hold
// at first does not matter. Whoever makes an array of them fills it with ones, since zeros would be written by a call of the C library.
pub const SMALL_NODES: usize = 128;

// Whether a node of kind k stays as it stands: next, whose operand does, and the temporal operators.
pub fn stays_whole(k: Kind) -> bool
    ensures { result ≡ whole_kind k }
{
    matches!(
        k,
        Kind::One(Unary::Next | Unary::Ever(_)) | Kind::Two(Binary::Until)
    )
}

// Notes beside the last byte of each outermost part that stays whole how long it is, and 0 beside every other byte outside them.
pub fn outline(s: &[u8], notes: &mut [u16])
    requires { Outlinable s.now notes.old }
    ensures { Outlines s.now notes.new }
{
    let n = s.len();
    let mut i = 0;
    // A `while`, since a part that stays whole is gone over in one turn.
    while i < n {
        if stays_whole(Kind::from(s[i])) {
            let m = nodes::operand_end(&s[i..]);
            i += m;
            notes[i - 1] = buffers::narrow(m);
        } else {
            notes[i] = 0;
            i += 1;
        }
    }
}
