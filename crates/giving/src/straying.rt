// Whether a slot that was just stepped is a lone proposition that its board does not have. A state that was handed in can come to
// that, and fails its check then. No other formula's bytes begin as a proposition does.
ghost use Rattle.std.specs.Prelude.{◌≡◌};
ghost use Rattle.state.specs.Fields.{mask_in, board_of_in};
ghost use Rattle.state.specs.Clauses.{lone_other};
ghost use Rattle.state.specs.Bytes.{formula_at};
ghost use Rattle.giving.specs.Stray.{SlotReads};

use kinds::{Kind, Leaf};
use state::Counts;

pub fn strays(s: &[u8], c: Counts, k: usize) -> bool
    requires { SlotReads s.now c k }
    ensures { result ≡ lone_other (mask_in s.now (board_of_in s.now k)) (formula_at s.now k) }
{
    let first = state::span_of(s, c, k).from;
    let kind = Kind::from(s[first]);
    match kind {
        Kind::Zero(a) => match a {
            Leaf::Const(_) => false,
            Leaf::Prop(i) => {
                let mask = state::mask_of(s, state::board_of(s, c, k) as usize);
                (mask >> i) % 2 != 1
            }
            Leaf::Hold(_) => false,
        },
        Kind::One(_) => false,
        Kind::Two(_) => false,
        Kind::NoCode => false,
    }
}
