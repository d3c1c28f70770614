// The board that a part is chosen for, as a number: where that tells, by the choices of the two parts that it is made of, so that
// sixteen sums need not be compared.
ghost use Rattle.std.specs.Prelude.{◌<◌};
ghost use Rattle.scores.specs.Scored.{Few};
ghost use Rattle.choices.specs.Marks.{choice_room};
ghost use Rattle.choices.specs.Picked.{Together};

use scores::{STAYS, Scores};

// The board that two parts choose together, whose own choices are a and b: the one that both choose, or that of one of them where the
// other one has no scores. Else their sums are looked at.
pub fn together(a: u8, b: u8, sums: Scores) -> u8
    requires { (a < choice_room) × (b < choice_room) × Few sums.counts }
    ensures { (result < choice_room) × Together a b sums.counts result }
{
    if a == b {
        return a;
    }
    if b == STAYS {
        return a;
    }
    if a == STAYS {
        return b;
    }
    sums.choice_or_stays()
}
