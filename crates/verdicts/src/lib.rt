// The verdict that a formula is, read from its bytes: no other formula's bytes begin as a constant does.
#![tactic(auto)]

ghost use Rattle.std.specs.Prelude.{◌≡◌};
ghost use Rattle.verdicts.specs.Verdicts.{verdict_byte};

use answers::Verdict;

// The verdict of the formula whose first byte is b.
pub fn verdict(b: u8) -> Verdict
    ensures { result ≡ verdict_byte b }
{
    if b == 0 {
        return Verdict::False;
    }
    if b == 1 {
        return Verdict::True;
    }
    Verdict::Pending
}
