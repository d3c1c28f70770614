// Where a formula in prefix bytes ends.
#![tactic(auto)]

ghost use Rattle.nodes.specs.Begins.{Begins, Ends};

use kinds::Kind;

// The length of the formula that s begins with: one pass, with a count of the operands still owed.
pub fn operand_end(s: &[u8]) -> usize
    requires { Begins s.now }
    ensures { Ends s.now result }
{
    let mut owed: usize = 1;
    let mut i: usize = 0;
    // A `while`: it ends where nothing is owed, which is known to come before the bytes end. A `for` would ask for the end besides.
    while 0 < owed {
        owed = owed - 1 + Kind::operands(Kind::from(s[i]));
        i += 1;
    }
    i
}
