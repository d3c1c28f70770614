// What the programs share: how bytes are taken from the input, the turns that a program makes of them, and how lines are written.
#![tactic(auto)]

pub mod input;
pub mod output;
pub mod turns;

ghost use Rattle.std.specs.Prelude.{◌≡◌};
ghost use Rattle.programs.specs.Going.{goes_on};

use answers::Verdict;

// Whether a watch goes on behind this verdict.
pub fn goes_on(verdict: Verdict) -> bool
    ensures { result ≡ goes_on verdict }
{
    matches!(verdict, Verdict::Pending)
}
