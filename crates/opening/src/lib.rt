// How a call on a state begins: the state check, whether the watch is finished, and the counts. Every call opens its state here.
#![tactic(auto)]

ghost use Rattle.std.specs.Prelude.{◌≡◌};
ghost use Rattle.state.specs.Calls.{finished_in};
ghost use Rattle.state.specs.Opened.{Opened};
ghost use Rattle.opening.specs.Opening.{Opens};

use state::Counts;

// What a state is found to be: none, a watch that is finished, or one that goes on. `ask` answers the last two and the other calls the
// last alone, so that neither is a failure for all.
#[derive(Clone, Copy)]
pub enum Opening {
    Broken,
    Finished(Counts),
    Going(Counts),
}

// One slot, not stepped, that is 0 or 1.
pub fn finished(s: &[u8], c: Counts) -> bool
    requires { Opened s.now c }
    ensures { result ≡ finished_in s.now }
{
    if c.slots != 1 {
        return false;
    }
    if state::mark_of(s, c, 0) != 0 {
        return false;
    }
    checking::is_constant(s, c, 0)
}

pub fn open(s: &[u8]) -> Opening
    ensures { Opens s.now result }
{
    if !checking::state_ok(s) {
        return Opening::Broken;
    }
    let c = state::counts_of(s);
    if finished(s, c) {
        return Opening::Finished(c);
    }
    Opening::Going(c)
}
