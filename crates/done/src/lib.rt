// Whether a tick is done: all boards have sampled, and all slots are stepped.
#![tactic(auto)]

ghost use Rattle.std.specs.Prelude.{◌≡◌};
ghost use Rattle.state.specs.Counted.{Sized};
ghost use Rattle.done.specs.Done.{all_sampled, all_stepped};

use state::Counts;

// All boards have sampled.
#[tactic(auto, unfolding(lists::specs::Tests::both, state::specs::Clauses::each_below))]
pub fn all_sampled(s: &[u8], c: Counts) -> bool
    requires { Sized s.now c }
    ensures { result ≡ all_sampled s.now }
{
    for i in 0..c.boards {
        if state::sampled_of(s, i) != 1 {
            return false;
        }
    }
    true
}

// All slots are stepped.
#[tactic(auto, unfolding(lists::specs::Tests::both, state::specs::Clauses::each_below))]
pub fn all_stepped(s: &[u8], c: Counts) -> bool
    requires { Sized s.now c }
    ensures { result ≡ all_stepped s.now }
{
    for k in 0..c.slots {
        if state::mark_of(s, c, k) != 1 {
            return false;
        }
    }
    true
}
