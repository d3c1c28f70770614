// How a watch stands whose state was opened: what the call `ask` answers of it.
#![tactic(auto)]

ghost use Rattle.std.specs.Prelude.{◌≡◌, true};
ghost use Rattle.state.specs.Calls.{finished_in, verdict_in};
ghost use Rattle.state.specs.Opened.{Opened};
ghost use Rattle.telling.specs.Ask.{Asks};

use answers::{Refusal, Verdict};
use state::Counts;

#[derive(Clone, Copy)]
pub struct Standing {
    pub verdict: Verdict,
    pub ticks: u32,
    pub slots: usize,
    pub nodes: usize,
}

// The verdict of a watch that is finished: its one slot's one node.
pub fn verdict(s: &[u8], c: Counts) -> Verdict
    requires { Opened s.now c × (finished_in s.now ≡ true) }
    ensures { result ≡ verdict_in s.now }
{
    let first = state::span_of(s, c, 0).from;
    if s[first] == 1 {
        return Verdict::True;
    }
    Verdict::False
}

// The answer with this verdict.
pub fn told(s: &[u8], c: Counts, verdict: Verdict) -> Result<Standing, Refusal>
    requires { Opened s.now c × (verdict ≡ verdict_in s.now) }
    ensures { Asks s.now result }
{
    Ok(Standing {
        verdict: verdict,
        ticks: state::ticks_of(s),
        slots: c.slots,
        nodes: c.nodes,
    })
}
