// The call `ask`: how a watch stands.
#![tactic(auto)]

ghost use Rattle.telling.specs.Ask.{Asks};

use answers::{Refusal, Verdict};
use opening::Opening;
use telling::Standing;

pub fn ask(state: &[u8]) -> Result<Standing, Refusal>
    ensures { Asks state.now result }
{
    let opened = opening::open(state);
    match opened {
        Opening::Broken => Err(Refusal::State),
        Opening::Finished(c) => telling::told(state, c, telling::verdict(state, c)),
        Opening::Going(c) => telling::told(state, c, Verdict::Pending),
    }
}
