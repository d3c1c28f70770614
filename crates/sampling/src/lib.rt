// The call `sample`: a board gives its sample for this tick.
#![tactic(auto)]

ghost use Rattle.taking.specs.Sample.{Samples};

use answers::Refusal;
use opening::Opening;

pub fn sample(state: &mut [u8], board: u64, bits: u64) -> Result<(), Refusal>
    ensures { Samples state.old board bits state.new result }
{
    let opened = opening::open(state);
    match opened {
        Opening::Broken => Err(Refusal::State),
        Opening::Finished(_) => Err(Refusal::Finished),
        Opening::Going(c) => taking::sample_going(state, c, board, bits),
    }
}
