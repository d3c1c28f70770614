// The call `step`: a slot is stepped.
#![tactic(auto)]

ghost use Rattle.settling.specs.Step.{StepsSlot};

use answers::Refusal;
use opening::Opening;

pub fn step(state: &mut [u8], slot: u64) -> Result<(), Refusal>
    ensures { StepsSlot state.old slot state.new result }
{
    let opened = opening::open(state);
    match opened {
        Opening::Broken => Err(Refusal::State),
        Opening::Finished(_) => Err(Refusal::Finished),
        Opening::Going(c) => settling::step_going(state, c, slot),
    }
}
