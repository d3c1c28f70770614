// A board's sample taken into a state that was opened: what the call `sample` does on a watch that goes on.
#![tactic(auto)]

ghost use Rattle.std.specs.Prelude.{◌≡◌, false};
ghost use Rattle.state.specs.Calls.{finished_in};
ghost use Rattle.state.specs.Opened.{Opened};
ghost use Rattle.taking.specs.Sample.{Samples};

use answers::Refusal;
use state::Counts;

pub fn sample_going(state: &mut [u8], c: Counts, board: u64, bits: u64) -> Result<(), Refusal>
    requires { Opened state.old c × (finished_in state.old ≡ false) }
    ensures { Samples state.old board bits state.new result }
{
    if c.boards as u64 <= board {
        return Err(Refusal::Nowhere);
    }
    let i = board as usize;
    if bits & state::mask_of(state, i) != bits {
        return Err(Refusal::Outside);
    }
    if state::sampled_of(state, i) != 0 {
        return Err(Refusal::Already);
    }
    state::put_sample(state, i, bits);
    Ok(())
}
