// The call `stretch`: the events of a recording's first stretch, one a tick. As in `mend`, every record is looked at before one is written.
#![tactic(auto)]

ghost use Rattle.std.specs.Prelude.{length};
ghost use Rattle.stretching.specs.Stretch.{Stretches, GatherAsk, Gathers};

use answers::Refusal;
use recordings::Mark;

// Puts the events of the first stretch, up to the first break: how many these are. That of a dropped record is put too, and the next one
// takes its place.
fn gather(recording: &[u8], events: &mut [u64]) -> usize
    requires { GatherAsk recording.now events.old }
    ensures { Gathers recording.now events.new (length events.old) result }
{
    let n = events.len();
    let mut before = neighbours::before_at(recording, 0, n);
    let mut kept = 0;
    for i in 0..n {
        let counter = neighbours::counter_at(recording, i);
        let mark = neighbours::mark_of(neighbours::step(before, counter));
        if let Mark::Broken = mark {
            return kept;
        }
        events[kept] = neighbours::event_at(recording, i);
        kept += neighbours::kept_by(u8::from(mark));
        before = counter;
    }
    kept
}

pub fn stretch(recording: &[u8], events: &mut [u64]) -> Result<usize, Refusal>
    ensures { Stretches recording.now events.old events.new result }
{
    inspecting::inspect(recording, events.len())?;
    let taken = gather(recording, events);
    events[taken..].fill(0);
    Ok(taken)
}
