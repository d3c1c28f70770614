// The events of a capture, one after the other. Each is given in the second buffer, which is a copy of the state then; both are zero
// from `used` on, so no more than that is copied.
ghost use Rattle.capturing.specs.Running.{RunAsk, Runs};

use crate::Captured;
use answers::Verdict;
use state::Counts;

// What the events have come to, and where what stands in the second buffer ends.
#[derive(Clone, Copy)]
pub struct Ran {
    pub captured: Captured,
    pub used: usize,
}

pub fn run(
    state: &mut [u8],
    c: Counts,
    second: &mut [u8],
    events: &[u64],
    masks: &[u64],
    owner: &[u8],
    u: &mut [u8],
    tags: &mut [u32],
) -> Ran
    requires { RunAsk state.old c second.old masks.now owner.now u.old tags.old }
    ensures { Runs state.old events.now state.new second.new result }
{
    let mut counts = c;
    let mut used = state.len();
    for (closed, &event) in events.iter().enumerate() {
        buffers::copy(second, &state[..used]);
        let stop = ticking::tick(state, counts, second, event, masks, owner, u, tags);
        let Ok(()) = stop else {
            return Ran {
                captured: Captured {
                    closed,
                    verdict: Verdict::Pending,
                    stop,
                },
                used: counts.stretches + counts.nodes,
            };
        };
        let next = state::counts_of(state);
        used = storing::farther(counts.stretches + counts.nodes, next.stretches + next.nodes);
        counts = next;
        if opening::finished(state, counts) {
            return Ran {
                captured: Captured {
                    closed: closed + 1,
                    verdict: telling::verdict(state, counts),
                    stop: Ok(()),
                },
                used,
            };
        }
    }
    Ran {
        captured: Captured {
            closed: events.len(),
            verdict: Verdict::Pending,
            stop: Ok(()),
        },
        used,
    }
}
