// The slots that are reached from a network's root, unfolded one behind the other and tagged, each on its board, so that they can be
// laid again: at each place holder the tag says how far on its slot stands.
#![tactic(auto)]

ghost use Rattle.spreading.specs.Spreads.{SpreadAsk, Spreads};

use carrying::put_slot;
use kinds::Kind;
use state::Counts;
use tagging::packed;

// Spreads the network out, and answers how many bytes of u it takes. What is behind them is not read.
pub fn spread(state: &[u8], c: Counts, owner: &[u8], u: &mut [u8], tags: &mut [u32]) -> usize
    requires { SpreadAsk state.now c owner.now u.old tags.old }
    ensures { Spreads state.now u.new tags.new result }
{
    let mut end = put_slot(state, c, 0, owner, u, tags);
    let mut i: usize = 0;
    // A `while`: the end moves on with each slot that is put, and a range would keep the one that it began with.
    while i < end {
        let b = u[i];
        if Kind::HOLD <= b {
            tags[i] = packed::with_ahead(tags[i], end - i);
            end += put_slot(
                state,
                c,
                (b - Kind::HOLD) as usize,
                owner,
                &mut u[end..],
                &mut tags[end..],
            );
        }
        i += 1;
    }
    end
}
