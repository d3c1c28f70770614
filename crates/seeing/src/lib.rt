// What a slot sees when it is stepped, found in one pass over its bytes: whether it is ready, and what the slots are that it holds.
#![tactic(auto)]

ghost use Rattle.std.specs.Prelude.{◌≡◌, ◌+◌, ◌<◌};
ghost use Rattle.limits.specs.Limits.{holder_codes};
ghost use Rattle.kinds.specs.Kinds.{hold_code};
ghost use Rattle.state.specs.Opened.{Opened};
ghost use Rattle.checked.specs.Holds.{Holds};
ghost use Rattle.resolving.specs.Settles.{event_alone};
ghost use Rattle.seeing.specs.Seeing.{answer_in, told, sight_after, sight_over, sight_in};

use answers::Verdict;
use kinds::Kind;
use resolving::Seen;
use slot_sets::{no_slots, with_slot};
use state::{Counts, Span};

// Whether slot m is true, false or neither. No other formula's bytes begin as a constant does.
fn answer_of(s: &[u8], c: Counts, m: usize) -> Verdict
    requires { Opened s.now c × (m < c.slots) }
    ensures { result ≡ answer_in s.now m }
{
    let first = state::span_of(s, c, m).from;
    verdicts::verdict(s[first])
}

// What is seen once slot m is seen to be v.
fn with_answer(seen: Seen, m: u8, v: Verdict) -> Seen
    requires { m < holder_codes }
    ensures { result ≡ told seen m v }
{
    match v {
        Verdict::True => Seen {
            yes: with_slot(seen.yes, m),
            ..seen
        },
        Verdict::False => Seen {
            no: with_slot(seen.no, m),
            ..seen
        },
        Verdict::Pending => seen,
    }
}

// One node further.
#[tactic(auto, unfolding(lists::specs::Tests::pick, crate::specs::Seeing::sight_after))]
fn sight_after(b: u8, s: &[u8], c: Counts, seen: Seen) -> Option<Seen>
    requires { Opened s.now c × (b < hold_code + c.slots) }
    ensures { result ≡ sight_after s.now b seen }
{
    if b < Kind::HOLD {
        return Some(seen);
    }
    let m = b - Kind::HOLD;
    if state::mark_of(s, c, m as usize) != 1 {
        return None;
    }
    Some(with_answer(seen, m, answer_of(s, c, m as usize)))
}

// The pass over a slot's bytes p in the state s.
#[tactic(auto, unfolding(crate::specs::Seeing::sight_over))]
fn sight_over(p: &[u8], s: &[u8], c: Counts, event: u64) -> Option<Seen>
    requires { Opened s.now c × Holds c.slots p.now }
    ensures { result ≡ sight_over s.now p.now (event_alone event) }
{
    let mut seen = Seen {
        event,
        yes: no_slots(),
        no: no_slots(),
    };
    for b in p {
        seen = sight_after(*b, s, c, seen)?;
    }
    Some(seen)
}

// What slot k sees.
pub fn sight_of(s: &[u8], c: Counts, k: usize) -> Option<Seen>
    requires { Opened s.now c × (k < c.slots) }
    ensures { result ≡ sight_in s.now k }
{
    let board = state::board_of(s, c, k) as usize;
    if state::sampled_of(s, board) != 1 {
        return None;
    }
    let Span { from, to } = state::span_of(s, c, k);
    sight_over(&s[from..to], s, c, state::sample_of(s, board))
}
