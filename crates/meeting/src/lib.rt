// The entries of a register met one after the other from a root on, by their tokens: an entry, then those below it, then the next one. What
// each holds is noted as a set.
#![tactic(auto)]

ghost use Rattle.std.specs.Prelude.{◌≡◌, ℕ, ◌+◌, ◌<◌, ltb, eqb};
ghost use Rattle.lists.specs.Tests.{both, either, bit};
ghost use Rattle.limits.specs.Limits.{slots_room};
ghost use Rattle.kinds.specs.Kinds.{hold_code};
ghost use Rattle.tokens.specs.Tokens.{text_code};
ghost use Rattle.meeting.specs.Meeting.{MeetAsk, Meets, WalkAsk, WalkMeets};

// Where the tokens of place holders begin, and those of texts.
const HOLDERS: u16 = 128;

const TEXTS: u16 = 256;

// How many entries have been met, and which: one bit an entry.
#[derive(Clone, Copy)]
pub struct Meeting {
    pub count: usize,
    pub seen: u64,
}

// The set with k besides.
fn with_bit(x: u64, k: usize) -> u64
    requires { k < slots_room }
    ensures { (j : ℕ) → bit result j ≡ either (bit x j) (eqb k j) }
{
    x | (1u64 << k)
}

// Whether k is in the set.
#[tactic(auto, unfolding(lists::specs::Tests::bit))]
fn has_bit(x: u64, k: usize) -> bool
    requires { k < slots_room }
    ensures { result ≡ bit x k }
{
    (x >> k) % 2 == 1
}

// Whether a token is a place holder.
#[tactic(auto, unfolding(lists::specs::Tests::both))]
fn is_holder(t: u16) -> bool
    ensures { result ≡ both (ltb hold_code (t + 1)) (ltb t text_code) }
{
    HOLDERS <= t && t < TEXTS
}

// Entry k is met, and then those below it, unless it was met before.
#[cycle(meet_meet_row)]
fn meet(
    k: usize,
    bodies: &[u16],
    places: &[u16],
    row: &mut [u8],
    sets: &mut [u64],
    m: Meeting,
) -> Meeting
    requires { MeetAsk k bodies.now places.now row.old sets.old m }
    ensures { Meets k bodies.now places.now row.old sets.old m row.new sets.new result }
{
    if has_bit(m.seen, k) {
        return m;
    }
    let count = m.count;
    let from = places[k] as usize;
    let to = places[k + 1] as usize;
    row[count] = k as u8;
    let more = Meeting {
        count: count + 1,
        seen: with_bit(m.seen, k),
    };
    meet_row(&bodies[from..to], bodies, places, k, row, sets, more)
}

// The entries are met that the tokens hold, which are those of entry `own`; what they hold is noted as its set. The root is walked so too,
// under the number behind the last entry's: each body is then read once, and chains need not look at tokens again.
#[cycle(meet_meet_row)]
pub fn meet_row(
    tokens: &[u16],
    bodies: &[u16],
    places: &[u16],
    own: usize,
    row: &mut [u8],
    sets: &mut [u64],
    m: Meeting,
) -> Meeting
    requires { WalkAsk tokens.now bodies.now places.now own row.old sets.old m }
    ensures { WalkMeets tokens.now bodies.now places.now own row.old sets.old m row.new sets.new result }
{
    let mut so_far = m;
    let mut held = 0;
    for t in tokens {
        if is_holder(*t) {
            let k = (*t - HOLDERS) as usize;
            held = with_bit(held, k);
            so_far = meet(k, bodies, places, row, sets, so_far);
        }
    }
    sets[own] = held;
    so_far
}
