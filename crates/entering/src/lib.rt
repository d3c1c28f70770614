// Slots are entered in a register that is kept in tokens: each slot once, so that equal slots have one entry.
#![tactic(auto)]

ghost use Rattle.std.specs.Prelude.{◌≡◌, ◌++◌, ◌+◌, ◌^◌, ◌<◌, ◌≤◌, length, take, drop};
ghost use Rattle.tokens.specs.Said.{Readable};
ghost use Rattle.tokens.specs.Kept.{stamp_of};
ghost use Rattle.entering.specs.Comparing.{SaysSame, RunsAsk, RunsTold};
ghost use Rattle.entering.specs.Entries.{EnterAsk, EntryAsk, EntryTold, FindsEntry, AppendAsk, Appends, EntersAll};

use choices::marks;
use limits::SLOTS_ROOM;

// Tokens from here on are texts under next.
const TEXT: u16 = 256;

// How many boards a stamp tells apart.
const STAMP_ROOM: u64 = 32;

// An entry's number, and how many entries there are then.
#[derive(Clone, Copy)]
pub struct Entered {
    pub entry: usize,
    pub entries: usize,
}

// A slot's board and how many nodes it has, as one number: slots with other stamps are not equal.
#[tactic(auto, unfolding(tokens::specs::Kept::stamp_of))]
pub fn stamp_of(board: u8, nodes: usize) -> u64
    requires { nodes < 2 ^ 32 }
    ensures { result ≡ stamp_of board nodes }
{
    nodes as u64 * STAMP_ROOM + u64::from(board)
}

// Whether two tokens stand for the same bytes. Equal texts may stand at two places.
fn alike(bytes: &[u8], marks: &[u32], t: u16, u: u16) -> bool
    requires { (length bytes.now ≤ length marks.now) × Readable bytes.now marks.now t × Readable bytes.now marks.now u }
    ensures { SaysSame bytes.now marks.now t u result }
{
    if t == u {
        return true;
    }
    if t < TEXT {
        return false;
    }
    if u < TEXT {
        return false;
    }
    let a = usize::from(t - TEXT);
    let b = usize::from(u - TEXT);
    let n = marks::length_of(marks[a]);
    let m = marks::length_of(marks[b]);
    if n != m {
        return false;
    }
    buffers::same(bytes, a, b, n)
}

// Whether the tokens, and as many from a place of the bodies on, spell the same formula.
fn same_tokens(bytes: &[u8], marks: &[u32], bodies: &[u16], from: usize, tokens: &[u16]) -> bool
    requires { RunsAsk bytes.now marks.now bodies.now from tokens.now }
    ensures { RunsTold bytes.now marks.now bodies.now from tokens.now result }
{
    for (i, t) in tokens.iter().enumerate() {
        if !alike(bytes, marks, *t, bodies[from + i]) {
            return false;
        }
    }
    true
}

// Whether entry k is the slot whose tokens and stamp these are. Stamps and the numbers of tokens are compared first: most slots that
// differ do so there.
fn is_entry(
    bytes: &[u8],
    marks: &[u32],
    tokens: &[u16],
    stamp: u64,
    bodies: &[u16],
    places: &[u16],
    stamps: &[u64],
    k: usize,
) -> bool
    requires { EntryAsk bytes.now marks.now tokens.now stamp bodies.now places.now stamps.now k }
    ensures { EntryTold bytes.now marks.now tokens.now stamp bodies.now places.now stamps.now k result }
{
    if stamps[k] != stamp {
        return false;
    }
    let from = usize::from(places[k]);
    let end = usize::from(places[k + 1]);
    if end - from != tokens.len() {
        return false;
    }
    same_tokens(bytes, marks, bodies, from, tokens)
}

// The entry of the slot whose tokens and stamp these are, or how many entries there are where it has none.
fn find(
    bytes: &[u8],
    marks: &[u32],
    tokens: &[u16],
    stamp: u64,
    entries: usize,
    bodies: &[u16],
    places: &[u16],
    stamps: &[u64],
) -> usize
    requires { EnterAsk bytes.now marks.now tokens.now stamp entries bodies.now places.now stamps.now }
    ensures { FindsEntry bytes.now marks.now tokens.now stamp entries bodies.now places.now stamps.now result }
{
    for k in 0..entries {
        if is_entry(bytes, marks, tokens, stamp, bodies, places, stamps, k) {
            return k;
        }
    }
    entries
}

// Puts an entry behind the others.
fn append(
    tokens: &[u16],
    stamp: u64,
    entries: usize,
    bodies: &mut [u16],
    places: &mut [u16],
    stamps: &mut [u64],
)
    requires { AppendAsk tokens.now entries bodies.old places.old stamps.old }
    ensures { Appends tokens.now stamp entries bodies.old places.old stamps.old bodies.new places.new stamps.new }
{
    let at = usize::from(places[entries]);
    let end = at + tokens.len();
    bodies[at..end].copy_from_slice(tokens);
    places[entries + 1] = buffers::narrow(end);
    stamps[entries] = stamp;
}

// The entry of the slot whose tokens these are: the one that is there already, or a new one behind the others. `stamp` has the slot's
// board and how many nodes it has. Where there is no room for one more entry, nothing is written and entries is SLOTS_ROOM.
pub fn enter(
    bytes: &[u8],
    marks: &[u32],
    tokens: &[u16],
    stamp: u64,
    entries: usize,
    bodies: &mut [u16],
    places: &mut [u16],
    stamps: &mut [u64],
) -> Entered
    requires { EnterAsk bytes.now marks.now tokens.now stamp entries bodies.old places.old stamps.old }
    ensures { EntersAll bytes.now marks.now tokens.now stamp entries bodies.old places.old stamps.old bodies.new places.new stamps.new result }
{
    let k = find(bytes, marks, tokens, stamp, entries, bodies, places, stamps);
    if k < entries {
        return Entered { entry: k, entries };
    }
    if entries == SLOTS_ROOM - 1 {
        return Entered {
            entry: entries,
            entries: SLOTS_ROOM,
        };
    }
    append(tokens, stamp, entries, bodies, places, stamps);
    Entered {
        entry: entries,
        entries: entries + 1,
    }
}
