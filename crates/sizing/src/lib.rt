// How many nodes a formula unfolds to, counted over its bytes as they stand, in a loop forwards: each node counts as one, and a
// temporal operator that is unfolded adds what it becomes besides. What stands under next is passed over at once.
#![tactic(auto)]

ghost use Rattle.std.specs.Prelude.{◌≡◌};
ghost use Rattle.sizing.specs.Sizes.{SizeAsk, CountsUnfolded};
ghost use Rattle.sizing.specs.Sums.{ever_kind, SumsWhole, SumsEver, SumsOn};

use kinds::{Kind, Unary};
use limits::NODES_ROOM;

// Where the count goes on, and how many nodes were counted.
#[derive(Clone, Copy)]
struct Tally {
    i: usize,
    count: usize,
}

// Eventually or always.
fn is_ever(k: Kind) -> bool
    ensures { result ≡ ever_kind k }
{
    matches!(k, Kind::One(Unary::Ever(_)))
}

// Eventually and always that stand one behind the other end at one place, so that it is looked for once. Each adds a join, and
// next with itself. A `while`: it goes on as long as the node at i is one of them, and no count of turns is known before.
fn count_ever(s: &[u8], from: usize, end: usize, start: usize) -> Tally
    requires { SumsEver s.now from end start }
    ensures { SumsOn s.now from result.i result.count }
{
    let mut i = from;
    let mut count = start;
    while is_ever(Kind::from(s[i])) {
        count = count + 1 + (end - i);
        i += 1;
    }
    Tally { i, count }
}

// A next, which stays whole, or a temporal operator, which is unfolded: until adds two joins, and next with itself.
fn count_whole(s: &[u8], i: usize, count: usize) -> Tally
    requires { SumsWhole s.now i count }
    ensures { SumsOn s.now i result.i result.count }
{
    let end = i + nodes::operand_end(&s[i..]);
    if s[i] == Kind::NEXT {
        return Tally { i: end, count };
    }
    if is_ever(Kind::from(s[i])) {
        return count_ever(s, i, end, count);
    }
    Tally {
        i: i + 1,
        count: count + 2 + (end - i),
    }
}

// How many nodes the formula unfolds to whose bytes s are, counted up to one more than the most.
pub fn count_unfolded(s: &[u8]) -> usize
    requires { SizeAsk s.now }
    ensures { CountsUnfolded s.now result }
{
    let n = s.len();
    let mut count = n;
    let mut i = 0;
    // A `while`: a node that stays whole is passed over with all that stands under it, so that i does not go on by one.
    while i < n {
        if outlining::stays_whole(Kind::from(s[i])) {
            let t = count_whole(s, i, count);
            i = t.i;
            count = t.count;
            if NODES_ROOM < count {
                return NODES_ROOM + 1;
            }
        } else {
            i += 1;
        }
    }
    count
}
