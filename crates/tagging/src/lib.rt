// Tags for laying an unfolded formula: for each of its operands the board that it is chosen for, and how long it is in a slot on
// that board. One walk from the leaves up, a tag for each node outside next, at the node's place.
#![tactic(auto)]

pub mod packed;

ghost use Rattle.std.specs.Prelude.{◌≡◌, ◌+◌, ◌*◌, ◌<◌, ◌≤◌, length};
ghost use Rattle.limits.specs.Limits.{boards_most, nodes_room};
ghost use Rattle.nodes.specs.Begins.{Begins};
ghost use Rattle.scores.specs.Owned.{Table};
ghost use Rattle.scores.specs.Scored.{one_scored};
ghost use Rattle.tagging.specs.Packed.{length_room};
ghost use Rattle.tagging.specs.Tags.{shown_as, Seals, NotAsk, PairAsk, TagOver, OverNot, OverPair, Whole, Tagging};

use kinds::{Binary, Kind, Unary};
use scores::{STAYS, Scores};

// A part that was tagged: its length, its scores, the board that it is laid on, and its length in a slot there.
#[derive(Clone, Copy)]
pub struct TaggedPart {
    pub read: usize,
    pub scores: Scores,
    pub board: u8,
    pub here: usize,
}

// The length of an operand in a slot on the board: its own where it stays, one place holder where it is cut.
fn shown(a: TaggedPart, board: u8) -> usize
    ensures { result ≡ shown_as a.board a.here board }
{
    if scores::stays_on(a.board, board) {
        a.here
    } else {
        1
    }
}

// Puts the tag of a part at the front of the tags.
fn seal(tags: &mut [u32], read: usize, scores: Scores, board: u8, here: usize) -> TaggedPart
    requires { (0 < length tags.old) × (here < length_room) }
    ensures { Seals read scores board here tags.old tags.new result }
{
    tags[0] = packed::tag_of(here, board);
    TaggedPart {
        read,
        scores,
        board,
        here,
    }
}

// Not of a part that was tagged on its own choice, which is that of the whole.
fn over_not(tags: &mut [u32], a: TaggedPart, on: u8) -> TaggedPart
    requires { (0 < length tags.old) × NotAsk a }
    ensures { OverNot a on tags.old tags.new result }
{
    let board = cutting::place_of(a.board, on);
    seal(tags, 1 + a.read, a.scores, board, 1 + shown(a, board))
}

// Two parts that were tagged, under a join.
fn over_pair(tags: &mut [u32], a: TaggedPart, c: TaggedPart, on: u8) -> TaggedPart
    requires { (0 < length tags.old) × PairAsk a c }
    ensures { OverPair a c on tags.old tags.new result }
{
    let scores = a.scores.plus(c.scores);
    let board = cutting::place_of(scores.choice_or_stays(), on);
    let here = 1 + shown(a, board) + shown(c, board);
    seal(tags, 1 + a.read + c.read, scores, board, here)
}

// A node without operands: its owner, if it has one, is what it is chosen for.
fn tag_leaf(tags: &mut [u32], owner: u8, on: u8) -> TaggedPart
    requires { (0 < length tags.old) × (owner ≤ boards_most) }
    ensures { TagOver 1 (one_scored owner) on (λ b. 1) tags.old tags.new result }
{
    let board = cutting::place_of(owner, on);
    seal(tags, 1, Scores::one(owner), board, 1)
}

// A part that stays whole: next, or a temporal operator.
fn tag_whole(u: &[u8], tags: &mut [u32], owner: &[u8], on: u8) -> TaggedPart
    requires { Begins u.now × Table owner.now × (length u.now ≤ length tags.old) × (length u.now ≤ nodes_room) }
    ensures { Whole owner.now u.now on tags.old tags.new result }
{
    let t = scores::tally(u, owner);
    let scores = t.scores;
    let board = cutting::place_of(scores.choice_or_stays(), on);
    seal(tags, t.read, scores, board, t.read)
}

// Tags the formula that u begins with, laid on the board given or on its own choice.
pub fn tag(u: &[u8], tags: &mut [u32], owner: &[u8], on: u8) -> TaggedPart
    requires { Begins u.now × Table owner.now × (length u.now ≤ length tags.old) × (length u.now ≤ nodes_room) }
    ensures { Tagging owner.now u.now on tags.new result }
{
    let k = Kind::from(u[0]);
    match k {
        Kind::Zero(a) => tag_leaf(tags, scores::owner_of(a, owner), on),
        Kind::One(o) => match o {
            Unary::Not => {
                let a = tag(&u[1..], &mut tags[1..], owner, STAYS);
                over_not(tags, a, on)
            }
            Unary::Next => tag_whole(u, tags, owner, on),
            Unary::Ever(_) => tag_whole(u, tags, owner, on),
        },
        Kind::Two(o) => match o {
            Binary::Joined(_) => {
                let a = tag(&u[1..], &mut tags[1..], owner, STAYS);
                let m = 1 + a.read;
                let c = tag(&u[m..], &mut tags[m..], owner, STAYS);
                over_pair(tags, a, c, on)
            }
            Binary::Until => tag_whole(u, tags, owner, on),
        },
        // No formula begins with such a byte.
        Kind::NoCode => tag_leaf(tags, STAYS, on),
    }
}
