// How many parts are cut out of a formula when it is unfolded and laid on a board, counted without unfolding or laying it: one walk
// over the formula as it stands, from the leaves up. A part's cuts on its own chosen board are all that its node needs of it: on
// another board the part is cut itself, and is then laid on that board of its own.
#![tactic(auto)]

ghost use Rattle.std.specs.Prelude.{◌≡◌, ◌+◌, ◌<◌, ◌≤◌, ◌^◌, length};
ghost use Rattle.limits.specs.Limits.{boards_most, nodes_room};
ghost use Rattle.nodes.specs.Begins.{Begins};
ghost use Rattle.scores.specs.Owned.{Table};
ghost use Rattle.scores.specs.Scored.{Few};
ghost use Rattle.cutting.specs.Cuts.{place_by, cut_by, looked_cuts, Bare, Joinable, Joins, OverNone, Countable, OverOne, Pairable, OverTwo, Cutting};

use kinds::{Binary, Kind, Unary};
use scores::{STAYS, Scores, stays_on};

// A part that is laid on a board: its scores, the board that they choose, and how many parts are cut out of it where it is laid. The
// choice is looked at by the part's own node and by the one above, and is made once.
#[derive(Clone, Copy)]
pub struct LaidPart {
    pub scores: Scores,
    pub choice: u8,
    pub cuts: usize,
}

// A formula as it was walked over: its length, its scores as it stands, and what it is unfolded.
#[derive(Clone, Copy)]
pub struct CutWalk {
    pub read: usize,
    pub raw: Scores,
    pub part: LaidPart,
}

// The board that a part of this choice is laid on: the one given or, where that is STAYS, its own.
#[tactic(auto, unfolding(crate::specs::Cuts::place_by, lists::specs::Tests::pick))]
pub fn place_of(choice: u8, on: u8) -> u8
    ensures { result ≡ place_by on choice }
{
    if on == STAYS { choice } else { on }
}

// The cuts that looking at a part of this choice makes in a slot on the board: one, or none where it stays.
#[tactic(auto, unfolding(crate::specs::Cuts::cut_by, lists::specs::Tests::pick))]
fn cut_by(choice: u8, board: u8) -> usize
    ensures { (result ≡ cut_by choice board) × (result ≤ 1) }
{
    if stays_on(choice, board) { 0 } else { 1 }
}

impl LaidPart {
    // The cuts where this part is looked at as an operand of a slot on the board.
    fn looked(self, board: u8) -> usize
        requires { self.cuts + 1 < 2 ^ 64 }
        ensures { result ≡ looked_cuts self board }
    {
        self.cuts + cut_by(self.choice, board)
    }
}

// Two parts under a join, laid on the board given or on their own choice.
fn joined(a: LaidPart, b: LaidPart, on: u8) -> LaidPart
    requires { Joinable a b }
    ensures { Joins a b on result }
{
    let scores = a.scores.plus(b.scores);
    let choice = scores.choice_or_stays();
    let board = place_of(choice, on);
    LaidPart {
        scores,
        choice,
        cuts: a.looked(board) + b.looked(board),
    }
}

// A formula under next: nothing is cut out of it.
fn under_next(raw: Scores) -> LaidPart
    requires { Few raw.counts }
    ensures { Bare result raw.counts }
{
    LaidPart {
        scores: raw,
        choice: raw.choice_or_stays(),
        cuts: 0,
    }
}

// A node without operands: its owner, if it has one, is what it is chosen for.
fn over_none(owner: u8) -> CutWalk
    requires { owner ≤ boards_most }
    ensures { OverNone owner result }
{
    let raw = Scores::one(owner);
    CutWalk {
        read: 1,
        raw,
        part: LaidPart {
            scores: raw,
            choice: owner,
            cuts: 0,
        },
    }
}

// A node with one operand, which was walked over.
fn over_one(o: Unary, a: CutWalk, on: u8) -> CutWalk
    requires { Countable a }
    ensures { OverOne o a on result }
{
    let raw = a.raw;
    let part = a.part;
    let read = 1 + a.read;
    match o {
        Unary::Not => {
            let cuts = part.looked(place_of(part.choice, on));
            CutWalk {
                read,
                raw,
                part: LaidPart { cuts, ..part },
            }
        }
        Unary::Next => CutWalk {
            read,
            raw,
            part: under_next(raw),
        },
        Unary::Ever(_) => CutWalk {
            read,
            raw,
            part: joined(part, under_next(raw), on),
        },
    }
}

// A node with two operands, which were walked over.
fn over_two(o: Binary, a: CutWalk, c: CutWalk, on: u8) -> CutWalk
    requires { Pairable a c }
    ensures { OverTwo o a c on result }
{
    let raw = a.raw.plus(c.raw);
    let f = a.part;
    let g = c.part;
    let read = 1 + a.read + c.read;
    match o {
        Binary::Joined(_) => CutWalk {
            read,
            raw,
            part: joined(f, g, on),
        },
        Binary::Until => CutWalk {
            read,
            raw,
            part: joined(g, joined(f, under_next(raw), STAYS), on),
        },
    }
}

// The cuts of the formula that s begins with, unfolded, on the board given or on its own choice.
pub fn count_cuts(s: &[u8], owner: &[u8], on: u8) -> CutWalk
    requires { Begins s.now × Table owner.now × (length s.now ≤ nodes_room) }
    ensures { Cutting owner.now s.now on result }
{
    let k = Kind::from(s[0]);
    match k {
        Kind::Zero(a) => over_none(scores::owner_of(a, owner)),
        Kind::One(o) => over_one(o, count_cuts(&s[1..], owner, STAYS), on),
        Kind::Two(o) => {
            let a = count_cuts(&s[1..], owner, STAYS);
            let m = 1 + a.read;
            over_two(o, a, count_cuts(&s[m..], owner, STAYS), on)
        }
        // No formula begins with such a byte.
        Kind::NoCode => over_none(STAYS),
    }
}
