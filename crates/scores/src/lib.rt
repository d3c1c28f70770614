// The scores of all boards, taken together: a count for each board, added operand by operand, and the choice of a board by them. A
// proposition's board is looked up in a table of owners, which `owners` fills from the boards' masks.
#![tactic(auto)]

ghost use Rattle.std.specs.Prelude.{◌≡◌, ℕ, ◌+◌, ◌<◌, ◌≤◌, length, get_or, IfSome};
ghost use Rattle.std.proofs.Math.Option.{none};
ghost use Rattle.lists.specs.Tests.{pick, bit};
ghost use Rattle.kinds.specs.Kinds.{leaf_coded};
ghost use Rattle.limits.specs.Limits.{boards_most, propositions_most, nodes_room};
ghost use Rattle.network.specs.Scores.{highest};
ghost use Rattle.nodes.specs.Begins.{Begins};
ghost use Rattle.scores.specs.Choice.{picked_by, stays_on};
ghost use Rattle.scores.specs.Scored.{one_scored, added, counts_below, Few, board_of};
ghost use Rattle.scores.specs.Owned.{Table, Owns, owner_of};
ghost use Rattle.scores.specs.Tallies.{Tallies};

use kinds::{Kind, Leaf};
use limits::BOARDS_MOST;

// Stands for a board where there is none.
const NO_BOARD: u8 = 16;

// The same of a choice: the part stays.
pub const STAYS: u8 = NO_BOARD;

// A key has room for so many boards beside the count; the last of them.
const KEY_BOARDS: u32 = 16;

const LAST_BOARD: u32 = 15;

// No count is as large: a key has room for it beside the board.
const COUNTS_BELOW: u32 = 134217728;

// How often each board's propositions occur in a part; a board that is not there counts 0.
#[derive(Clone, Copy)]
pub struct Scores {
    pub counts: [u32; BOARDS_MOST],
}

impl Scores {
    // One occurrence, of a proposition of this board; nothing where it is no board. Every count is stored, not the board's alone: it
    // is read again at once, and several together.
    pub fn one(board: u8) -> Scores
        requires { board ≤ boards_most }
        ensures { result.counts ≡ one_scored board }
    {
        let own = board as usize;
        let mut counts = [0u32; BOARDS_MOST];
        for b in 0..BOARDS_MOST {
            counts[b] = if b == own { 1 } else { 0 };
        }
        Scores { counts }
    }

    pub fn plus(self, other: Scores) -> Scores
        requires { (b : ℕ) → get_or self.counts b 0 + get_or other.counts b 0 < counts_below }
        ensures { result.counts ≡ added self.counts other.counts }
    {
        let mut sums = self.counts;
        let more = other.counts;
        for b in 0..BOARDS_MOST {
            sums[b] += more[b];
        }
        Scores { counts: sums }
    }

    // The highest score, the lowest board on a tie; a part whose scores are all 0 stays. A board's key is its count and behind it how
    // far the board is from the last one, so that the highest key tells both. The remainder changes no count: it tells the compiler
    // that a key has no highest bit, and four of them are then compared at once.
    pub fn choice(self) -> Option<u8>
        requires { Few self.counts }
        ensures is { board_of result ≡ highest none 0 0 self.counts }
        ensures there { IfSome result (λ b. b < boards_most) }
    {
        let counts = self.counts;
        let mut most: u32 = 0;
        for b in 0..BOARDS_MOST {
            let key = counts[b] % COUNTS_BELOW * KEY_BOARDS + (LAST_BOARD - b as u32);
            if most < key {
                most = key;
            }
        }
        if most < KEY_BOARDS {
            return None;
        }
        Some((LAST_BOARD - most % KEY_BOARDS) as u8)
    }

    // The same as a number.
    pub fn choice_or_stays(self) -> u8
        requires { Few self.counts }
        ensures { (result ≡ picked_by self.counts) × (result ≤ boards_most) }
    {
        self.choice().unwrap_or(STAYS)
    }
}

// Whether a part of this choice stays in a slot on the board.
#[tactic(auto, unfolding(crate::specs::Choice::stays_on, lists::specs::Tests::either))]
pub fn stays_on(choice: u8, board: u8) -> bool
    ensures { result ≡ stays_on choice board }
{
    choice == STAYS || choice == board
}

// How many bytes of a formula were read, and its scores.
#[derive(Clone, Copy)]
pub struct Tallied {
    pub read: usize,
    pub scores: Scores,
}

// The owner of a proposition; constants and place holders have none.
pub fn owner_of(a: Leaf, owner: &[u8]) -> u8
    requires { leaf_coded a × Table owner.now }
    ensures { (result ≡ owner_of owner.now a) × (result ≤ boards_most) }
{
    match a {
        Leaf::Const(_) => NO_BOARD,
        Leaf::Prop(i) => owner[i as usize],
        Leaf::Hold(_) => NO_BOARD,
    }
}

// The scores of the formula that s begins with, added operand by operand. `owner` has each proposition's board.
pub fn tally(s: &[u8], owner: &[u8]) -> Tallied
    requires { Begins s.now × Table owner.now × (length s.now ≤ nodes_room) }
    ensures { Tallies owner.now s.now result.read result.scores.counts }
{
    let k = Kind::from(s[0]);
    match k {
        Kind::Zero(a) => Tallied {
            read: 1,
            scores: Scores::one(owner_of(a, owner)),
        },
        Kind::One(_) => {
            let a = tally(&s[1..], owner);
            let scores = a.scores;
            Tallied {
                read: 1 + a.read,
                scores,
            }
        }
        Kind::Two(_) => {
            let a = tally(&s[1..], owner);
            let m = 1 + a.read;
            let c = tally(&s[m..], owner);
            let left = a.scores;
            let right = c.scores;
            Tallied {
                read: m + c.read,
                scores: left.plus(right),
            }
        }
        // No formula begins with such a byte.
        Kind::NoCode => Tallied {
            read: 0,
            scores: Scores::one(NO_BOARD),
        },
    }
}

// Makes a board the owner of each proposition of its mask, the lowest one first, which is then cleared.
fn own(mask: u64, board: u8, owner: &mut [u8])
    requires { length owner.old ≡ propositions_most }
    ensures { (i : ℕ) → get_or owner.new i 0 ≡ pick (bit mask i) board (get_or owner.old i 0) }
{
    let mut left = mask;
    // A `while`: no index is counted, and a turn for each bit of the mask would be more turns.
    while left != 0 {
        let p = masks::lowest(left);
        owner[p as usize] = board;
        left &= left - 1;
    }
}

// Fills the table of each proposition's board from the boards' masks. A proposition that no mask has keeps what the table had.
pub fn owners(masks: &[u64], owner: &mut [u8])
    requires { (length masks.now ≤ boards_most) × Table owner.old }
    ensures { Owns masks.now owner.old owner.new }
{
    for (board, mask) in masks.iter().enumerate() {
        own(*mask, board as u8, owner);
    }
}
