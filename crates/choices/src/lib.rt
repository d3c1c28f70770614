// Which board each part of a formula is chosen for, for every node at once: one loop from the last node to the first, over the counts of
// the parts that wait for their operator. Laying reads the marks and counts nothing.
#![tactic(auto)]

pub mod marks;
mod over;
pub mod picks;
mod rows;

ghost use Rattle.std.specs.Prelude.{◌≡◌};
ghost use Rattle.choices.specs.Marks.{Marks};
ghost use Rattle.choices.specs.Waiting.{MarkNodeAsk, MarksNode, MarkAsk};

use kinds::Kind;
use limits::BOARDS_MOST;
use marks::length_of;
use over::{over_none, over_one, over_two};

// Half as many counts as a row has: at most one part waits for every two nodes, and one more.
const HALF_ROW: usize = 8;

// Marks the node at i, with the byte c, whose operands are marked. The rows of the parts that wait begin at t.
fn mark_node(
    c: u8,
    i: usize,
    owner: &[u8],
    marks: &mut [u32],
    raw: &mut [u16],
    opened: &mut [u32],
    t: usize,
) -> usize
    requires { MarkNodeAsk c i owner.now marks.old raw.old opened.old t }
    ensures { MarksNode c i owner.now marks.old raw.old opened.old t marks.new raw.new opened.new result }
{
    let k = Kind::from(c);
    match k {
        Kind::Zero(a) => {
            let low = t - BOARDS_MOST;
            let x = over_none(scores::owner_of(a, owner), raw, opened, low);
            marks[i] = x;
            low
        }
        Kind::One(o) => {
            let x = over_one(o, marks[i + 1], raw, opened, t);
            marks[i] = x;
            t
        }
        Kind::Two(o) => {
            let l = marks[i + 1];
            let r = marks[i + 1 + length_of(l)];
            let x = over_two(o, l, r, raw, opened, t);
            marks[i] = x;
            t + BOARDS_MOST
        }
        // No formula begins with such a byte.
        Kind::NoCode => t,
    }
}

// Marks every node of the formula s. What stands in `raw` and `opened` is written before it is read.
pub fn mark_all(s: &[u8], owner: &[u8], marks: &mut [u32], raw: &mut [u16], opened: &mut [u32])
    requires { MarkAsk s.now owner.now marks.old raw.old opened.old }
    ensures { Marks owner.now s.now marks.new }
{
    let mut t = HALF_ROW * (s.len() + 1);
    for i in (0..s.len()).rev() {
        t = mark_node(s[i], i, owner, marks, raw, opened, t);
    }
}
