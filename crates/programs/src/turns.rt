// A program's turns: the rule file first, then an event a turn. Where the input gives none the program is over, and its last line is
// written here.
ghost use Rattle.std.specs.Prelude.{◌≡◌, ◌≤◌, length};
ghost use Rattle.programs.specs.Hand.{InHand, bytes_of};
ghost use Rattle.programs.specs.Turns.{FileInFront, EventBehind};

use crate::input::{Hand, PIECE, Taken, Taking};
use crate::{goes_on, input, output};
use answers::{Refusal, Verdict};
use std::io::{Read, Write};

// What a turn leaves: how many nodes wait for the next event, none where the program is over, and what is in hand behind the event.
#[derive(Clone, Copy, Debug, PartialEq, Eq)]
pub struct Turned {
    pub waiting: usize,
    pub hand: Hand,
}

impl Turned {
    pub fn over() -> Turned
        ensures { (result.waiting ≡ 0) × (result.hand.from ≡ 0) × (result.hand.end ≡ 0) }
    {
        Turned {
            waiting: 0,
            hand: Hand::empty(),
        }
    }
}

// The rule file, in front of the piece, and in hand what came behind it. Where a read has failed there is none.
pub fn file<I: Read, W: Write>(input: &mut I, out: &mut W, piece: &mut [u8]) -> Option<Hand>
    requires { length piece.old ≡ PIECE }
    ensures { FileInFront piece.new result }
{
    let Ok(all) = input::await_file(input, piece) else {
        output::failed_read(out);
        return None;
    };
    let from = came::file_in(&piece[0..all.end]);
    Some(Hand { from, end: all.end })
}

// The next event. Where there is none the program is over.
pub fn event<I: Read, W: Write>(
    input: &mut I,
    out: &mut W,
    piece: &mut [u8],
    hand: Hand,
) -> Option<Taking>
    requires { InHand (length piece.old) hand × (8 ≤ length piece.old) }
    ensures { EventBehind (bytes_of piece.old hand) piece.new result }
{
    match input::take_event(input, piece, hand) {
        Ok(Taken::Event(taking)) => Some(taking),
        Ok(Taken::End) => None,
        Ok(Taken::Leftover) => {
            output::refused(out, Refusal::Length);
            None
        }
        Err(_) => {
            output::failed_read(out);
            None
        }
    }
}

// How many nodes wait for the next event behind this verdict: none where a watch does not go on, or its line was not written.
pub fn waiting(written: bool, verdict: Verdict, nodes: usize) -> usize {
    if written && goes_on(verdict) {
        nodes
    } else {
        0
    }
}
