// The input, read in pieces: one read takes whatever is there, up to the piece's end, and the events are taken from it one by one.
// No read is made while a whole event is in hand. A read that fails is told as such, also one that a signal broke off; it never
// looks like the end of the input.
ghost use Rattle.std.specs.Prelude.{◌≡◌, ◌≤◌, [], length, take};
ghost use Rattle.programs.specs.Hand.{InHand, bytes_of, CameBehind, TakenBehind};

use came::{EVENT, Next};
use rules::MASKS_AT;
use std::io;
use std::io::Read;

// The length of a piece.
pub const PIECE: usize = 4096;

// The bytes in hand: those of the piece from `from` on and before `end`.
#[derive(Clone, Copy, Debug, PartialEq, Eq)]
pub struct Hand {
    pub from: usize,
    pub end: usize,
}

impl Hand {
    pub fn empty() -> Hand
        ensures { (result.from ≡ 0) × (result.end ≡ 0) }
    {
        Hand { from: 0, end: 0 }
    }
}

// An event, and what is in hand behind it.
#[derive(Clone, Copy, Debug, PartialEq, Eq)]
pub struct Taking {
    pub event: u64,
    pub rest: Hand,
}

// What was taken from the input: three cases, of which an Option would lose one.
#[derive(Clone, Copy, Debug, PartialEq, Eq)]
pub enum Taken {
    Event(Taking),
    End,
    Leftover,
}

// Reads behind the first `had` bytes until so many are in hand as are wanted, or the input has ended.
fn fill<I: Read>(input: &mut I, piece: &mut [u8], had: usize, wanted: usize) -> io::Result<Hand>
    requires { (had ≤ length piece.old) × (wanted ≤ length piece.old) }
    ensures { CameBehind (take had piece.old) piece.new result }
{
    let mut end = had;
    // A `while`: a read brings as many bytes as there are, and none where the input has ended.
    while end < wanted {
        let got = input.read(&mut piece[end..])?;
        if got == 0 {
            break;
        }
        end += got;
    }
    Ok(Hand { from: 0, end })
}

// Reads until the file is in hand, in front of the piece, or cannot come any more: its header, and then as much as that tells.
pub fn await_file<I: Read>(input: &mut I, piece: &mut [u8]) -> io::Result<Hand>
    requires { length piece.old ≡ PIECE }
    ensures { CameBehind [] piece.new result }
{
    let header = fill(input, piece, 0, MASKS_AT)?;
    let total = came::told(&piece[0..header.end]);
    fill(input, piece, header.end, total)
}

// Reads only where no whole event is in hand, with what is there of one moved to the front.
fn await_event<I: Read>(input: &mut I, piece: &mut [u8], hand: Hand) -> io::Result<Hand>
    requires { InHand (length piece.old) hand × (8 ≤ length piece.old) }
    ensures { CameBehind (bytes_of piece.old hand) piece.new result }
{
    let rest = hand.end - hand.from;
    if EVENT <= rest {
        return Ok(hand);
    }
    buffers::slide(piece, hand.from, rest);
    fill(input, piece, rest, EVENT)
}

// Takes the next event.
pub fn take_event<I: Read>(input: &mut I, piece: &mut [u8], hand: Hand) -> io::Result<Taken>
    requires { InHand (length piece.old) hand × (8 ≤ length piece.old) }
    ensures { TakenBehind (bytes_of piece.old hand) piece.new result }
{
    let now = await_event(input, piece, hand)?;
    match came::next_in(&piece[now.from..now.end]) {
        Next::End => Ok(Taken::End),
        Next::Leftover => Ok(Taken::Leftover),
        Next::Event(event) => Ok(Taken::Event(Taking {
            event,
            rest: Hand {
                from: now.from + EVENT,
                end: now.end,
            },
        })),
    }
}
