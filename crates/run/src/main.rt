// The run program: reads a rule file and then events of 8 bytes from standard input, and writes a line `TICKS VERDICT SLOTS NODES`
// for the load and for each close, until a verdict or the input's end. A refusal, of a call or of the input, is a last line
// `refused N`, and a read that fails a last line `failed read`. Where a line cannot be written the program ends at once.
#![tactic(auto)]

ghost use Rattle.std.specs.Prelude.{◌≡◌, ◌≤◌, length};
ghost use Rattle.programs.specs.Hand.{InHand};

use answers::Refusal;
use capturing::Captured;
use programs::input::{Hand, PIECE};
use programs::turns::Turned;
use programs::{output, turns};
use state::STATE_ROOM;
use std::io::{Read, Write};

// A tick a turn. The state counts ticks in 32 bits, so the last of these ticks is refused at the latest.
const TURNS: u64 = 4294967296;

// Writes the line for a state that was just loaded or closed. Answers how many nodes wait for the next event: none where the watch
// is over.
fn report<W: Write>(out: &mut W, state: &[u8]) -> usize {
    let answer = asking::ask(state);
    match answer {
        Err(refusal) => {
            output::refused(out, refusal);
            0
        }
        Ok(standing) => {
            let verdict = standing.verdict;
            let written = output::standing(
                out,
                standing.ticks as u64,
                verdict,
                standing.slots as u64,
                standing.nodes as u64,
            );
            turns::waiting(written, verdict, standing.nodes)
        }
    }
}

// Reports the state that an accepted call has left; none waits after a refusal.
fn report_after<W: Write>(out: &mut W, outcome: Result<(), Refusal>, state: &[u8]) -> usize {
    match outcome {
        Err(refusal) => {
            output::refused(out, refusal);
            0
        }
        Ok(()) => report(out, state),
    }
}

// Reports what a capture of one event has come to.
fn report_captured<W: Write>(
    out: &mut W,
    answer: Result<Captured, Refusal>,
    state: &[u8],
) -> usize {
    match answer {
        Err(refusal) => {
            output::refused(out, refusal);
            0
        }
        Ok(captured) => {
            let stop = captured.stop;
            report_after(out, stop, state)
        }
    }
}

// Takes an event and captures it: each close has its line, so one event at a time.
fn turn<I: Read, W: Write>(
    input: &mut I,
    out: &mut W,
    piece: &mut [u8],
    hand: Hand,
    state: &mut [u8],
    second: &mut [u8],
) -> Turned
    requires { InHand (length piece.old) hand × (8 ≤ length piece.old) }
    ensures { InHand (length piece.old) result.hand }
{
    let Some(taking) = turns::event(input, out, piece, hand) else {
        return Turned::over();
    };
    let rest = taking.rest;
    let events = [taking.event; 1];
    let answer = capturing::capture(state, second, &events);
    Turned {
        waiting: report_captured(out, answer, state),
        hand: rest,
    }
}

fn run<I: Read, W: Write>(
    input: &mut I,
    out: &mut W,
    piece: &mut [u8],
    behind: Hand,
    state: &mut [u8],
    nodes: usize,
    second: &mut [u8],
)
    requires { InHand (length piece.old) behind × (8 ≤ length piece.old) }
{
    let mut hand = behind;
    let mut waiting = nodes;
    for _ in 0..TURNS {
        if waiting == 0 {
            return;
        }
        let turned = turn(input, out, piece, hand, state, second);
        hand = turned.hand;
        waiting = turned.waiting;
    }
}

// The file is loaded from the front of the piece, behind which events may have come.
fn watch<I: Read, W: Write>(
    input: &mut I,
    out: &mut W,
    piece: &mut [u8],
    state: &mut [u8],
    second: &mut [u8],
)
    requires { length piece.old ≡ PIECE }
{
    let Some(behind) = turns::file(input, out, piece) else {
        return;
    };
    let length = behind.from;
    let outcome = loading::load(&piece[0..length], state);
    let waiting = report_after(out, outcome, state);
    run(input, out, piece, behind, state, waiting, second);
}

fn main(rt: HostRuntime) {
    let mut piece = [0u8; PIECE];
    let mut state = [0u8; STATE_ROOM];
    let mut second = [0u8; STATE_ROOM];
    watch(
        &mut rt.stdin(),
        &mut rt.stdout(),
        &mut piece,
        &mut state,
        &mut second,
    );
}
