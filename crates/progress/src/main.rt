// Progresses a whole rule in one place: reads a rule file and then events of 8 bytes from standard input, and writes a line
// `TICKS VERDICT NODES` for the rule, its constants folded, and for each event, until a verdict or the input's end.
// A refusal, of a call or of the input, is a last line `refused N`, and a read that fails a last line `failed read`. Where a line
// cannot be written the program ends at once. Bits that are no proposition of the rule are ignored.
#![tactic(auto)]

ghost use Rattle.std.specs.Prelude.{◌≡◌, ◌≤◌, length};
ghost use Rattle.limits.specs.Limits.{central_nodes_most};
ghost use Rattle.programs.specs.Hand.{InHand};
ghost use Rattle.progress.specs.Before.{verdict_before, FoldsFirst, ProgressedFrom};

use answers::{Refusal, Verdict};
use central::Progress;
use limits::{BOARDS_MOST, CENTRAL_NODES_MOST, PROPOSITIONS_MOST, RULE_NODES_MOST};
use programs::input::{Hand, PIECE};
use programs::turns::Turned;
use programs::{output, turns};
use std::io::{Read, Write};

// Below this number two more ticks can be counted.
const TICKS_MOST: u64 = 18446744073709551614;

// The verdict before any event: only a rule that is folded to a constant has one.
fn verdict_before(first: u8, nodes: usize) -> Verdict
    ensures { result ≡ verdict_before first nodes }
{
    if nodes != 1 {
        return Verdict::Pending;
    }
    match first {
        0 => Verdict::False,
        1 => Verdict::True,
        _ => Verdict::Pending,
    }
}

// Folds the constants of the rule that the first `nodes` bytes of `held` are, as every call of `central` would. The folded rule takes its
// place; answers how many nodes it has. The bytes are always a rule, since `read` put it there; the tests spare a proof of that.
fn fold_first(held: &mut [u8], nodes: usize, output: &mut [u8]) -> usize
    requires { (length held.old ≡ central_nodes_most) × (length output.old ≡ central_nodes_most) }
    ensures { FoldsFirst held.old nodes held.new result }
{
    if held.len() < nodes {
        return nodes;
    }
    if !owing::is_rule(&held[0..nodes], PROPOSITIONS_MOST as u64) {
        return nodes;
    }
    let w = folding::fold(&held[0..nodes], output);
    buffers::copy(held, &output[w..]);
    output.len() - w
}

// Writes a tick's line. Answers how many nodes wait for the next event: none after a verdict, or where the line was not written.
fn report<W: Write>(out: &mut W, ticks: u64, verdict: Verdict, nodes: usize) -> usize {
    let written = output::progress(out, ticks, verdict, nodes as u64);
    turns::waiting(written, verdict, nodes)
}

// Progresses the formula that the first `nodes` bytes of `held` are. There are always so many, since `read` or `central` put
// the nodes there; the test spares a proof of that.
fn progressed(held: &[u8], nodes: usize, event: u64, output: &mut [u8]) -> Result<Progress, Refusal>
    ensures { ProgressedFrom held.now nodes event output.old output.new result }
{
    if held.len() < nodes {
        return Err(Refusal::Length);
    }
    central::central(&held[0..nodes], event, output)
}

// One tick, from one buffer to the other. Answers as `report` does, and none after a refusal.
fn tick<W: Write>(
    out: &mut W,
    held: &[u8],
    nodes: usize,
    event: u64,
    output: &mut [u8],
    ticks: u64,
) -> usize {
    let answer = progressed(held, nodes, event, output);
    match answer {
        Err(refusal) => {
            output::refused(out, refusal);
            0
        }
        Ok(progress) => {
            let verdict = progress.verdict;
            report(out, ticks, verdict, progress.length)
        }
    }
}

// Takes an event and ticks.
fn turn<I: Read, W: Write>(
    input: &mut I,
    out: &mut W,
    piece: &mut [u8],
    hand: Hand,
    held: &[u8],
    nodes: usize,
    output: &mut [u8],
    ticks: u64,
) -> Turned
    requires { InHand (length piece.old) hand × (8 ≤ length piece.old) }
    ensures { InHand (length piece.old) result.hand }
{
    let Some(taking) = turns::event(input, out, piece, hand) else {
        return Turned::over();
    };
    Turned {
        waiting: tick(out, held, nodes, taking.event, output, ticks),
        hand: taking.rest,
    }
}

// The buffers change places from tick to tick, so that no formula is copied: two ticks a turn.
// Nothing says that the input ends, so the loop does where no more ticks can be counted.
fn run<I: Read, W: Write>(
    input: &mut I,
    out: &mut W,
    piece: &mut [u8],
    behind: Hand,
    held: &mut [u8],
    nodes: usize,
    output: &mut [u8],
)
    requires { InHand (length piece.old) behind × (8 ≤ length piece.old) }
{
    let mut hand = behind;
    let mut waiting = nodes;
    let mut ticks: u64 = 0;
    // A `while`: the ticks go up by two a turn.
    while ticks < TICKS_MOST {
        if waiting == 0 {
            return;
        }
        let first = turn(input, out, piece, hand, held, waiting, output, ticks + 1);
        if first.waiting == 0 {
            return;
        }
        let then = turn(
            input,
            out,
            piece,
            first.hand,
            output,
            first.waiting,
            held,
            ticks + 2,
        );
        hand = then.hand;
        waiting = then.waiting;
        ticks += 2;
    }
}

// The file is read from the front of the piece, behind which events may have come, and the rule into the front of the buffer from
// which the first tick takes it.
fn watch<I: Read, W: Write>(
    input: &mut I,
    out: &mut W,
    piece: &mut [u8],
    masks: &mut [u64],
    held: &mut [u8],
    output: &mut [u8],
)
    requires piece_whole { length piece.old ≡ PIECE }
    requires held_whole { length held.old ≡ CENTRAL_NODES_MOST }
    requires output_whole { length output.old ≡ CENTRAL_NODES_MOST }
{
    let Some(behind) = turns::file(input, out, piece) else {
        return;
    };
    let length = behind.from;
    let answer = reading::read(&piece[0..length], masks, &mut held[0..RULE_NODES_MOST]);
    match answer {
        Err(refusal) => output::refused(out, refusal),
        Ok(counts) => {
            let nodes = fold_first(held, counts.nodes as usize, output);
            let waiting = report(out, 0, verdict_before(held[0], nodes), nodes);
            run(input, out, piece, behind, held, waiting, output);
        }
    }
}

fn main(rt: HostRuntime) {
    let mut piece = [0u8; PIECE];
    let mut masks = [0u64; BOARDS_MOST];
    let mut held = [0u8; CENTRAL_NODES_MOST];
    let mut output = [0u8; CENTRAL_NODES_MOST];
    watch(
        &mut rt.stdin(),
        &mut rt.stdout(),
        &mut piece,
        &mut masks,
        &mut held,
        &mut output,
    );
}
