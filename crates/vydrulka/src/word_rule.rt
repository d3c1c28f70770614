// The word `rule`: writes the rule file of a rule that is typed. The boards are the arguments behind the text's name.
ghost use Rattle.std.specs.Prelude.{◌<◌, ◌≤◌, length};
ghost use Rattle.limits.specs.Limits.{boards_most};

use crate::input::{FILE_AT, NAME_ROOM};
use crate::{input, output};
use answers::Refusal;
use limits::{BOARDS_MOST, RULE_NODES_MOST};
use parsing::ParseError;
use rules::FILE_MOST;
use spelling::typed;

// Where the boards begin among the arguments.
const BOARDS_AT: usize = 3;

// A text may have any length, but a program has room for so much. It reads one byte more, so that a longer one is never cut.
const TEXT_MOST: usize = 1048576;

const TEXT_ROOM: usize = 1048577;

// Board i. Where the argument is none that is told here.
fn take_board(rt: HostRuntime, i: usize) -> Option<u64>
    requires { i < boards_most }
{
    let mut arg = [0u8; NAME_ROOM];
    let n = input::argument(rt, BOARDS_AT + i, &mut arg);
    let board = typed::board(&arg[0..n]);
    if board.is_none() {
        output::no_board(rt, i as u64, &arg[0..n]);
    }
    board
}

// The masks of all boards: whether each argument is a board.
fn take_boards(rt: HostRuntime, masks: &mut [u64]) -> bool
    requires { length masks.old ≤ boards_most }
{
    for (i, mask) in masks.iter_mut().enumerate() {
        let Some(board) = take_board(rt, i) else {
            return false;
        };
        *mask = board;
    }
    true
}

// What `write` has refused. The text is a rule by then, and there are neither too few boards nor too many: what is wrong is the boards'
// propositions.
fn refused(rt: HostRuntime, refusal: Refusal) {
    match refusal {
        Refusal::Range => output::refused(rt, refusal, b"no board sees a proposition"),
        Refusal::Masks => output::refused(
            rt,
            refusal,
            b"a proposition on two boards, or a number left out",
        ),
        _ => output::refused(rt, refusal, b"a proposition that no board sees"),
    }
}

// Writes the rule file, and tells what it has.
fn write(rt: HostRuntime, masks: &[u64], formula: &[u8]) {
    let propositions = spelling::propositions(masks);
    let mut file = [0u8; FILE_MOST];
    let answer = writing::write(masks, propositions, formula, &mut file);
    match answer {
        Err(refusal) => refused(rt, refusal),
        Ok(length) => {
            if output::result(rt, &file[0..length]) {
                output::rule(
                    rt,
                    formula.len() as u64,
                    propositions,
                    masks.len() as u64,
                    length as u64,
                );
            }
        }
    }
}

// Reads the text as a rule. The formula's buffer has its length, so a refusal without a place is one of too many nodes.
fn parse(rt: HostRuntime, masks: &[u64], text: &[u8]) {
    let mut formula = [0u8; RULE_NODES_MOST];
    let answer = parsing::parse(text, &mut formula);
    match answer {
        Err(ParseError::Refused(refusal)) => output::refused(rt, refusal, b"more than 1,024 nodes"),
        Err(ParseError::NoText(place)) => output::no_rule(rt, text, place),
        Ok(nodes) => write(rt, masks, &formula[0..nodes]),
    }
}

// Reads the file with the text into the room.
fn read_into(rt: HostRuntime, masks: &[u64], room: &mut [u8]) {
    let Ok(n) = input::take(rt, FILE_AT, room) else {
        return;
    };
    if TEXT_MOST < n {
        output::too_long(rt);
        return;
    }
    parse(rt, masks, &room[0..n]);
}

// The room is made in a function of its own: it is too large to be looked at with what is done in it.
fn read(rt: HostRuntime, masks: &[u64]) {
    let mut room = [0u8; TEXT_ROOM];
    read_into(rt, masks, &mut room);
}

// Takes the boards, before the text is read.
fn run_on(rt: HostRuntime, masks: &mut [u64])
    requires { length masks.old ≤ boards_most }
{
    if take_boards(rt, masks) {
        read(rt, masks);
    }
}

// Runs the word, with so many arguments, the program's name and the word among them.
pub fn run(rt: HostRuntime, count: usize) {
    if count <= BOARDS_AT {
        output::usage(rt);
        return;
    }
    let boards = count - BOARDS_AT;
    if BOARDS_MOST < boards {
        output::refused(rt, Refusal::Range, b"more than 16 boards");
        return;
    }
    let mut masks = [0u64; BOARDS_MOST];
    run_on(rt, &mut masks[0..boards]);
}
