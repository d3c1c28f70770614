// The word `text`: prints the text of a rule file, and a line for each board, as they are typed for the word `rule`.
ghost use Rattle.std.specs.Prelude.{◌≡◌, ◌≤◌, length};
ghost use Rattle.limits.specs.Limits.{boards_most, text_length};

use crate::input::FILE_AT;
use crate::rule_file::FILE_ROOM;
use crate::{input, output, rule_file};
use limits::{BOARDS_MOST, RULE_NODES_MOST, TEXT_LENGTH};
use lines::TextBuffer;
use wording::accepted;

// How many arguments there are: the program's name, the word and the file.
const ARGUMENTS: usize = 3;

// Room for the text, a line feed and the lines of sixteen boards, of 285 bytes each.
const PAGE: usize = 12753;

// Writes the text and a line for each board.
fn finish(rt: HostRuntime, masks: &[u64], text: &[u8])
    requires { (length text.now ≤ text_length) × (length masks.now ≤ boards_most) }
{
    let mut page = TextBuffer::<PAGE>::new();
    page.put(text);
    page.put(b"\n");
    accepted::put_boards(&mut page, masks);
    output::result(rt, page.bytes());
}

// Prints the formula. What `read` has accepted is always printed.
fn print(rt: HostRuntime, masks: &[u64], formula: &[u8])
    requires { length masks.now ≤ boards_most }
{
    let mut text = [0u8; TEXT_LENGTH];
    match printing::print(formula, &mut text) {
        Err(refusal) => rule_file::refused(rt, refusal, b""),
        Ok(length) => finish(rt, masks, &text[..length]),
    }
}

// Reads the rule from its file.
fn read(rt: HostRuntime, file: &[u8]) {
    let mut masks = [0u64; BOARDS_MOST];
    let mut formula = [0u8; RULE_NODES_MOST];
    let answer = reading::read(file, &mut masks, &mut formula);
    match answer {
        Err(refusal) => rule_file::refused(rt, refusal, b""),
        Ok(counts) => {
            let boards = counts.boards as usize;
            let nodes = counts.nodes as usize;
            print(rt, &masks[0..boards], &formula[0..nodes]);
        }
    }
}

// Runs the word, with so many arguments, the program's name and the word among them.
pub fn run(rt: HostRuntime, count: usize) {
    if count != ARGUMENTS {
        output::usage(rt);
        return;
    }
    let mut file = [0u8; FILE_ROOM];
    let Ok(n) = input::take(rt, FILE_AT, &mut file) else {
        return;
    };
    read(rt, &file[0..n]);
}
