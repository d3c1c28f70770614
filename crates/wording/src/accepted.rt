// The lines of a rule or a report that was accepted.
ghost use Rattle.std.specs.Prelude.{◌≡◌, ◌++◌, ◌+◌, ◌*◌, ◌≤◌, length};
ghost use Rattle.wording.specs.Accepted.{counted_text, sizes_text, rule_line, report_line, board_line, board_lines, board_line_most};

use lines::TextBuffer;
use spelling::shown;

// Room for the line of a rule or a report.
pub const ACCEPTED_ROOM: usize = 128;

// Puts a number of things, of which the noun is for one.
#[tactic(auto, unfolding(crate::specs::Accepted::counted_text, lists::specs::Tests::pick))]
pub fn put_counted<const N: usize>(line: &mut TextBuffer<N>, n: u64, noun: &[u8])
    requires { length line.old + (22 + length noun.now) ≤ N }
    ensures counted { line.new ≡ line.old ++ counted_text n noun.now }
    ensures few { length line.new ≤ length line.old + (22 + length noun.now) }
{
    line.number(n);
    line.put(b" ");
    line.put(noun);
    if n != 1 {
        line.put(b"s");
    }
}

// Puts how many there are of two things, behind a word.
fn put_sizes(
    line: &mut TextBuffer<ACCEPTED_ROOM>,
    word: &[u8],
    m: u64,
    first: &[u8],
    n: u64,
    second: &[u8],
)
    requires { length line.old + (46 + (length word.now + length first.now + length second.now)) ≤ ACCEPTED_ROOM }
    ensures sizes { line.new ≡ line.old ++ sizes_text word.now m first.now n second.now }
    ensures few { length line.new ≤ length line.old + (46 + (length word.now + length first.now + length second.now)) }
{
    line.put(word);
    put_counted(line, m, first);
    line.put(b", ");
    put_counted(line, n, second);
}

// The line of a rule: what it has, and the length of its file.
pub fn rule(nodes: u64, propositions: u64, boards: u64, bytes: u64) -> TextBuffer<ACCEPTED_ROOM>
    ensures { result ≡ rule_line nodes propositions boards bytes }
{
    let mut line = TextBuffer::new();
    put_sizes(
        &mut line,
        b"rule of ",
        nodes,
        b"node",
        propositions,
        b"proposition",
    );
    line.put(b", ");
    put_counted(&mut line, boards, b"board");
    line.put(b": ");
    put_counted(&mut line, bytes, b"byte");
    line.put(b"\n");
    line
}

// The line of a report: what it has, and of how many nights it is.
pub fn report(runs: u64, rules: u64, nights: u64) -> TextBuffer<ACCEPTED_ROOM>
    ensures { result ≡ report_line runs rules nights }
{
    let mut line = TextBuffer::new();
    put_sizes(&mut line, b"report of ", runs, b"run", rules, b"rule");
    line.put(b", ");
    put_counted(&mut line, nights, b"night");
    line.put(b"\n");
    line
}

// Puts a board's line.
fn put_board<const N: usize>(page: &mut TextBuffer<N>, board: u64, mask: u64)
    requires { length page.old + board_line_most ≤ N }
    ensures board { page.new ≡ page.old ++ board_line board mask }
    ensures few { length page.new ≤ length page.old + board_line_most }
{
    page.put(b"board");
    page.field(board);
    page.put(b": ");
    shown::put(page, mask);
    page.put(b"\n");
}

// Puts a line for each board.
#[tactic(auto, using(crate::proofs::Boards::boards_more))]
pub fn put_boards<const N: usize>(page: &mut TextBuffer<N>, masks: &[u64])
    requires { length page.old + board_line_most * length masks.now ≤ N }
    ensures boards { page.new ≡ page.old ++ board_lines 0 masks.now }
    ensures few { length page.new ≤ length page.old + board_line_most * length masks.now }
{
    for (i, mask) in masks.iter().enumerate() {
        put_board(page, i as u64, *mask);
    }
}
