// The last line after a refusal, or where something failed.
ghost use Rattle.std.specs.Prelude.{◌≡◌, ◌++◌, ◌+◌, ◌≤◌, length};
ghost use Rattle.wording.specs.Refusals.{refused_text, refused_words, no_rule, shown_most, shown_name, about_file, about_most, refused_file, about_run, no_run, clash_line, refused_event, no_board, failed_text};

use answers::Refusal;
use lines::TextBuffer;
use pointing::shown;

// The most bytes of a name or an argument that are shown.
const SHOWN_MOST: usize = 200;

// Room for the longest line that the program writes; a line with words of any length has a room of its own.
pub const REFUSAL_ROOM: usize = 320;

// Puts the word and the number.
fn put_number<const N: usize>(line: &mut TextBuffer<N>, refusal: Refusal)
    requires { length line.old + 28 ≤ N }
    ensures number { line.new ≡ line.old ++ refused_text refusal }
    ensures few { length line.new ≤ length line.old + 28 }
{
    line.put(b"refused");
    line.field(u64::from(u32::from(refusal)));
}

// A refusal, in words.
pub fn refused<const N: usize>(refusal: Refusal, words: &[u8]) -> TextBuffer<N>
    requires { 31 + length words.now ≤ N }
    ensures { result ≡ refused_words refusal words.now }
{
    let mut line = TextBuffer::new();
    put_number(&mut line, refusal);
    line.put(b": ");
    line.put(words);
    line.put(b"\n");
    line
}

// A text that is no rule, with the place.
pub fn no_rule(row: u64, byte: u64) -> TextBuffer<REFUSAL_ROOM>
    ensures { result ≡ no_rule row byte }
{
    let mut line = TextBuffer::new();
    put_number(&mut line, Refusal::Text);
    line.put(b": line");
    line.field(row);
    line.put(b", byte");
    line.field(byte);
    line.put(b": not a rule\n");
    line
}

// Puts an argument or a name as it is shown, cut where it is very long.
#[tactic(auto, using(std::proofs::lemmas::List::take_min))]
fn put_name<const N: usize>(line: &mut TextBuffer<N>, name: &[u8])
    requires { length line.old + shown_most ≤ N }
    ensures name { line.new ≡ line.old ++ shown_name name.now }
    ensures few { length line.new ≤ length line.old + shown_most }
{
    let n = SHOWN_MOST.min(name.len());
    shown::put_shown(line, &name[..n]);
}

// Puts the word, the number and the name of a file.
fn put_about<const N: usize>(line: &mut TextBuffer<N>, refusal: Refusal, name: &[u8])
    requires { length line.old + about_most ≤ N }
    ensures about { line.new ≡ line.old ++ about_file refusal name.now }
    ensures few { length line.new ≤ length line.old + about_most }
{
    put_number(line, refusal);
    line.put(b": ");
    put_name(line, name);
}

// A file that is refused, in words.
pub fn refused_file<const N: usize>(refusal: Refusal, name: &[u8], words: &[u8]) -> TextBuffer<N>
    requires { about_most + (3 + length words.now) ≤ N }
    ensures { result ≡ refused_file refusal name.now words.now }
{
    let mut line = TextBuffer::new();
    put_about(&mut line, refusal, name);
    line.put(b": ");
    line.put(words);
    line.put(b"\n");
    line
}

// Puts the same of a run that cannot be counted, and its place in the file.
fn put_run<const N: usize>(line: &mut TextBuffer<N>, name: &[u8], place: u64)
    requires { length line.old + (about_most + 26) ≤ N }
    ensures run { line.new ≡ line.old ++ about_run name.now place }
    ensures few { length line.new ≤ length line.old + (about_most + 26) }
{
    put_about(line, Refusal::Run, name);
    line.put(b": run");
    line.field(place);
}

// A run that cannot be counted, with the numbers that stand for its rule and its verdict.
pub fn no_run(name: &[u8], place: u64, rule: u64, verdict: u64) -> TextBuffer<REFUSAL_ROOM>
    ensures { result ≡ no_run name.now place rule verdict }
{
    let mut line = TextBuffer::new();
    put_run(&mut line, name, place);
    line.put(b": rule");
    line.field(rule);
    line.put(b", verdict");
    line.field(verdict);
    line.put(b"\n");
    line
}

// Two records of a recording that clash, with the place of the second.
pub fn clash(name: &[u8], place: u64) -> TextBuffer<REFUSAL_ROOM>
    ensures { result ≡ clash_line name.now place }
{
    let mut line = TextBuffer::new();
    put_about(&mut line, Refusal::Clash, name);
    line.put(b": record");
    line.field(place);
    line.put(b": the counter of the one before and another event\n");
    line
}

// An event that is refused, with its place in the first stretch, in words.
pub fn refused_event<const N: usize>(refusal: Refusal, place: u64, words: &[u8]) -> TextBuffer<N>
    requires { 80 + length words.now ≤ N }
    ensures { result ≡ refused_event refusal place words.now }
{
    let mut line = TextBuffer::new();
    put_number(&mut line, refusal);
    line.put(b": event");
    line.field(place);
    line.put(b" of the first stretch: ");
    line.put(words);
    line.put(b"\n");
    line
}

// An argument that is no board.
pub fn no_board(board: u64, arg: &[u8]) -> TextBuffer<REFUSAL_ROOM>
    ensures { result ≡ no_board board arg.now }
{
    let mut line = TextBuffer::new();
    line.put(b"refused: board");
    line.field(board);
    line.put(b": \"");
    put_name(&mut line, arg);
    line.put(b"\" is not a list of propositions\n");
    line
}

// What failed, without a line feed: why is told behind it.
pub fn failed<const N: usize>(doing: &[u8], name: &[u8]) -> TextBuffer<N>
    requires { shown_most + length doing.now ≤ N }
    ensures { result ≡ failed_text doing.now name.now }
{
    let mut line = TextBuffer::new();
    line.put(doing);
    put_name(&mut line, name);
    line
}
