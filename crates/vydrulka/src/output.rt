// What is written: the result to standard output, at once, and lines for people to standard error. A line that cannot be written is
// lost: there is nobody left to tell.
ghost use Rattle.std.specs.Prelude.{◌≤◌, length};

use answers::{Refusal, Verdict};
use cursor::TextCursor;
use std::io;
use wording::refusals::REFUSAL_ROOM;
use wording::{accepted, recorded, refusals};

// Writes to standard error.
fn tell(rt: HostRuntime, bytes: &[u8]) {
    let _ = rt.stderr().write_all(bytes);
}

// Every word with its arguments.
pub fn usage(rt: HostRuntime) {
    tell(
        rt,
        b"usage: vydrulka rule TEXT BOARD..      writes the rule file of the rule typed in TEXT\n",
    );
    tell(
        rt,
        b"       vydrulka text RULE              prints the text and the boards of a rule file\n",
    );
    tell(
        rt,
        b"       vydrulka report NIGHT..         prints the report of some nights' runs as a table\n",
    );
    tell(
        rt,
        b"       vydrulka csv NIGHT..            prints it as comma-separated values\n",
    );
    tell(
        rt,
        b"       vydrulka mend RECORDING         writes the recording without its doubled records\n",
    );
    tell(
        rt,
        b"       vydrulka watch RULE RECORDING   watches the recording up to its first break\n",
    );
    tell(
        rt,
        b"A file named - is standard input. A board is its propositions, as p0,p2, or - for none.\n",
    );
}

// The whole result: whether it was written.
pub fn result(rt: HostRuntime, bytes: &[u8]) -> bool {
    match rt.stdout().write_all(bytes) {
        Ok(()) => true,
        Err(error) => {
            fail(rt, b"failed write", error);
            false
        }
    }
}

// What was written is a rule file.
pub fn rule(rt: HostRuntime, nodes: u64, propositions: u64, boards: u64, length: u64) {
    tell(
        rt,
        accepted::rule(nodes, propositions, boards, length).bytes(),
    );
}

// What was written is the page of a report.
pub fn report(rt: HostRuntime, runs: u64, rules: u64, nights: u64) {
    tell(rt, accepted::report(runs, rules, nights).bytes());
}

// The result is the line of a watch: whether it was written.
pub fn standing(rt: HostRuntime, ticks: u64, verdict: Verdict, slots: u64, nodes: u64) -> bool {
    result(rt, lines::standing(ticks, verdict, slots, nodes).bytes())
}

// ---- recordings
// A break, by the record behind it.
pub fn broken(rt: HostRuntime, place: u64, before: u64, counter: u64) {
    tell(rt, recorded::broken(place, before, counter).bytes());
}

// A recording was mended.
pub fn recording(rt: HostRuntime, records: u64, kept: u64, dropped: u64, breaks: u64, first: u64) {
    tell(
        rt,
        recorded::recording(records, kept, dropped, breaks, first).bytes(),
    );
}

// Its first stretch was watched.
pub fn watched(rt: HostRuntime, closed: u64, ticks: u64, verdict: Verdict) {
    tell(rt, recorded::watched(closed, ticks, verdict).bytes());
}

// ---- refusals
// A refusal, in words.
pub fn refused(rt: HostRuntime, refusal: Refusal, words: &[u8])
    requires { length words.now ≤ 100 }
{
    tell(
        rt,
        refusals::refused::<REFUSAL_ROOM>(refusal, words).bytes(),
    );
}

// The same of a file.
pub fn refused_file(rt: HostRuntime, refusal: Refusal, name: &[u8], words: &[u8])
    requires { length words.now ≤ 80 }
{
    tell(
        rt,
        refusals::refused_file::<REFUSAL_ROOM>(refusal, name, words).bytes(),
    );
}

// A run that cannot be counted.
pub fn no_run(rt: HostRuntime, name: &[u8], place: u64, rule: u64, verdict: u64) {
    tell(rt, refusals::no_run(name, place, rule, verdict).bytes());
}

// Two records of a recording that clash.
pub fn clash(rt: HostRuntime, name: &[u8], place: u64) {
    tell(rt, refusals::clash(name, place).bytes());
}

// An event of the first stretch that is refused.
pub fn refused_event(rt: HostRuntime, refusal: Refusal, place: u64, words: &[u8])
    requires { length words.now ≤ 100 }
{
    tell(
        rt,
        refusals::refused_event::<REFUSAL_ROOM>(refusal, place, words).bytes(),
    );
}

// A text that is no rule: the line in which the place is, the mark below it, and the refusal.
pub fn no_rule(rt: HostRuntime, text: &[u8], place: TextCursor) {
    tell(rt, pointing::put(text, place.byte).bytes());
    tell(
        rt,
        refusals::no_rule(place.line as u64, place.byte as u64).bytes(),
    );
}

// An argument that is no board.
pub fn no_board(rt: HostRuntime, board: u64, arg: &[u8]) {
    tell(rt, refusals::no_board(board, arg).bytes());
}

// ---- failures
// What failed, and what the system says of the error, without its number.
fn fail(rt: HostRuntime, what: &[u8], error: io::Error) {
    tell(rt, what);
    tell(rt, b": ");
    if let Ok(text) = error.to_string(rt.alloc()) {
        let said = text.as_str();
        match said.split_once(" (os error ") {
            Some((words, _)) => tell(rt, words.as_bytes()),
            None => tell(rt, said.as_bytes()),
        }
    }
    tell(rt, b"\n");
}

// The same of a file.
pub fn failed(rt: HostRuntime, doing: &[u8], name: &[u8], error: io::Error)
    requires { length doing.now ≤ 100 }
{
    fail(
        rt,
        refusals::failed::<REFUSAL_ROOM>(doing, name).bytes(),
        error,
    );
}

// A text that there is no room for.
pub fn too_long(rt: HostRuntime) {
    tell(rt, b"failed read: a text of more than 1,048,576 bytes\n");
}

// A recording that there is no room for.
pub fn too_many_records(rt: HostRuntime) {
    tell(
        rt,
        b"failed read: a recording of more than 100,000 records\n",
    );
}
