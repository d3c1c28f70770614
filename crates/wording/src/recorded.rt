// The lines of a recording that was mended, and of the watch of its first stretch.
ghost use Rattle.std.specs.Prelude.{◌≡◌, ◌++◌, ◌+◌, ◌≤◌, length};
ghost use Rattle.lines.specs.Lines.{field_of};
ghost use Rattle.wording.specs.Recorded.{break_line, records_text, records_text_most, recording_line, ticks_text, ticks_most, watched_line};

use crate::accepted;
use answers::Verdict;
use lines::TextBuffer;

// Room for the longest of these lines.
pub const RECORDED_ROOM: usize = 192;

// Puts a text, and a number behind it.
fn put_field(line: &mut TextBuffer<RECORDED_ROOM>, text: &[u8], n: u64)
    requires { length line.old + (21 + length text.now) ≤ RECORDED_ROOM }
    ensures field { line.new ≡ line.old ++ (text.now ++ field_of n) }
    ensures few { length line.new ≤ length line.old + (21 + length text.now) }
{
    line.put(text);
    line.field(n);
}

// A break: the record behind it, the counter of the one before and its own.
pub fn broken(place: u64, before: u64, counter: u64) -> TextBuffer<RECORDED_ROOM>
    ensures { result ≡ break_line place before counter }
{
    let mut line = TextBuffer::new();
    put_field(&mut line, b"break before record", place);
    put_field(&mut line, b": counter", before);
    put_field(&mut line, b", then", counter);
    line.put(b"\n");
    line
}

// Puts how many records there were and how many were kept and dropped.
fn put_records(line: &mut TextBuffer<RECORDED_ROOM>, records: u64, kept: u64, dropped: u64)
    requires { length line.old + records_text_most ≤ RECORDED_ROOM }
    ensures records { line.new ≡ line.old ++ records_text records kept dropped }
    ensures few { length line.new ≤ length line.old + records_text_most }
{
    line.put(b"recording of ");
    accepted::put_counted(line, records, b"record");
    put_field(line, b":", kept);
    put_field(line, b" kept,", dropped);
}

// The line of a recording: its records, its breaks, and how many records are in its first stretch.
pub fn recording(
    records: u64,
    kept: u64,
    dropped: u64,
    breaks: u64,
    first: u64,
) -> TextBuffer<RECORDED_ROOM>
    ensures { result ≡ recording_line records kept dropped breaks first }
{
    let mut line = TextBuffer::new();
    put_records(&mut line, records, kept, dropped);
    line.put(b" dropped, ");
    accepted::put_counted(&mut line, breaks, b"break");
    put_field(&mut line, b",", first);
    line.put(b" in the first stretch\n");
    line
}

// Puts how many ticks of how many were closed.
fn put_ticks(line: &mut TextBuffer<RECORDED_ROOM>, closed: u64, ticks: u64)
    requires { length line.old + ticks_most ≤ RECORDED_ROOM }
    ensures ticks { line.new ≡ line.old ++ ticks_text closed ticks }
    ensures few { length line.new ≤ length line.old + ticks_most }
{
    put_field(line, b"watched", closed);
    line.put(b" of ");
    accepted::put_counted(line, ticks, b"tick");
}

// The line of a watch: how many ticks of the first stretch were closed, and what is known then.
pub fn watched(closed: u64, ticks: u64, verdict: Verdict) -> TextBuffer<RECORDED_ROOM>
    ensures { result ≡ watched_line closed ticks verdict }
{
    let mut line = TextBuffer::new();
    put_ticks(&mut line, closed, ticks);
    line.put(b" of the first stretch:");
    line.verdict(verdict);
    line.put(b"\n");
    line
}
