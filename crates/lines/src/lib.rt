// The lines, built as texts: fields parted by one space, and a line feed. Nothing here writes.
#![tactic(auto)]

ghost use Rattle.std.specs.Prelude.{◌≡◌, ◌++◌, ◌+◌, ◌≤◌, ◌^◌, [], length};
ghost use Rattle.lines.specs.Lines.{decimal_of, field_of, verdict_text, standing_line, progress_line, refused_line};

use answers::{Refusal, Verdict};

mod text_buffer;

pub use text_buffer::TextBuffer;

// Room for the longest line: a number of 20 digits, a verdict in 8 bytes, two further numbers in 21 bytes each, the line feed.
pub const LINE: usize = 71;

// The line of a watch: ticks, verdict, slots and nodes.
pub fn standing(ticks: u64, told: Verdict, slots: u64, nodes: u64) -> TextBuffer<LINE>
    ensures { result ≡ standing_line ticks told slots nodes }
{
    let mut line = TextBuffer::new();
    line.number(ticks);
    line.verdict(told);
    line.field(slots);
    line.field(nodes);
    line.put(b"\n");
    line
}

// The line of a rule in one place: ticks, verdict and nodes.
pub fn progress(ticks: u64, told: Verdict, nodes: u64) -> TextBuffer<LINE>
    ensures { result ≡ progress_line ticks told nodes }
{
    let mut line = TextBuffer::new();
    line.number(ticks);
    line.verdict(told);
    line.field(nodes);
    line.put(b"\n");
    line
}

// The last line after a refusal.
pub fn refused(refusal: Refusal) -> TextBuffer<LINE>
    ensures { result ≡ refused_line refusal }
{
    let mut line = TextBuffer::new();
    line.put(b"refused");
    line.field(u64::from(u32::from(refusal)));
    line.put(b"\n");
    line
}
