// A place in a text, for people: the line of the text in which it stands, and below that a line with a mark under the place. A line
// that is very long is cut to a window around the place, so that both lines fit a screen. Nothing here writes.
#![tactic(auto)]

pub mod shown;
pub mod window;

ghost use Rattle.pointing.specs.Points.{Points};

use lines::TextBuffer;

// Room for the two lines: a window, a line feed, what stands before the place, the mark and a line feed.
pub const POINT_ROOM: usize = 141;

// The two lines for a place of a text, which is its end where it has no such byte.
pub fn put(text: &[u8], place: usize) -> TextBuffer<POINT_ROOM>
    ensures { Points text.now place result }
{
    let at = place.min(text.len());
    let from = window::from(text, at);
    let to = window::to(text, at);
    let mut lines = TextBuffer::new();
    shown::put_shown(&mut lines, &text[from..to]);
    lines.put(b"\n");
    shown::put_under(&mut lines, &text[from..at]);
    lines.put(b"^\n");
    lines
}
