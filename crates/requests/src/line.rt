// The line that answers a request: fields parted by one space, and a line feed, built as a text and written at once.
ghost use Rattle.std.specs.Prelude.{◌≡◌, ◌+◌, ◌≤◌, ◌∷◌, length, replicate};

use crate::{header, lent};
use answers::Refusal;
use lines::TextBuffer;
use std::io;
use std::io::Write;

// What a call has answered: 0 or the refusal's number, and the first `count` of the values; a refusal has them where bytes are no text,
// or a run is not known. A mend has also the hash of its marks, which stand nowhere else.
#[derive(Clone, Copy, Debug, PartialEq, Eq)]
pub struct Answered {
    pub number: u64,
    pub values: [u64; 4],
    pub count: usize,
    pub marks: u64,
}

impl Answered {
    // Accepted, without a value.
    pub fn done() -> Answered
        ensures { (result.number ≡ 0) × (result.values ≡ replicate 4 0) × (result.count ≡ 0) × (result.marks ≡ 0) }
    {
        Answered {
            number: 0,
            values: [0; 4],
            count: 0,
            marks: 0,
        }
    }

    // Accepted, with one value.
    pub fn one(value: u64) -> Answered
        ensures { (result.number ≡ 0) × (result.values ≡ value ∷ replicate 3 0) × (result.count ≡ 1) × (result.marks ≡ 0) }
    {
        Answered::accepted(1, [value, 0, 0, 0])
    }

    // Accepted, with the first `count` of the values.
    pub fn accepted(count: usize, values: [u64; 4]) -> Answered
        ensures { (result.number ≡ 0) × (result.values ≡ values) × (result.count ≡ count) × (result.marks ≡ 0) }
    {
        Answered {
            values,
            count,
            ..Answered::done()
        }
    }

    pub fn refused(refusal: Refusal) -> Answered {
        Answered {
            number: u64::from(u32::from(refusal)),
            ..Answered::done()
        }
    }

    // Bytes that are no text, with the place.
    pub fn no_text(line: u64, byte: u64) -> Answered {
        Answered {
            values: [line, byte, 0, 0],
            count: 2,
            ..Answered::refused(Refusal::Text)
        }
    }

    // A run that is not known, with its place.
    pub fn no_run(place: u64) -> Answered {
        Answered {
            values: [place, 0, 0, 0],
            count: 1,
            ..Answered::refused(Refusal::Run)
        }
    }
}

// Room for nine numbers of 20 digits, more than any line has, each with the space in front of the next or the line feed.
const LINE: usize = 189;

// The number and the values.
fn begun(answered: Answered) -> TextBuffer<LINE>
    ensures { length result ≤ 104 }
{
    let mut line = TextBuffer::new();
    line.number(answered.number);
    for (i, value) in answered.values.iter().enumerate() {
        if i < answered.count {
            line.field(*value);
        }
    }
    line
}

// The hashes of what was lent to the call, and the line feed.
fn put_hashes(
    line: &mut TextBuffer<LINE>,
    call: u32,
    numbers: u64,
    kept: u64,
    fresh: u64,
    marks: u64,
)
    requires { length line.old ≤ 104 }
{
    if header::lends_numbers(call) {
        line.field(numbers);
    }
    if header::lends_kept(call) {
        line.field(kept);
    }
    if header::lends_fresh(call) {
        line.field(fresh);
    }
    if header::lends_marks(call) {
        line.field(marks);
    }
    line.put(b"\n");
}

pub fn write<W: Write>(
    out: &mut W,
    call: u32,
    answered: Answered,
    numbers: &[u64],
    kept: &[u8],
    fresh: &[u8],
) -> io::Result<()> {
    let mut line = begun(answered);
    put_hashes(
        &mut line,
        call,
        lent::hash_masks(numbers),
        lent::hash_bytes(kept),
        lent::hash_bytes(fresh),
        answered.marks,
    );
    out.write_all(line.bytes())
}

// The last line, behind a request that is none.
pub fn write_bad<W: Write>(out: &mut W) -> io::Result<()> {
    out.write_all(b"bad request\n")
}
