// The slots' records: a board, a mark, and where the slot's nodes lie.
ghost use Rattle.std.specs.Prelude.{◌≡◌, ◌++◌, ◌+◌, ◌*◌, ◌<◌, ◌≤◌, length, drop, set};
ghost use Rattle.le.specs.Le.{le};
ghost use Rattle.state.specs.Form.{slot_row, slot_rows};
ghost use Rattle.state.specs.Fields.{board_of_in, stepped_in, start_in, length_in, stretch_end};
ghost use Rattle.state.specs.Bytes.{slot_record};
ghost use Rattle.state.specs.Writes.{put_at};
ghost use Rattle.state.specs.Counted.{Sized, InStretch, Spans, record_of};

use crate::{Counts, SLOT_ROW};

// Where a slot's nodes lie in the state.
#[derive(Clone, Copy)]
pub struct Span {
    pub from: usize,
    pub to: usize,
}

// The length of n slots' records.
pub fn rows(n: usize) -> usize
    requires { n < 65536 }
    ensures { result ≡ slot_rows n }
{
    SLOT_ROW * n
}

// Slot k's board.
pub fn board_of(s: &[u8], c: Counts, k: usize) -> u8
    requires { Sized s.now c × (k < c.slots) }
    ensures { result ≡ board_of_in s.now k }
{
    s[c.records + SLOT_ROW * k]
}

// Slot k's mark: whether it is stepped, as the byte has it.
pub fn mark_of(s: &[u8], c: Counts, k: usize) -> u8
    requires { Sized s.now c × (k < c.slots) }
    ensures { result ≡ stepped_in s.now k }
{
    s[c.records + SLOT_ROW * k + 1]
}

// Where slot k's stretch begins.
pub fn start_of(s: &[u8], c: Counts, k: usize) -> usize
    requires { Sized s.now c × (k < c.slots) }
    ensures { (result ≡ start_in s.now k) × (result < 65536) }
{
    le::u16_at(s, c.records + SLOT_ROW * k + 2) as usize
}

// How many nodes slot k has.
pub fn length_of(s: &[u8], c: Counts, k: usize) -> usize
    requires { Sized s.now c × (k < c.slots) }
    ensures { (result ≡ length_in s.now k) × (result < 65536) }
{
    le::u16_at(s, c.records + SLOT_ROW * k + 4) as usize
}

// Where slot k's stretch ends: at the next slot's start, the last slot's at the number of nodes.
pub fn stretch_end(s: &[u8], c: Counts, k: usize) -> usize
    requires { Sized s.now c × (k < c.slots) }
    ensures { (result ≡ stretch_end s.now k) × (result < 65536) }
{
    let next = k + 1;
    if next < c.slots {
        return start_of(s, c, next);
    }
    c.nodes
}

// Where slot k's nodes lie.
pub fn span_of(s: &[u8], c: Counts, k: usize) -> Span
    requires { Sized s.now c × (k < c.slots) × InStretch s.now k }
    ensures { Spans s.now k result.from result.to }
{
    let from = c.stretches + start_of(s, c, k);
    Span {
        from,
        to: from + length_of(s, c, k),
    }
}

// Marks slot k as stepped.
pub fn put_mark(s: &mut [u8], c: Counts, k: usize)
    requires { record_of c k + slot_row ≤ length s.old }
    ensures { s.new ≡ set s.old (record_of c k + 1) 1 }
{
    s[c.records + SLOT_ROW * k + 1] = 1;
}

// Puts how many nodes slot k has.
pub fn put_length(s: &mut [u8], c: Counts, k: usize, n: u16)
    requires { record_of c k + slot_row ≤ length s.old }
    ensures { s.new ≡ put_at (record_of c k + 4) (le 2 n) s.old }
{
    le::put_u16(s, c.records + SLOT_ROW * k + 4, n);
}

// The record of a slot that is not stepped, at the front of r.
pub fn put_record(r: &mut [u8], board: u8, start: u16, n: u16)
    requires { slot_row ≤ length r.old }
    ensures { r.new ≡ slot_record board start n ++ drop slot_row r.old }
{
    r[0] = board;
    r[1] = 0;
    le::put_u16(r, 2, start);
    le::put_u16(r, 4, n);
}
