// The header: the counts, the places of the parts, and the ticks.
ghost use Rattle.std.specs.Prelude.{◌≡◌, ◌++◌, ◌+◌, ◌≤◌, length, drop};
ghost use Rattle.limits.specs.Limits.{boards_most, nodes_room};
ghost use Rattle.state.specs.Form.{form_in, slots_most, boards_at, slots_at, Formed};
ghost use Rattle.state.specs.Fields.{ticks_in};
ghost use Rattle.state.specs.Clauses.{places_ok};
ghost use Rattle.state.specs.Bytes.{state_header, board_records};
ghost use Rattle.state.specs.Counted.{Header};

use crate::boards::put_boards;
use crate::slots::rows;
use crate::{BOARDS_AT, Counts, Form};

// The header's counts.
pub fn counts_of(s: &[u8]) -> Counts
    requires { Formed s.now }
    ensures { Header s.now result }
{
    let boards = le::u16_at(s, 0) as usize;
    let slots = le::u16_at(s, 2) as usize;
    let form = Form::from(s.len());
    let records = form.board_at(boards);
    Counts {
        boards,
        slots,
        nodes: le::u16_at(s, 4) as usize,
        records,
        stretches: records + rows(slots),
    }
}

// The places in the header are those that its counts give.
pub fn places_ok(s: &[u8], c: Counts) -> bool
    requires { Formed s.now × Header s.now c }
    ensures { result ≡ places_ok s.now }
{
    if le::u16_at(s, 6) as usize != BOARDS_AT {
        return false;
    }
    if le::u16_at(s, 8) as usize != c.records {
        return false;
    }
    le::u16_at(s, 10) as usize == c.stretches
}

// The closed ticks.
pub fn ticks_of(s: &[u8]) -> u32
    requires { Formed s.now }
    ensures { result ≡ ticks_in s.now }
{
    le::u32_at(s, 12)
}

// Puts the header of so many slots and nodes, and the records of boards that have not sampled. Answers where the slots' records begin.
pub fn put_front(s: &mut [u8], masks: &[u64], slots: usize, nodes: usize, ticks: u32) -> usize
    requires { Formed s.old × (length masks.now ≤ boards_most) × (slots ≤ slots_most (form_in s.old)) × (nodes ≤ nodes_room) }
    ensures { (result ≡ slots_at (form_in s.old) (length masks.now)) × (s.new ≡ (state_header (form_in s.old) (length masks.now) slots nodes ticks ++ board_records (form_in s.old) masks.now) ++ drop (slots_at (form_in s.old) (length masks.now)) s.old) }
{
    let b = masks.len();
    let form = Form::from(s.len());
    let records = form.board_at(b);
    le::put_header(
        s,
        b as u16,
        slots as u16,
        nodes as u16,
        BOARDS_AT as u16,
        records as u16,
        (records + rows(slots)) as u16,
        ticks,
    );
    put_boards(&mut s[BOARDS_AT..], form, masks);
    records
}
