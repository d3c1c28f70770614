// What the bytes that came are: a rule file first, events of 8 bytes behind it. Nothing here reads.
#![tactic(auto)]

ghost use Rattle.std.specs.Prelude.{◌≡◌, ◌≤◌, length};
ghost use Rattle.rules.specs.RuleFile.{file_most};
ghost use Rattle.came.specs.Came.{told_length, file_length, next_in};

use rules::{FILE_MOST, MASKS_AT, TOTAL_AT};

// The length of an event.
pub const EVENT: usize = 8;

// What stands in front of the bytes in hand: nothing, too few bytes for an event, or an event. An Option would lose one of the three.
#[derive(Clone, Copy, Debug, PartialEq, Eq)]
pub enum Next {
    End,
    Leftover,
    Event(u64),
}

// The file's length by its header: 0 where the total cannot be, or the header is not whole.
#[tactic(auto, unfolding(crate::specs::Came::told_length, lists::specs::Tests::pick))]
pub fn told(bytes: &[u8]) -> usize
    ensures { (result ≡ told_length bytes.now) × (result ≤ file_most) }
{
    if bytes.len() < MASKS_AT {
        return 0;
    }
    let total = le::u32_at(bytes, TOTAL_AT) as usize;
    if MASKS_AT <= total && total <= FILE_MOST {
        total
    } else {
        0
    }
}

// The length of the file that the bytes begin with. Where they begin with none the answer is 0, a length that every call refuses.
#[tactic(auto, unfolding(crate::specs::Came::file_length, lists::specs::Tests::pick))]
pub fn file_in(bytes: &[u8]) -> usize
    ensures { (result ≡ file_length bytes.now) × (result ≤ length bytes.now) }
{
    let total = told(bytes);
    if total <= bytes.len() { total } else { 0 }
}

// What is next, once a whole event is in hand or no more bytes will come.
#[tactic(auto, unfolding(crate::specs::Came::next_in, lists::specs::Tests::pick))]
pub fn next_in(bytes: &[u8]) -> Next
    ensures { result ≡ next_in bytes.now }
{
    if bytes.is_empty() {
        Next::End
    } else if bytes.len() < EVENT {
        Next::Leftover
    } else {
        Next::Event(le::u64_at(bytes, 0))
    }
}
