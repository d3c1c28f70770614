// A board's text read as its mask, byte by byte.
ghost use Rattle.std.specs.Prelude.{◌≡◌, ◌≤◌};
ghost use Rattle.spelling.specs.Typed.{TypedAs};
ghost use Rattle.spelling.specs.Reading.{digit_of, with_name, behind, at_name, at_first, second_digit, at_second, at_full, turned, ended, spelled, at_start, is_dash};

use limits::PROPOSITIONS_MOST;

// What must come next: a name, the first digit of a number, what may follow one digit, what may follow two. Nothing follows what is
// wrong.
#[derive(Clone, Copy)]
pub enum NameStage {
    Name,
    First,
    Second(u64),
    Full(u64),
    Wrong,
}

// How far a list is read: what must come next, and the mask of the names before.
#[derive(Clone, Copy)]
pub struct ListRead {
    pub stage: NameStage,
    pub mask: u64,
}

// A digit's value, and 10 of a byte that is none, as the definition of the same name has it.
#[tactic(auto, unfolding(crate::specs::Reading::digit_of, lists::specs::Tests::pick))]
fn digit(c: u8) -> u64
    ensures { (result ≡ digit_of c) × (result ≤ 10) }
{
    if c.is_ascii_digit() {
        u64::from(c - b'0')
    } else {
        10
    }
}

// The mask with a proposition more, where there is one of this number.
#[tactic(auto, using(masks::proofs::Bits::one_shifted), unfolding(crate::specs::Reading::with_name, lists::specs::Tests::pick))]
fn with_name(mask: u64, number: u64) -> Option<u64>
    ensures { result ≡ with_name mask number }
{
    if number < PROPOSITIONS_MOST as u64 {
        Some(mask | 1 << number)
    } else {
        None
    }
}

// Behind the comma that follows a name.
fn behind_comma(mask: u64, number: u64) -> ListRead
    ensures { result ≡ behind mask (with_name mask number) }
{
    match with_name(mask, number) {
        Some(mask) => ListRead {
            stage: NameStage::Name,
            mask,
        },
        None => ListRead {
            stage: NameStage::Wrong,
            mask,
        },
    }
}

#[tactic(auto, unfolding(lists::specs::Tests::pick))]
fn at_name(c: u8, mask: u64) -> ListRead
    ensures { result ≡ at_name c mask }
{
    let stage = if c == b'p' {
        NameStage::First
    } else {
        NameStage::Wrong
    };
    ListRead { stage, mask }
}

#[tactic(auto, unfolding(lists::specs::Tests::pick))]
fn at_first(c: u8, mask: u64) -> ListRead
    ensures { result ≡ at_first c mask }
{
    let d = digit(c);
    let stage = if d < 10 {
        NameStage::Second(d)
    } else {
        NameStage::Wrong
    };
    ListRead { stage, mask }
}

// A number of two digits begins with 1 to 9.
#[tactic(auto, unfolding(lists::specs::Tests::pick, lists::specs::Tests::both))]
fn second_digit(c: u8, number: u64) -> NameStage
    ensures { result ≡ second_digit c number }
{
    let d = digit(c);
    if 1 <= number && number <= 9 && d < 10 {
        NameStage::Full(10 * number + d)
    } else {
        NameStage::Wrong
    }
}

#[tactic(auto, unfolding(lists::specs::Tests::pick))]
fn at_second(c: u8, number: u64, mask: u64) -> ListRead
    ensures { result ≡ at_second c number mask }
{
    if c == b',' {
        behind_comma(mask, number)
    } else {
        ListRead {
            stage: second_digit(c, number),
            mask,
        }
    }
}

#[tactic(auto, unfolding(lists::specs::Tests::pick))]
fn at_full(c: u8, number: u64, mask: u64) -> ListRead
    ensures { result ≡ at_full c number mask }
{
    if c == b',' {
        behind_comma(mask, number)
    } else {
        ListRead {
            stage: NameStage::Wrong,
            mask,
        }
    }
}

// A byte more.
fn turn(c: u8, before: ListRead) -> ListRead
    ensures { result ≡ turned c before.stage before.mask }
{
    match before.stage {
        NameStage::Name => at_name(c, before.mask),
        NameStage::First => at_first(c, before.mask),
        NameStage::Second(number) => at_second(c, number, before.mask),
        NameStage::Full(number) => at_full(c, number, before.mask),
        NameStage::Wrong => before,
    }
}

// The end of the text.
fn end(last: ListRead) -> Option<u64>
    ensures { result ≡ ended last.stage last.mask }
{
    match last.stage {
        NameStage::Second(number) | NameStage::Full(number) => with_name(last.mask, number),
        NameStage::Name | NameStage::First | NameStage::Wrong => None,
    }
}

// A list of names.
fn list(text: &[u8]) -> Option<u64>
    ensures { result ≡ spelled text.now at_start }
{
    let mut reached = ListRead {
        stage: NameStage::Name,
        mask: 0,
    };
    for c in text {
        reached = turn(*c, reached);
    }
    end(reached)
}

fn is_dash(text: &[u8]) -> bool
    ensures { result ≡ is_dash text.now }
{
    text == b"-".as_slice()
}

// The board that a text is, of any bytes: the mask that it sees, or none where it is no board.
pub fn board(text: &[u8]) -> Option<u64>
    ensures { TypedAs text.now result }
{
    if is_dash(text) { Some(0) } else { list(text) }
}
