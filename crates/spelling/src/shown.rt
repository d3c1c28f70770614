// A mask put as the text that its board is typed as.
ghost use Rattle.std.specs.Prelude.{◌≡◌, ◌++◌, ◌+◌, ◌<◌, ◌≤◌, length};
ghost use Rattle.limits.specs.Limits.{propositions_most};
ghost use Rattle.spelling.specs.Typed.{name_of, list_text, seen_below, board_text};
ghost use Rattle.spelling.specs.Shown.{board_room, next_text};

use limits::PROPOSITIONS_MOST;
use lines::TextBuffer;

fn digit(n: u64) -> u8
    requires { n < 10 }
    ensures { result ≡ 48 + n }
{
    b'0' + n as u8
}

// Puts a proposition's name.
#[tactic(auto, unfolding(crate::specs::Typed::name_of, lists::specs::Tests::pick))]
fn put_name<const N: usize>(out: &mut TextBuffer<N>, number: u64)
    requires room { length out.old + 3 ≤ N }
    requires there { number < propositions_most }
    ensures name { out.new ≡ out.old ++ name_of number }
    ensures few { length out.new ≤ length out.old + 3 }
{
    if number < 10 {
        out.put(&[b'p', digit(number)]);
    } else {
        out.put(&[b'p', digit(number / 10), digit(number % 10)]);
    }
}

// Puts the name of a proposition, where the mask has it, in a list that began at `start`: behind a comma, unless it is the first.
#[tactic(auto, unfolding(crate::specs::Shown::next_text, lists::specs::Tests::pick, lists::specs::Tests::bit))]
fn put_next<const N: usize>(out: &mut TextBuffer<N>, start: usize, mask: u64, number: u64)
    requires room { length out.old + 4 ≤ N }
    requires there { number < propositions_most }
    ensures next { out.new ≡ out.old ++ next_text mask start (length out.old) number }
    ensures few { length out.new ≤ length out.old + 4 }
{
    if (mask >> number) % 2 == 1 {
        if out.bytes().len() != start {
            out.put(b",");
        }
        put_name(out, number);
    }
}

// Puts the propositions of a mask.
#[tactic(auto, using(crate::proofs::Showing::list_put))]
fn put_list<const N: usize>(out: &mut TextBuffer<N>, mask: u64)
    requires { length out.old + board_room ≤ N }
    ensures list { out.new ≡ out.old ++ list_text (seen_below mask propositions_most) }
    ensures few { length out.new ≤ length out.old + board_room }
{
    let start = out.bytes().len();
    for i in 0..PROPOSITIONS_MOST as u64 {
        put_next(out, start, mask, i);
    }
}

// Puts the text of a board that sees this mask.
#[tactic(auto, unfolding(crate::specs::Typed::board_text, lists::specs::Tests::pick))]
pub fn put<const N: usize>(out: &mut TextBuffer<N>, mask: u64)
    requires { length out.old + board_room ≤ N }
    ensures board { out.new ≡ out.old ++ board_text mask }
    ensures few { length out.new ≤ length out.old + board_room }
{
    if mask == 0 {
        out.put(b"-");
    } else {
        put_list(out, mask);
    }
}
