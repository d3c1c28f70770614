// The state check's clauses on bytes alone: the header, the boards' records, the slots' records, and the zeros behind each slot and
// behind the nodes. Each function answers one clause of the definition.
#![tactic(auto)]

ghost use Rattle.std.specs.Prelude.{◌≡◌, true, ◌+◌, ◌<◌, ◌≤◌};
ghost use Rattle.lists.specs.Tests.{in_range};
ghost use Rattle.limits.specs.Limits.{boards_most};
ghost use Rattle.state.specs.Form.{Formed};
ghost use Rattle.state.specs.Fields.{start_in, length_in};
ghost use Rattle.state.specs.Clauses.{each_below, all_zero, header_ok, board_ok, record_ok, gap_ok, rest_ok};
ghost use Rattle.state.specs.Counted.{Header, Sized, InStretch};

use limits::BOARDS_MOST;
use state::{Counts, Form};

// Every byte is 0: so is their union. No byte ends the loop, so that the compiler takes many at once.
fn zeros(s: &[u8]) -> bool
    ensures { result ≡ all_zero s.now }
{
    s.iter().fold(0, |union, x| union | *x) == 0
}

// A count from 1 to the most.
#[tactic(auto, unfolding(lists::specs::Tests::both))]
fn in_range(n: usize, most: usize) -> bool
    ensures { result ≡ in_range most n }
{
    1 <= n && n <= most
}

// The counts are in range, and the places are theirs.
#[tactic(auto, unfolding(lists::specs::Tests::both, state::specs::Clauses::each_true, state::specs::Clauses::header_ok))]
pub fn header_ok(s: &[u8], c: Counts) -> bool
    requires { Formed s.now × Header s.now c }
    ensures { result ≡ header_ok s.now }
{
    let form = Form::from(s.len());
    in_range(c.boards, BOARDS_MOST)
        && in_range(c.slots, form.slots_most())
        && in_range(c.nodes, form.nodes_most())
        && state::places_ok(s, c)
}

// Board i's record: its flag, and its sample within its mask, 0 where it has not sampled.
#[tactic(auto, unfolding(lists::specs::Tests::both, lists::specs::Tests::either, state::specs::Clauses::board_ok))]
fn board_ok(s: &[u8], i: usize) -> bool
    requires { Formed s.now × (i < boards_most) }
    ensures { result ≡ board_ok s.now i }
{
    let mask = state::mask_of(s, i);
    let sample = state::sample_of(s, i);
    let sampled = state::sampled_of(s, i);
    sampled <= 1 && sample & mask == sample && (sampled == 1 || sample == 0)
}

#[tactic(auto, unfolding(lists::specs::Tests::both, state::specs::Clauses::each_below))]
pub fn boards_ok(s: &[u8], b: usize) -> bool
    requires { Formed s.now × (b ≤ boards_most) }
    ensures { result ≡ each_below b (board_ok s.now) }
{
    for i in 0..b {
        if !board_ok(s, i) {
            return false;
        }
    }
    true
}

// Where slot k's nodes end.
fn slot_end(s: &[u8], c: Counts, k: usize) -> usize
    requires { Sized s.now c × (k < c.slots) }
    ensures { (result ≡ start_in s.now k + length_in s.now k) × (result < 131072) }
{
    state::start_of(s, c, k) + state::length_of(s, c, k)
}

// Slot k's record: its board, its mark, and that it lies in its stretch, which it fills where it is not stepped.
#[tactic(auto, unfolding(lists::specs::Tests::both, lists::specs::Tests::either, state::specs::Clauses::record_ok))]
fn record_ok(s: &[u8], c: Counts, k: usize) -> bool
    requires { Sized s.now c × (k < c.slots) }
    ensures { result ≡ record_ok s.now k }
{
    let stepped = state::mark_of(s, c, k);
    let end = slot_end(s, c, k);
    let stretch = state::stretch_end(s, c, k);
    usize::from(state::board_of(s, c, k)) < c.boards
        && stepped <= 1
        && 1 <= state::length_of(s, c, k)
        && end <= stretch
        && (stepped == 1 || end == stretch)
}

#[tactic(auto, unfolding(lists::specs::Tests::both, state::specs::Clauses::each_below))]
pub fn records_ok(s: &[u8], c: Counts) -> bool
    requires { Sized s.now c }
    ensures { result ≡ each_below c.slots (record_ok s.now) }
{
    for k in 0..c.slots {
        if !record_ok(s, c, k) {
            return false;
        }
    }
    true
}

// The gap behind slot k in its stretch is zero.
fn gap_ok(s: &[u8], c: Counts, k: usize) -> bool
    requires { Sized s.now c × (k < c.slots) × InStretch s.now k }
    ensures { result ≡ gap_ok s.now k }
{
    let from = c.stretches + slot_end(s, c, k);
    let to = c.stretches + state::stretch_end(s, c, k);
    zeros(&s[from..to])
}

#[tactic(auto, unfolding(lists::specs::Tests::both, state::specs::Clauses::each_below))]
pub fn gaps_ok(s: &[u8], c: Counts) -> bool
    requires { Sized s.now c × (each_below c.slots (record_ok s.now) ≡ true) }
    ensures { result ≡ each_below c.slots (gap_ok s.now) }
{
    for k in 0..c.slots {
        if !gap_ok(s, c, k) {
            return false;
        }
    }
    true
}

// The bytes behind the nodes are zero.
pub fn rest_ok(s: &[u8], c: Counts) -> bool
    requires { Sized s.now c }
    ensures { result ≡ rest_ok s.now }
{
    let at = c.stretches + c.nodes;
    zeros(&s[at..])
}
