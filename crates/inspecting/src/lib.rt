// Whether bytes are a recording that can be mended: their length, the header's numbers, and that no record clashes with the one before it.
// Nothing is written here, so that what is refused is left as it was.
#![tactic(auto)]

ghost use Rattle.std.specs.Prelude.{◌≡◌, [], eqb, not, ◌<◌, ◌≤◌, ◌^◌, length};
ghost use Rattle.lists.specs.Tests.{either};
ghost use Rattle.answers.specs.Said.{accepted, said_outcome};
ghost use Rattle.recordings.specs.Recording.{records_at, recording_length, record_in, count_in, total_ok, header_ok};
ghost use Rattle.inspecting.specs.Looked.{same_by, clash_by, any_four, BesideAsk, FourAsk, ClearTo, LooksOver, inspect_says};

use answers::Refusal;
use recordings::{RECORD_LENGTH, RECORDS_AT};

// Whether there is a header, and as many bytes as it says.
#[tactic(auto, unfolding(recordings::specs::Recording::total_ok, lists::specs::Tests::both))]
pub fn total_fits(recording: &[u8]) -> bool
    ensures { result ≡ total_ok recording.now }
{
    RECORDS_AT <= recording.len() && le::u32_at(recording, 8) as usize == recording.len()
}

// How many records there are, by the header.
pub fn count_in(recording: &[u8]) -> usize
    requires { records_at ≤ length recording.now }
    ensures { (result ≡ count_in recording.now) × (result < 2 ^ 32) }
{
    le::u32_at(recording, 0) as usize
}

// Whether the numbers of the header agree.
#[tactic(auto, unfolding(recordings::specs::Recording::header_ok, lists::specs::Tests::both))]
pub fn header_fits(recording: &[u8]) -> bool
    requires { records_at ≤ length recording.now }
    ensures { result ≡ header_ok recording.now }
{
    let total = RECORDS_AT + RECORD_LENGTH * count_in(recording);
    le::u32_at(recording, 4) as usize == RECORDS_AT
        && le::u32_at(recording, 8) as usize == total
        && le::u32_at(recording, 12) == 0
}

// ---- clashes
// Whether record i has the counter of the one before it.
fn same_at(recording: &[u8], i: usize) -> bool
    requires { BesideAsk recording.now i }
    ensures { result ≡ same_by (record_in recording.now) i }
{
    let before = neighbours::counter_at(recording, i - 1);
    let counter = neighbours::counter_at(recording, i);
    neighbours::step(before, counter) == 0
}

// Whether it has that counter and another event. The events are read in any case: whether the counters are the same cannot be foreseen.
#[tactic(auto, unfolding(recordings::specs::Records::clashes, lists::specs::Tests::both))]
fn clash_at(recording: &[u8], i: usize) -> bool
    requires { BesideAsk recording.now i }
    ensures { result ≡ clash_by (record_in recording.now) i }
{
    let same = same_at(recording, i);
    let before = neighbours::event_at(recording, i - 1);
    let event = neighbours::event_at(recording, i);
    same & (event != before)
}

// The same of the four records from i on, at once. All four tests are made, so that there is nothing to foresee for a processor.
#[tactic(auto, unfolding(lists::specs::Tests::either))]
fn any_same(recording: &[u8], i: usize) -> bool
    requires { FourAsk recording.now i }
    ensures { result ≡ any_four (same_by (record_in recording.now)) i }
{
    let a = same_at(recording, i) | same_at(recording, i + 1);
    let b = same_at(recording, i + 2) | same_at(recording, i + 3);
    a | b
}

// The same with events. One function over the test would be no shorter: its contract would have to say what the test answers.
#[tactic(auto, unfolding(lists::specs::Tests::either))]
fn any_clash(recording: &[u8], i: usize) -> bool
    requires { FourAsk recording.now i }
    ensures { result ≡ any_four (clash_by (record_in recording.now)) i }
{
    let a = clash_at(recording, i) | clash_at(recording, i + 1);
    let b = clash_at(recording, i + 2) | clash_at(recording, i + 3);
    a | b
}

// Whether none of these four clashes with the one before it. Mostly no two counters are the same, and no event has to be looked at.
fn four_clear(recording: &[u8], i: usize) -> bool
    requires { FourAsk recording.now i }
    ensures { result ≡ not (any_four (clash_by (record_in recording.now)) i) }
{
    !any_same(recording, i) || !any_clash(recording, i)
}

// The place of the first of n records that clashes with the one before it, where those before `from` do not; n where none does.
fn clash_from(recording: &[u8], from: usize, n: usize) -> usize
    requires { ClearTo recording.now from × (recording_length n ≤ length recording.now) }
    ensures { LooksOver recording.now n result }
{
    for i in from..n {
        if clash_at(recording, i) {
            return i;
        }
    }
    n
}

// The same from the first record on: four at once, and one by one where fewer are left or one of the four has a clash.
pub fn first_clash(recording: &[u8], n: usize) -> usize
    requires { recording_length n ≤ length recording.now }
    ensures { LooksOver recording.now n result }
{
    let mut i = 1;
    // a `while`, since it goes on only as long as no clash is read, four records a turn
    while i + 4 <= n && four_clear(recording, i) {
        i += 4;
    }
    clash_from(recording, i, n)
}

// ---- all checks
// Whether a recording can be mended for whose records so many places are lent, or why not.
#[tactic(auto, using(crate::proofs::Inspects::header_there, crate::proofs::Inspects::total_wrong, crate::proofs::Inspects::places_wrong, crate::proofs::Inspects::header_wrong, crate::proofs::Inspects::records_there, crate::proofs::Inspects::clash_found, crate::proofs::Inspects::none_found))]
pub fn inspect(recording: &[u8], places: usize) -> Result<(), Refusal>
    ensures { said_outcome result ≡ inspect_says (eqb places (count_in recording.now)) recording.now (accepted []) }
{
    if !total_fits(recording) || count_in(recording) != places {
        return Err(Refusal::Length);
    }
    if !header_fits(recording) {
        return Err(Refusal::Offset);
    }
    if first_clash(recording, places) != places {
        return Err(Refusal::Clash);
    }
    Ok(())
}
