// The call `central`: a whole rule progressed in one place. Where the formula has constants to fold, one loop folds it. Then one loop counts
// what it unfolds to, one unfolds it into the output, and one resolves it there.
#![tactic(auto)]

ghost use Rattle.std.specs.Prelude.{◌≡◌, ◌≤◌};
ghost use Rattle.central.specs.Central.{central_lengths_ok, Centrally};
ghost use Rattle.limits.specs.Limits.{central_nodes_most, nodes_room};
ghost use Rattle.central.specs.Folded.{FormulaGiven, FoldGiven, AsGiven, AsFolded};
ghost use Rattle.central.specs.Progressing.{ProgressableIn, ProgressableWithin, Progressable, UnfoldsAll, ProgressesIn, ProgressedTo};

use answers::{Refusal, Verdict};
use limits::{CENTRAL_NODES_MOST, NODES_ROOM, PROPOSITIONS_MOST};
use outlining::SMALL_NODES;
use resolving::Seen;
use slot_sets::no_slots;

#[derive(Clone, Copy)]
pub struct Progress {
    pub verdict: Verdict,
    pub length: usize,
}

// A formula of 1 to 4,096 bytes, and an output of 4,096.
fn lengths_ok(formula: usize, output: usize) -> bool
    ensures { result ≡ central_lengths_ok formula output }
{
    if formula < 1 {
        return false;
    }
    if CENTRAL_NODES_MOST < formula {
        return false;
    }
    output == CENTRAL_NODES_MOST
}

// Unfolds the formula to all of p, and outlines it there. One that becomes no longer has no temporal operator outside next, and
// unfolds to itself.
fn unfold_all(p: &mut [u8], formula: &[u8], notes: &mut [u16])
    requires { ProgressableIn p.old formula.now notes.old }
    ensures { UnfoldsAll formula.now p.new notes.new }
{
    if p.len() == formula.len() {
        buffers::copy(p, formula);
        outlining::outline(p, notes);
        return;
    }
    unfolding::unfold_outlined(p, formula, notes);
}

// Progresses the formula in p, which is as long as what it unfolds to. What it becomes stands at the front; answers its length.
fn progress_noted(p: &mut [u8], formula: &[u8], notes: &mut [u16], seen: Seen) -> usize
    requires { ProgressableIn p.old formula.now notes.old }
    ensures { ProgressesIn seen formula.now p.new result }
{
    unfold_all(p, formula, notes);
    rewriting::to_front(p, notes, seen)
}

// The same with notes of its own, N of them.
fn progress_with<const N: usize>(p: &mut [u8], formula: &[u8], seen: Seen) -> usize
    requires asks { ProgressableWithin N p.old formula.now }
    requires most { N ≤ nodes_room }
    ensures { ProgressesIn seen formula.now p.new result }
{
    let mut notes = [1u16; N];
    progress_noted(p, formula, &mut notes, seen)
}

// With as many as are needed: each is filled at every call.
fn progress_any(p: &mut [u8], formula: &[u8], seen: Seen) -> usize
    requires { ProgressableWithin nodes_room p.old formula.now }
    ensures { ProgressesIn seen formula.now p.new result }
{
    if p.len() <= SMALL_NODES {
        progress_with::<SMALL_NODES>(p, formula, seen)
    } else {
        progress_with::<NODES_ROOM>(p, formula, seen)
    }
}

// Progresses the formula, which unfolds to `size` nodes, into the output, zero past the result, and answers the result's length.
fn progress_into(output: &mut [u8], formula: &[u8], event: u64, size: usize) -> usize
    requires { Progressable output.old formula.now size }
    ensures { ProgressedTo formula.now event output.old output.new result }
{
    let none = no_slots();
    let seen = Seen {
        event,
        yes: none,
        no: none,
    };
    let n = progress_any(&mut output[..size], formula, seen);
    buffers::clear(&mut output[n..]);
    n
}

// Progresses a formula that is folded, where what it unfolds to is within the limit.
fn progress_folded(formula: &[u8], event: u64, output: &mut [u8]) -> Result<Progress, Refusal>
    requires { FormulaGiven central_nodes_most formula.now output.old }
    ensures { AsGiven formula.now event output.old output.new result }
{
    let unfolded = sizing::count_unfolded(formula);
    if CENTRAL_NODES_MOST < unfolded {
        return Err(Refusal::Nodes);
    }
    let n = progress_into(output, formula, event, unfolded);
    Ok(Progress {
        verdict: verdicts::verdict(output[0]),
        length: n,
    })
}

// Folds the formula into p and progresses it.
fn fold_into(
    formula: &[u8],
    p: &mut [u8],
    event: u64,
    output: &mut [u8],
) -> Result<Progress, Refusal>
    requires { FoldGiven formula.now p.old output.old }
    ensures { AsFolded formula.now event output.old output.new result }
{
    let w = folding::fold(formula, p);
    progress_folded(&p[w..], event, output)
}

// The same with an array of its own, of N bytes: the output must stay as it was until the last check has passed. It is filled at every
// call, so a small formula has a small one.
fn fold_with<const N: usize>(
    formula: &[u8],
    event: u64,
    output: &mut [u8],
) -> Result<Progress, Refusal>
    requires asks { FormulaGiven N formula.now output.old }
    requires most { N ≤ central_nodes_most }
    ensures { AsFolded formula.now event output.old output.new result }
{
    let mut folded = [1u8; N];
    fold_into(formula, &mut folded, event, output)
}

// Folds the formula, unless there is nothing to fold, and progresses it.
fn progress_rule(formula: &[u8], event: u64, output: &mut [u8]) -> Result<Progress, Refusal>
    requires { FormulaGiven central_nodes_most formula.now output.old }
    ensures { AsFolded formula.now event output.old output.new result }
{
    if folding::is_bare(formula) {
        return progress_folded(formula, event, output);
    }
    if formula.len() <= SMALL_NODES {
        return fold_with::<SMALL_NODES>(formula, event, output);
    }
    fold_with::<NODES_ROOM>(formula, event, output)
}

// Progresses a formula over one event.
pub fn central(formula: &[u8], event: u64, output: &mut [u8]) -> Result<Progress, Refusal>
    ensures { Centrally formula.now event output.old output.new result }
{
    if !lengths_ok(formula.len(), output.len()) {
        return Err(Refusal::Length);
    }
    if !owing::is_rule(formula, PROPOSITIONS_MOST as u64) {
        return Err(Refusal::Formula);
    }
    progress_rule(formula, event, output)
}
