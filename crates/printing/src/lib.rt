// The call `print`: a rule's formula as text, with the fewest brackets and no spaces.
#![tactic(auto)]

ghost use Rattle.std.specs.Prelude.{◌≡◌, length};
ghost use Rattle.limits.specs.Limits.{rule_nodes_most};
ghost use Rattle.lists.specs.Tests.{in_range};
ghost use Rattle.printing.specs.Print.{Printable, PrintsTo, Prints};

use answers::Refusal;
use limits::{PROPOSITIONS_MOST, RULE_NODES_MOST, TEXT_LENGTH};

// As many nodes as a rule may have.
fn nodes_ok(n: usize) -> bool
    ensures { result ≡ in_range rule_nodes_most n }
{
    if n < 1 {
        return false;
    }
    n <= RULE_NODES_MOST
}

// Puts the formula's text into the output, zero past it, and answers its length.
fn print_rule(formula: &[u8], text: &mut [u8]) -> usize
    requires { Printable formula.now text.old }
    ensures { PrintsTo formula.now text.new result }
{
    let n = showing::show(formula, text);
    buffers::clear(&mut text[n..]);
    n
}

pub fn print(formula: &[u8], text: &mut [u8]) -> Result<usize, Refusal>
    ensures { Prints formula.now text.old text.new result }
{
    if text.len() != TEXT_LENGTH {
        return Err(Refusal::Length);
    }
    if !nodes_ok(formula.len()) {
        return Err(Refusal::Range);
    }
    if !owing::is_rule(formula, PROPOSITIONS_MOST as u64) {
        return Err(Refusal::Formula);
    }
    Ok(print_rule(formula, text))
}
