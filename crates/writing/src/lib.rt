// The call `write`: a rule's file, or the refusal.
#![tactic(auto)]

ghost use Rattle.rules.specs.Write.{Writes};

use answers::Refusal;
use rules::FILE_MOST;
use rules::checks::counts_ok;

pub fn write(
    masks: &[u64],
    propositions: u64,
    formula: &[u8],
    file: &mut [u8],
) -> Result<usize, Refusal>
    ensures { Writes masks.now propositions formula.now file.old file.new result }
{
    if file.len() != FILE_MOST {
        return Err(Refusal::Length);
    }
    if !counts_ok(masks.len(), propositions, formula.len()) {
        return Err(Refusal::Range);
    }
    if !masks::follow_rule(masks, propositions) {
        return Err(Refusal::Masks);
    }
    if !owing::is_rule(formula, propositions) {
        return Err(Refusal::Formula);
    }
    Ok(filing::put_file(masks, propositions, formula, file))
}
