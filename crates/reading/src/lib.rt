// The call `read`: a rule file's counts, masks and formula, or the refusal.
#![tactic(auto)]

ghost use Rattle.rules.specs.Read.{Reads};

use answers::Refusal;
use limits::BOARDS_MOST;
use rules::{RuleCounts, checks};

pub fn read(file: &[u8], masks: &mut [u64], formula: &mut [u8]) -> Result<RuleCounts, Refusal>
    ensures { Reads file.now masks.old formula.old masks.new formula.new result }
{
    let c = checks::head_of(file, masks.len(), formula.len())?;
    let b = c.boards as usize;
    let p = c.propositions;
    let n = c.nodes as usize;
    let mut found = [0u64; BOARDS_MOST];
    if !checks::masks_ok(file, b, p, &mut found) {
        return Err(Refusal::Masks);
    }
    if !checks::formula_ok(file, b, p) {
        return Err(Refusal::Formula);
    }
    handing::put_rule(file, b, &found, masks, formula);
    Ok(RuleCounts {
        boards: b as u64,
        propositions: p,
        nodes: n as u64,
    })
}
