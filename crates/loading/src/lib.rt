// The call `load`: a watch begun from a rule file. The rule is read as `read` does, its constants are folded, and `beginning` begins the
// watch.
#![tactic(auto)]

ghost use Rattle.beginning.specs.Beginning.{BeginAsk};
ghost use Rattle.loading.specs.Begin.{BeginFoldedAsk, BegunFolded};
ghost use Rattle.loading.specs.Load.{LoadsRule};

use answers::Refusal;
use limits::{BOARDS_MOST, RULE_NODES_MOST};
use state::Form;

// Folds the rule into p and begins its watch.
fn begin_folded(masks: &[u64], rule: &[u8], p: &mut [u8], state: &mut [u8]) -> Result<(), Refusal>
    requires { BeginFoldedAsk masks.now rule.now p.old state.old }
    ensures { BegunFolded masks.now rule.now state.old state.new result }
{
    let w = folding::fold(rule, p);
    beginning::begin(masks, &p[w..], state)
}

// Begins the watch of a rule that was read, folded first unless there is nothing to fold.
fn begin_rule(masks: &[u64], rule: &[u8], state: &mut [u8]) -> Result<(), Refusal>
    requires { BeginAsk masks.now rule.now state.old }
    ensures { BegunFolded masks.now rule.now state.old state.new result }
{
    if folding::is_bare(rule) {
        return beginning::begin(masks, rule, state);
    }
    let mut folded = [1u8; RULE_NODES_MOST];
    begin_folded(masks, rule, &mut folded, state)
}

pub fn load(file: &[u8], state: &mut [u8]) -> Result<(), Refusal>
    ensures { LoadsRule file.now state.old state.new result }
{
    let form = Form::from(state.len());
    if state.len() != form.length() {
        return Err(Refusal::Length);
    }
    let mut masks = [0u64; BOARDS_MOST];
    let mut formula = [0u8; RULE_NODES_MOST];
    let c = reading::read(file, &mut masks, &mut formula)?;
    let b = c.boards as usize;
    let n = c.nodes as usize;
    begin_rule(&masks[..b], &formula[..n], state)
}
