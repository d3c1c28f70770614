// The tests of the checks of `read` and `write`, in the order of the checks.
ghost use Rattle.std.specs.Prelude.{◌≡◌, ◌++◌, ◌≤◌, length, drop};
ghost use Rattle.limits.specs.Limits.{boards_most, propositions_most, rule_nodes_most};
ghost use Rattle.lists.specs.Listed.{listed};
ghost use Rattle.ltl.specs.Decode.{is_rule};
ghost use Rattle.masks.specs.Masks.{masks_rule};
ghost use Rattle.rules.specs.RuleFile.{masks_at, file_formula_at, counts_ok, boards_in_file, nodes_in_file, mask_in_file};
ghost use Rattle.rules.specs.Read.{read_lengths_ok, offsets_ok};
ghost use Rattle.rules.specs.Head.{HeadRead};

use crate::{MASKS_AT, RuleCounts, TOTAL_AT, VERSION};
use answers::Refusal;
use limits::{BOARDS_MOST, PROPOSITIONS_MOST, RULE_NODES_MOST};

// The lent outputs have their lengths, and the file has at least a header and the length of its total.
pub fn lengths_ok(file: &[u8], masks: usize, formula: usize) -> bool
    ensures { result ≡ read_lengths_ok file.now masks formula }
{
    if masks != BOARDS_MOST {
        return false;
    }
    if formula != RULE_NODES_MOST {
        return false;
    }
    if file.len() < MASKS_AT {
        return false;
    }
    file.len() == le::u32_at(file, TOTAL_AT) as usize
}

// The counts of boards, propositions and nodes are in range.
pub fn counts_ok(boards: usize, propositions: u64, nodes: usize) -> bool
    ensures { result ≡ counts_ok boards propositions nodes }
{
    if boards < 1 {
        return false;
    }
    if BOARDS_MOST < boards {
        return false;
    }
    if propositions < 1 {
        return false;
    }
    if (PROPOSITIONS_MOST as u64) < propositions {
        return false;
    }
    if nodes < 1 {
        return false;
    }
    nodes <= RULE_NODES_MOST
}

// The offsets and the total are those of b boards and n nodes.
pub fn offsets_ok(file: &[u8], b: usize, n: usize) -> bool
    requires { (masks_at ≤ length file.now) × (b ≡ boards_in_file file.now) × (n ≡ nodes_in_file file.now) × (b ≤ boards_most) × (n ≤ rule_nodes_most) }
    ensures { result ≡ offsets_ok file.now }
{
    if le::u16_at(file, 8) as usize != MASKS_AT {
        return false;
    }
    if le::u16_at(file, 10) as usize != MASKS_AT + 8 * b {
        return false;
    }
    le::u32_at(file, TOTAL_AT) as usize == MASKS_AT + 8 * b + n
}

// The header of a file: its counts, or the refusal of the first of these four checks that fails.
pub fn head_of(file: &[u8], masks: usize, formula: usize) -> Result<RuleCounts, Refusal>
    ensures { HeadRead file.now masks formula result }
{
    if !lengths_ok(file, masks, formula) {
        return Err(Refusal::Length);
    }
    if le::u16_at(file, 0) != VERSION {
        return Err(Refusal::Version);
    }
    let b = le::u16_at(file, 2) as usize;
    let p = le::u16_at(file, 4) as u64;
    let n = le::u16_at(file, 6) as usize;
    if !counts_ok(b, p, n) {
        return Err(Refusal::Range);
    }
    if !offsets_ok(file, b, n) {
        return Err(Refusal::Offset);
    }
    Ok(RuleCounts {
        boards: b as u64,
        propositions: p,
        nodes: n as u64,
    })
}

// The masks of b boards to the front of `found`, and whether they follow their rule with p propositions.
pub fn masks_ok(file: &[u8], b: usize, p: u64, found: &mut [u64]) -> bool
    requires { (file_formula_at b ≤ length file.now) × (length found.old ≡ boards_most) × (b ≤ boards_most) × (p ≤ propositions_most) }
    ensures { (result ≡ masks_rule p (listed (mask_in_file file.now) b)) × (found.new ≡ listed (mask_in_file file.now) b ++ drop b found.old) }
{
    le::column(file, MASKS_AT, 8, found, b);
    masks::follow_rule(&found[..b], p)
}

// What stands behind b masks is one formula of p propositions.
pub fn formula_ok(file: &[u8], b: usize, p: u64) -> bool
    requires { file_formula_at b ≤ length file.now }
    ensures { result ≡ is_rule p (drop (file_formula_at b) file.now) }
{
    let at = MASKS_AT + 8 * b;
    owing::is_rule(&file[at..], p)
}
