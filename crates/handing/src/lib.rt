// A rule that was found in a file, handed out into the outputs that `read` was lent.
#![tactic(auto)]

ghost use Rattle.std.specs.Prelude.{◌≡◌, ◌+◌, ◌≤◌, length, drop};
ghost use Rattle.lists.specs.Runs.{padded};
ghost use Rattle.rules.specs.RuleFile.{file_formula_at};

use rules::MASKS_AT;

// The formula into the lent output, zero past it.
fn hand_out(text: &[u8], formula: &mut [u8])
    requires { length text.now ≤ length formula.old }
    ensures { formula.new ≡ padded (length formula.old) text.now }
{
    buffers::copy(formula, text);
    let n = text.len();
    buffers::clear(&mut formula[n..]);
}

// The masks found, and the formula behind b masks, into the lent outputs.
pub fn put_rule(file: &[u8], b: usize, found: &[u64], masks: &mut [u64], formula: &mut [u8])
    requires { (length found.now ≡ length masks.old) × (file_formula_at b ≤ length file.now) × (length file.now ≤ file_formula_at b + length formula.old) }
    ensures { (masks.new ≡ found.now) × (formula.new ≡ padded (length formula.old) (drop (file_formula_at b) file.now)) }
{
    let at = MASKS_AT + 8 * b;
    buffers::copy_masks(masks, found);
    hand_out(&file[at..], formula);
}
