// The file of a rule, put together: header, masks, formula, zeros.
#![tactic(auto)]

ghost use Rattle.std.specs.Prelude.{◌≡◌, ◌++◌, ◌*◌, ◌≤◌, length, drop};
ghost use Rattle.limits.specs.Limits.{boards_most, propositions_most, rule_nodes_most};
ghost use Rattle.lists.specs.Runs.{padded};
ghost use Rattle.rules.specs.RuleFile.{masks_at, total_of, file_most, file_header, mask_bytes, file_of};

use rules::{MASKS_AT, VERSION};

// The header of b boards, p propositions and n nodes, at the front of the file.
fn put_header(file: &mut [u8], b: u16, p: u16, n: u16)
    requires { (masks_at ≤ length file.old) × (b ≤ boards_most) × (n ≤ rule_nodes_most) }
    ensures { file.new ≡ file_header b p n ++ drop masks_at file.old }
{
    let first = MASKS_AT as u16;
    let at = first + 8 * b;
    le::put_header(file, VERSION, b, p, n, first, at, (at + n) as u32);
}

// The masks' bytes, at the front of `out`.
fn put_masks(out: &mut [u8], masks: &[u64])
    requires { 8 * length masks.now ≤ length out.old }
    ensures { out.new ≡ mask_bytes masks.now ++ drop (8 * length masks.now) out.old }
{
    for (i, &mask) in masks.iter().enumerate() {
        le::put_u64(out, 8 * i, mask);
    }
}

// The file of a rule whose counts are in range, over the whole of `file`: header, masks, formula, zeros. Answers the file's length.
pub fn put_file(masks: &[u64], p: u64, formula: &[u8], file: &mut [u8]) -> usize
    requires { (length file.old ≡ file_most) × (length masks.now ≤ boards_most) × (p ≤ propositions_most) × (length formula.now ≤ rule_nodes_most) }
    ensures { (result ≡ total_of (length masks.now) (length formula.now)) × (file.new ≡ padded file_most (file_of masks.now p formula.now)) }
{
    let b = masks.len();
    let n = formula.len();
    let at = MASKS_AT + 8 * b;
    let total = at + n;
    put_header(file, b as u16, p as u16, n as u16);
    put_masks(&mut file[MASKS_AT..], masks);
    buffers::copy(&mut file[at..], formula);
    buffers::clear(&mut file[total..]);
    total
}
