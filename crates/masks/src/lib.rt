// The boards' masks: their ones counted and summed, their union, and a mask's lowest proposition.
#![tactic(auto)]

ghost use Rattle.std.specs.Prelude.{◌≡◌, ℕ, ◌+◌, ◌-◌, ◌<◌, ◌≤◌, ◌^◌, length};
ghost use Rattle.limits.specs.Limits.{boards_most, propositions_most};
ghost use Rattle.masks.specs.Masks.{bit_at, sum_ones, union_with, masks_rule};

use limits::PROPOSITIONS_MOST;

// The ones of each mask, summed over boards.
pub fn sum_ones(masks: &[u64]) -> u64
    requires { length masks.now ≤ boards_most }
    ensures { result ≡ sum_ones masks.now }
{
    masks.iter().map(|mask| u64::from(mask.count_ones())).sum()
}

// The union of all masks.
pub fn union(masks: &[u64]) -> u64
    ensures { result ≡ union_with 0 masks.now }
{
    masks.iter().fold(0, |all, mask| all | mask)
}

// The lowest p bits.
fn low_bits(p: u64) -> u64
    requires { p ≤ propositions_most }
    ensures { result ≡ 2 ^ p - 1 }
{
    if p == PROPOSITIONS_MOST as u64 {
        u64::MAX
    } else {
        (1u64 << p) - 1
    }
}

// The masks' rule: their ones add up to p and their union is the lowest p bits.
pub fn follow_rule(masks: &[u64], p: u64) -> bool
    requires { (length masks.now ≤ boards_most) × (p ≤ propositions_most) }
    ensures { result ≡ masks_rule p masks.now }
{
    sum_ones(masks) == p && union(masks) == low_bits(p)
}

// A mask's lowest proposition.
pub fn lowest(mask: u64) -> u32
    requires { 0 < mask }
    ensures { (result < propositions_most) × (bit_at mask result ≡ 1) × ((j : ℕ) → j < result → bit_at mask j ≡ 0) }
{
    mask.trailing_zeros()
}
