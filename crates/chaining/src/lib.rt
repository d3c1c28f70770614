// The longest chains of holders from a root to the entries of a register, from what each holds as a set. An entry holds earlier ones alone,
// so the last one raises what it holds first.
#![tactic(auto)]

ghost use Rattle.std.specs.Prelude.{◌≡◌, ◌<◌, ◌≤◌, length};
ghost use Rattle.limits.specs.Limits.{slots_room};
ghost use Rattle.chaining.specs.Chains.{Raises, ChainsAsk, Chains};

// Raises the chains of those in a set to c at least, the lowest one first, which is then cleared.
fn raise(set: u64, c: u8, chain: &mut [u8])
    requires { slots_room ≤ length chain.old }
    ensures { Raises set c chain.old chain.new }
{
    let mut left = set;
    // A `while`: the numbers of a set are no range and no slice.
    while left != 0 {
        let p = masks::lowest(left) as usize;
        chain[p] = chain[p].max(c);
        left &= left - 1;
    }
}

// The chains of n entries, the root's set being number n: the last entry raises what it holds first.
pub fn raise_all(n: usize, sets: &[u64], chain: &mut [u8])
    requires { ChainsAsk n sets.now chain.old }
    ensures { Chains sets.now n chain.new }
{
    raise(sets[n], 1, chain);
    for j in (0..n).rev() {
        raise(sets[j], chain[j] + 1, chain);
    }
}
