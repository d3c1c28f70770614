// Boards as they are typed and shown: a board is the propositions that it sees, as `p0` or `p0,p2,p5`, or `-` where it sees none.
#![tactic(auto)]

pub mod shown;
pub mod typed;

ghost use Rattle.spelling.specs.Count.{HighestSeen};

// One more than the highest proposition that any board sees, and 0 where none sees any.
pub fn propositions(masks: &[u64]) -> u64
    ensures { HighestSeen masks.now result }
{
    u64::from(u64::BITS - masks::union(masks).leading_zeros())
}
