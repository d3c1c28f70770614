// The formula of a text, gathered from its end: one pass, linear in the text's length, without recursion. It is written backwards into
// as many bytes as the text has nodes, so that nothing is moved. Others use `count_nodes` and `build`.
#![tactic(auto)]

mod gathering;

ghost use Rattle.std.specs.Prelude.{◌≡◌, ◌≤◌, length};
ghost use Rattle.limits.specs.Limits.{rule_nodes_most};
ghost use Rattle.ltl.specs.Formula.{Formula, encode};
ghost use Rattle.text.specs.Grammar.{Text};
ghost use Rattle.building.specs.Nodes.{node_of, nodes_in};

use gathering::{Midway, take_in};
use limits::RULE_NODES_MOST;
use popping::{Edges, pop};
use text::{LOOSEST, Sign};

// How many nodes a sign is.
fn node_of(s: Sign) -> usize
    ensures { (result ≡ node_of s) × (result ≤ 1) }
{
    match s {
        Sign::Prefix(_) | Sign::Infix(_) | Sign::Word(_) | Sign::Letter => 1,
        Sign::Blank | Sign::Open | Sign::Close | Sign::Digit(_) | Sign::Other => 0,
    }
}

// How many nodes a text has.
pub fn count_nodes(text: &[u8]) -> usize
    ensures { result ≡ nodes_in text.now }
{
    let mut n = 0;
    for &b in text {
        n += node_of(Sign::from(b));
    }
    n
}

// The pass, with room for a sign that waits beside each byte.
fn gather(text: &[u8], out: &mut [u8], levels: &mut [u8], depths: &mut [usize])
    requires as_many { nodes_in text.now ≡ length out.old }
    requires levels_long { length out.old ≤ length levels.old }
    requires depths_long { length out.old ≤ length depths.old }
    ensures { (f : Formula) → Text text.now f → out.new ≡ encode f }
{
    let mut x = Midway {
        edges: Edges {
            top: 0,
            at: out.len(),
        },
        depth: 0,
        number: 0,
        scale: 1,
    };
    for i in (0..text.len()).rev() {
        x = take_in(out, levels, depths, x, Sign::from(text[i]));
    }
    pop(out, levels, depths, x.edges, 0, LOOSEST);
}

// The bytes of the formula that the text is, into as many bytes as it has nodes.
pub fn build(text: &[u8], out: &mut [u8])
    requires { (nodes_in text.now ≡ length out.old) × (length out.old ≤ rule_nodes_most) }
    ensures { (f : Formula) → Text text.now f → out.new ≡ encode f }
{
    let mut levels = [0u8; RULE_NODES_MOST];
    let mut depths = [0usize; RULE_NODES_MOST];
    gather(text, out, &mut levels, &mut depths);
}
