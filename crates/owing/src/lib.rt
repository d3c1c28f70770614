// Whether bytes are one whole formula: one pass with a count of the operands still owed.
#![tactic(auto)]

ghost use Rattle.std.specs.Prelude.{◌≡◌};
ghost use Rattle.ltl.specs.Decode.{is_formula, is_rule};
ghost use Rattle.ltl.specs.Formula.{node_over};

use kinds::{Kind, Leaf};

// Whether a node of kind k may stand: propositions are below p, place holders below h.
pub fn stands(k: Kind, p: u64, h: u64) -> bool
    ensures { result ≡ node_over p h k }
{
    match k {
        Kind::Zero(a) => match a {
            Leaf::Const(_) => true,
            Leaf::Prop(i) => u64::from(i) < p,
            Leaf::Hold(m) => u64::from(m) < h,
        },
        Kind::One(_) => true,
        Kind::Two(_) => true,
        Kind::NoCode => false,
    }
}

// One whole formula of the language with propositions below p and place holders below h alone.
pub fn is_formula(s: &[u8], p: u64, h: u64) -> bool
    ensures { result ≡ is_formula p h s.now }
{
    let mut owed: usize = 1;
    for byte in s {
        if owed == 0 {
            return false;
        }
        let k = Kind::from(*byte);
        if !stands(k, p, h) {
            return false;
        }
        owed = owed - 1 + Kind::operands(k);
    }
    owed == 0
}

// A rule's formula: propositions below p alone and no place holder.
pub fn is_rule(s: &[u8], p: u64) -> bool
    ensures { result ≡ is_rule p s.now }
{
    is_formula(s, p, 0)
}
