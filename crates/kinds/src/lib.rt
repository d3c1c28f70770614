// The node kinds of the rule language: what a byte of a formula is. The codes and the limits of their ranges are constants
// of `Kind`, and `Kind::from` gives a byte its kind. Where one kind alone matters, other crates compare the byte itself.
#![tactic(auto)]

ghost use Rattle.std.specs.Prelude.{◌≡◌, ◌≤◌};
ghost use Rattle.kinds.specs.Kinds.{kind_of, join_code, operands};

// A node with no operand: a constant, a proposition, or the place holder of a slot.
#[derive(Clone, Copy, Debug, PartialEq, Eq)]
pub enum Leaf {
    Const(bool),
    Prop(u8),
    Hold(u8),
}

// The two connectives that are each other's mirror image.
#[derive(Clone, Copy, Debug, PartialEq, Eq)]
pub enum Join {
    And,
    Or,
}

// The connective's byte.
impl From<Join> for u8 {
    ghost from_gives = { λ join code. code ≡ join_code join };

    fn from(join: Join) -> u8 {
        match join {
            Join::And => Kind::AND,
            Join::Or => Kind::OR,
        }
    }
}

// A node with one operand. `Ever` is the operator that unfolds to its operand joined with itself at the next tick: by or it is
// eventually, by and it is always.
#[derive(Clone, Copy, Debug, PartialEq, Eq)]
pub enum Unary {
    Not,
    Next,
    Ever(Join),
}

// A node with two operands.
#[derive(Clone, Copy, Debug, PartialEq, Eq)]
pub enum Binary {
    Joined(Join),
    Until,
}

// What a byte is, by the number of its operands. Every other byte is no code.
#[derive(Clone, Copy, Debug, PartialEq, Eq)]
pub enum Kind {
    Zero(Leaf),
    One(Unary),
    Two(Binary),
    NoCode,
}

impl From<u8> for Kind {
    ghost from_gives = { λ b kind. kind ≡ kind_of b };

    fn from(b: u8) -> Kind {
        match b {
            Kind::FALSE => Kind::Zero(Leaf::Const(false)),
            Kind::TRUE => Kind::Zero(Leaf::Const(true)),
            Kind::NOT => Kind::One(Unary::Not),
            Kind::AND => Kind::Two(Binary::Joined(Join::And)),
            Kind::OR => Kind::Two(Binary::Joined(Join::Or)),
            Kind::NEXT => Kind::One(Unary::Next),
            Kind::UNTIL => Kind::Two(Binary::Until),
            Kind::EVENTUALLY => Kind::One(Unary::Ever(Join::Or)),
            Kind::ALWAYS => Kind::One(Unary::Ever(Join::And)),
            _ => Kind::of_range(b),
        }
    }
}

impl Kind {
    pub const FALSE: u8 = 0;

    pub const TRUE: u8 = 1;

    pub const NOT: u8 = 2;

    pub const AND: u8 = 3;

    pub const OR: u8 = 4;

    pub const NEXT: u8 = 5;

    pub const UNTIL: u8 = 6;

    pub const EVENTUALLY: u8 = 7;

    pub const ALWAYS: u8 = 8;

    // The codes from here to below `HOLD` are propositions.
    pub const PROP: u8 = 64;

    // The codes from here to below `END` are place holders.
    pub const HOLD: u8 = 128;

    pub const END: u8 = 192;

    // How many operands a node has.
    pub fn operands(k: Kind) -> usize
        ensures { result ≡ operands k }
    {
        match k {
            Kind::Zero(_) => 0,
            Kind::One(_) => 1,
            Kind::Two(_) => 2,
            Kind::NoCode => 0,
        }
    }

    // A byte that is none of the named codes.
    fn of_range(b: u8) -> Kind
        requires { 9 ≤ b }
        ensures { result ≡ kind_of b }
    {
        if b < Kind::PROP {
            return Kind::NoCode;
        }
        if b < Kind::HOLD {
            return Kind::Zero(Leaf::Prop(b - Kind::PROP));
        }
        if b < Kind::END {
            return Kind::Zero(Leaf::Hold(b - Kind::HOLD));
        }
        Kind::NoCode
    }
}
