// A formula shown as text: one loop forwards over its bytes, without recursion. What waits behind the formula that is shown next, closing
// brackets and infix signs, stands in an array, the latest lowest.
#![tactic(auto)]

ghost use Rattle.std.specs.Prelude.{◌≡◌, ◌+◌, ◌≤◌, length, drop};
ghost use Rattle.text.specs.Printing.{unary_sign, constant_text, digits, leaf_text};
ghost use Rattle.showing.specs.Dues.{sign_before, closes_first};
ghost use Rattle.showing.specs.Shows.{Puts, EndAsk, EndsOn, InfixAsk, InfixOn, NodeShows, NodesOn, ShowWithin, ShowAsk, Shows};

use kinds::{Binary, Join, Kind, Leaf, Unary};
use limits::RULE_NODES_MOST;

// Where the text ends that is put, where what waits begins, and the level of text that the next place takes.
#[derive(Clone, Copy)]
struct Pen {
    at: usize,
    top: usize,
    level: u8,
}

// At most a bracket and a sign wait for each node.
const DUES_MOST: usize = 2 * RULE_NODES_MOST;

// ! X F G
fn unary_sign(o: Unary) -> u8
    ensures { result ≡ unary_sign o }
{
    match o {
        Unary::Not => b'!',
        Unary::Next => b'X',
        Unary::Ever(Join::Or) => b'F',
        Unary::Ever(Join::And) => b'G',
    }
}

// U & |, by the level of text that follows.
#[tactic(auto, unfolding(crate::specs::Dues::sign_before, lists::specs::Tests::pick))]
fn sign_before(level: u8) -> u8
    ensures { result ≡ sign_before level }
{
    match level {
        1 => b'U',
        2 => b'&',
        _ => b'|',
    }
}

// Puts a word behind the first `at` bytes: where it ends.
fn put_word(text: &mut [u8], at: usize, word: &[u8]) -> usize
    requires { at + length word.now ≤ length text.old }
    ensures { Puts word.now text.old at text.new result }
{
    let end = at + word.len();
    text[at..end].copy_from_slice(word);
    end
}

fn put_constant(text: &mut [u8], at: usize, v: bool) -> usize
    requires { at + length (constant_text v) ≤ length text.old }
    ensures { Puts (constant_text v) text.old at text.new result }
{
    if v {
        put_word(text, at, b"true")
    } else {
        put_word(text, at, b"false")
    }
}

// A number below a hundred, in digits.
fn put_digits(text: &mut [u8], at: usize, n: u8) -> usize
    requires { at + length (digits n) ≤ length text.old }
    ensures { Puts (digits n) text.old at text.new result }
{
    if n < 10 {
        text[at] = b'0' + n;
        return at + 1;
    }
    text[at] = b'0' + n / 10;
    text[at + 1] = b'0' + n % 10;
    at + 2
}

fn put_leaf(text: &mut [u8], at: usize, a: Leaf) -> usize
    requires { at + length (leaf_text a) ≤ length text.old }
    ensures { Puts (leaf_text a) text.old at text.new result }
{
    match a {
        Leaf::Const(v) => put_constant(text, at, v),
        Leaf::Prop(n) => {
            text[at] = b'p';
            put_digits(text, at + 1, n)
        }
        // A place holder has no text.
        Leaf::Hold(_) => at,
    }
}

// A formula's text has ended: the brackets that wait are put, and the infix sign behind them.
fn put_waiting(text: &mut [u8], at: usize, dues: &[u8], top: usize) -> Pen
    requires { EndAsk text.old dues.now at top }
    ensures { EndsOn text.old dues.now at top text.new result.at result.top result.level }
{
    let mut end = at;
    for first in top..dues.len() {
        let level = dues[first];
        if level != 0 {
            text[end] = sign_before(level);
            return Pen {
                at: end + 1,
                top: first + 1,
                level,
            };
        }
        text[end] = b')';
        end += 1;
    }
    Pen {
        at: end,
        top: dues.len(),
        level: 0,
    }
}

// An infix node: its sign waits behind its left operand. Where its place takes no text of its level it stands in brackets.
fn put_pair(text: &mut [u8], at: usize, dues: &mut [u8], top: usize, level: u8, o: Binary) -> Pen
    requires { InfixAsk o text.old dues.old at top level }
    ensures { InfixOn o text.old dues.old at top level text.new dues.new result.at result.top result.level }
{
    let own = text::level_of(o);
    if own < level {
        dues[top - 1] = own + 1;
        return Pen {
            at,
            top: top - 1,
            level: own,
        };
    }
    text[at] = b'(';
    dues[top - 1] = 0;
    dues[top - 2] = own + 1;
    Pen {
        at: at + 1,
        top: top - 2,
        level: own,
    }
}

// The next node, of kind k, at a place that takes texts of the level.
fn show_node(text: &mut [u8], at: usize, dues: &mut [u8], top: usize, level: u8, k: Kind) -> Pen
    requires { NodeShows k text.old dues.old at top level }
    ensures { NodesOn k text.old dues.old at top level text.new dues.new result.at result.top result.level }
{
    match k {
        Kind::Zero(a) => {
            let end = put_leaf(text, at, a);
            put_waiting(text, end, dues, top)
        }
        Kind::One(o) => {
            text[at] = unary_sign(o);
            Pen {
                at: at + 1,
                top,
                level: 0,
            }
        }
        Kind::Two(o) => put_pair(text, at, dues, top, level, o),
        // No formula begins with such a byte.
        Kind::NoCode => Pen { at, top, level },
    }
}

// Shows the formula at the front of the text, with room lent for what waits. Answers where it ends.
fn show_with(formula: &[u8], text: &mut [u8], dues: &mut [u8]) -> usize
    requires { ShowWithin formula.now text.old dues.old }
    ensures { Shows formula.now text.new result }
{
    let mut pen = Pen {
        at: 0,
        top: dues.len(),
        level: text::LOOSEST,
    };
    for &b in formula {
        pen = show_node(text, pen.at, dues, pen.top, pen.level, Kind::from(b));
    }
    pen.at
}

// Shows the formula, a rule's, at the front of the text. Answers where it ends.
pub fn show(formula: &[u8], text: &mut [u8]) -> usize
    requires { ShowAsk formula.now text.old }
    ensures { Shows formula.now text.new result }
{
    let mut dues = [0u8; DUES_MOST];
    show_with(formula, text, &mut dues)
}
