// The reading position of a text, lent: one position is handed down by `&mut` and moved by the readers that it is lent to.
#![tactic(auto)]

ghost use Rattle.cursor.specs.Positions.{Stands};
ghost use Rattle.cursor.specs.Readers.{GapRead, OperandRead, OperatorRead};
ghost use Rattle.lending.specs.Following.{OperandFollows, OperatorFollows};

use cursor::{TextCursor, TextStep, Token};

// The blanks that stand at the position are passed.
fn skip_gap(text: &[u8], c: &mut TextCursor)
    requires { Stands text.now c.old }
    ensures { GapRead text.now c.old c.new }
{
    *c = cursor::gap(text, *c);
}

// A sign is read where an operand is wanted.
fn read_operand(text: &[u8], c: &mut TextCursor) -> Token
    requires { Stands text.now c.old }
    ensures { OperandRead text.now c.old (record { at = c.new; seen = result }) }
{
    let s = cursor::operand(text, *c);
    *c = s.at;
    s.seen
}

// A sign is read where an operand has ended. `depth` brackets are open.
fn read_operator(text: &[u8], c: &mut TextCursor, depth: usize) -> Token
    requires { Stands text.now c.old }
    ensures { OperatorRead text.now c.old depth (record { at = c.new; seen = result }) }
{
    let s = cursor::operator(text, *c, depth);
    *c = s.at;
    s.seen
}

// A gap, and then a sign where an operand is wanted: the position is handed down twice.
fn next_operand(text: &[u8], c: &mut TextCursor) -> Token
    requires { Stands text.now c.old }
    ensures { OperandFollows text.now c.old (record { at = c.new; seen = result }) }
{
    skip_gap(text, c);
    read_operand(text, c)
}

// A gap, and then a sign where an operand has ended.
fn next_operator(text: &[u8], c: &mut TextCursor, depth: usize) -> Token
    requires { Stands text.now c.old }
    ensures { OperatorFollows text.now c.old depth (record { at = c.new; seen = result }) }
{
    skip_gap(text, c);
    read_operator(text, c, depth)
}

// The same from a position by value, which is lent to the reader and comes back moved.
pub fn operand_from(text: &[u8], c: TextCursor) -> TextStep
    requires { Stands text.now c }
    ensures { OperandFollows text.now c result }
{
    let mut at = c;
    let seen = next_operand(text, &mut at);
    TextStep { at, seen }
}

// And where an operand has ended.
pub fn operator_from(text: &[u8], c: TextCursor, depth: usize) -> TextStep
    requires { Stands text.now c }
    ensures { OperatorFollows text.now c depth result }
{
    let mut at = c;
    let seen = next_operator(text, &mut at, depth);
    TextStep { at, seen }
}
