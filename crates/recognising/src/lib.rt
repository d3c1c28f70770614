// Whether a text is in the grammar, and where not: one pass from the left, of any length, with a position, the brackets that are open and a
// stage in hand.
#![tactic(auto)]

ghost use Rattle.std.specs.Prelude.{◌≡◌, ◌≤◌};
ghost use Rattle.cursor.specs.Positions.{Stands};
ghost use Rattle.recognising.specs.declared.CheckStage.TheVariants.{Wanted, Ended};
ghost use Rattle.recognising.specs.Recognises.{CheckTurn, Recognises};

use cursor::{TextCursor, TextStep, Token};

// An operand is wanted, one has ended, the text is accepted, or it is refused.
#[derive(Clone, Copy, Debug, PartialEq, Eq)]
enum CheckStage {
    Wanted,
    Ended,
    Accepted,
    Refused,
}

// Where the check stands: the position, the brackets that are open, and the stage. What is refused is refused at the position.
#[derive(Clone, Copy, Debug, PartialEq, Eq)]
struct TextCheck {
    at: TextCursor,
    depth: usize,
    stage: CheckStage,
}

// The check behind a sign.
fn check(s: TextStep, depth: usize, stage: CheckStage) -> TextCheck
    ensures { result ≡ record { at = s.at; depth = depth; stage = stage } }
{
    TextCheck {
        at: s.at,
        depth,
        stage,
    }
}

// A gap and a sign where an operand is wanted, and what they make of the check. It is apart from `having`, since a token is another
// thing there: a bracket opens here and closes there, and a word ends an operand here and is wrong there.
fn wanting(text: &[u8], c: TextCursor, depth: usize) -> TextCheck
    requires stands { Stands text.now c }
    requires deep { depth ≤ c.byte }
    ensures { CheckTurn text.now (record { at = c; depth = depth; stage = Wanted }) result }
{
    let s = lending::operand_from(text, c);
    match s.seen {
        Token::Space | Token::Operator => check(s, depth, CheckStage::Wanted),
        Token::Bracket => check(s, depth + 1, CheckStage::Wanted),
        Token::Operand => check(s, depth, CheckStage::Ended),
        Token::Finished | Token::Wrong => check(s, depth, CheckStage::Refused),
    }
}

// A gap and a sign where an operand has ended, and what they make of the check.
fn having(text: &[u8], c: TextCursor, depth: usize) -> TextCheck
    requires stands { Stands text.now c }
    requires deep { depth ≤ c.byte }
    ensures { CheckTurn text.now (record { at = c; depth = depth; stage = Ended }) result }
{
    let s = lending::operator_from(text, c, depth);
    match s.seen {
        Token::Space => check(s, depth, CheckStage::Ended),
        Token::Operator => check(s, depth, CheckStage::Wanted),
        Token::Bracket => check(s, depth - 1, CheckStage::Ended),
        Token::Finished => check(s, depth, CheckStage::Accepted),
        Token::Operand | Token::Wrong => check(s, depth, CheckStage::Refused),
    }
}

// Whether the text is in the grammar, and where not.
pub fn recognise(text: &[u8]) -> Result<(), TextCursor>
    ensures { Recognises text.now result }
{
    let mut x = TextCheck {
        at: TextCursor { byte: 0, line: 1 },
        depth: 0,
        stage: CheckStage::Wanted,
    };
    // A `loop`, since a gap of any length is passed in one turn, and the text is refused or accepted wherever it ends.
    loop {
        x = match x.stage {
            CheckStage::Wanted => wanting(text, x.at, x.depth),
            CheckStage::Ended => having(text, x.at, x.depth),
            CheckStage::Accepted => return Ok(()),
            CheckStage::Refused => return Err(x.at),
        };
    }
}
