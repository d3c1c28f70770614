// A reading position in a text, by value: small readers take it and hand it back moved, with what they saw.
#![tactic(auto)]

ghost use Rattle.std.specs.Prelude.{◌≡◌, ◌+◌, ◌<◌, length};
ghost use Rattle.limits.specs.Limits.{propositions_most};
ghost use Rattle.text.specs.Signs.{spelling};
ghost use Rattle.text.specs.Machine.{spelt, number, figure};
ghost use Rattle.cursor.specs.declared.Token.TheVariants.{Wrong};
ghost use Rattle.cursor.specs.Positions.{Stands, Sees, Behind};
ghost use Rattle.cursor.specs.Readers.{GapRead, WordRead, OperandRead, OperatorRead};

use limits::PROPOSITIONS_MOST;
use text::Sign;

// A byte of a text, from 0, and its line, from 1.
#[derive(Clone, Copy, Debug, PartialEq, Eq)]
pub struct TextCursor {
    pub byte: usize,
    pub line: usize,
}

// What a reader saw: a blank, a sign with operands, a bracket, a whole word, the end of a text, or what no text goes on with.
#[derive(Clone, Copy, Debug, PartialEq, Eq)]
pub enum Token {
    Space,
    Operator,
    Bracket,
    Operand,
    Finished,
    Wrong,
}

// What was seen, and the position behind it. Of what is wrong the position is the place of refusal.
#[derive(Clone, Copy, Debug, PartialEq, Eq)]
pub struct TextStep {
    pub at: TextCursor,
    pub seen: Token,
}

// What no text goes on with, at its place of refusal.
fn wrong(at: TextCursor) -> TextStep
    ensures { result ≡ record { at = at; seen = Wrong } }
{
    TextStep {
        at,
        seen: Token::Wrong,
    }
}

// The position behind the next byte.
fn past(text: &[u8], c: TextCursor) -> TextCursor
    requires stands { Stands text.now c }
    requires before_end { c.byte < length text.now }
    ensures { Behind text.now c result }
{
    let feed = text[c.byte] == b'\n';
    let line = if feed { c.line + 1 } else { c.line };
    TextCursor {
        byte: c.byte + 1,
        line,
    }
}

// The next byte is passed, and this is what was seen.
fn passed(text: &[u8], c: TextCursor, seen: Token) -> TextStep
    requires stands { Stands text.now c }
    requires before_end { c.byte < length text.now }
    ensures { (Behind text.now c result.at) × (result.seen ≡ seen) }
{
    TextStep {
        at: past(text, c),
        seen,
    }
}

// The position behind the blanks that stand here.
pub fn gap(text: &[u8], c: TextCursor) -> TextCursor
    requires { Stands text.now c }
    ensures { GapRead text.now c result }
{
    let mut cur = c;
    // A `while`, since it follows the position, which counts lines as well. No blank is above a space: mostly there is none.
    while let Some(&b) = text.get(cur.byte)
        && b <= b' '
        && let Sign::Blank = Sign::from(b)
    {
        cur = past(text, cur);
    }
    cur
}

// The letters that follow the first of a constant.
fn letters_of(v: bool) -> &'static [u8]
    ensures { result.now ≡ spelling v }
{
    if v { b"rue" } else { b"alse" }
}

// These letters stand here, one after the other.
fn letters(text: &[u8], c: TextCursor, v: bool) -> TextStep
    requires { Stands text.now c }
    ensures { WordRead text.now c (spelt (spelling v)) result }
{
    let mut cur = c;
    for &b in letters_of(v) {
        if cur.byte >= text.len() || text[cur.byte] != b {
            return wrong(cur);
        }
        cur = past(text, cur);
    }
    TextStep {
        at: cur,
        seen: Token::Operand,
    }
}

// The digits behind the first ones of a number, which are n.
fn figures(text: &[u8], c: TextCursor, n: usize) -> TextStep
    requires stands { Stands text.now c }
    requires below { n < propositions_most }
    ensures { WordRead text.now c (figure n) result }
{
    let mut cur = c;
    let mut value = n;
    // A `while`, since it follows the position, which counts lines as well.
    while let Some(&b) = text.get(cur.byte)
        && let Sign::Digit(m) = Sign::from(b)
    {
        let longer = 10 * value + usize::from(m);
        if value == 0 || longer >= PROPOSITIONS_MOST {
            return wrong(cur);
        }
        value = longer;
        cur = past(text, cur);
    }
    TextStep {
        at: cur,
        seen: Token::Operand,
    }
}

// The number that follows the letter of a proposition.
fn numeral(text: &[u8], c: TextCursor) -> TextStep
    requires { Stands text.now c }
    ensures { WordRead text.now c number result }
{
    let Some(&b) = text.get(c.byte) else {
        return wrong(c);
    };
    match Sign::from(b) {
        Sign::Digit(n) => figures(text, past(text, c), usize::from(n)),
        _ => wrong(c),
    }
}

// Where an operand is wanted, by the sign that stands there.
fn operand_by(text: &[u8], c: TextCursor, k: Sign) -> TextStep
    requires { Sees text.now c k }
    ensures { OperandRead text.now c result }
{
    match k {
        Sign::Blank => passed(text, c, Token::Space),
        Sign::Prefix(_) => passed(text, c, Token::Operator),
        Sign::Open => passed(text, c, Token::Bracket),
        Sign::Word(v) => letters(text, past(text, c), v),
        Sign::Letter => numeral(text, past(text, c)),
        Sign::Infix(_) | Sign::Close | Sign::Digit(_) | Sign::Other => wrong(c),
    }
}

// Where an operand is wanted: a prefix sign, an opening bracket, a word.
pub fn operand(text: &[u8], c: TextCursor) -> TextStep
    requires { Stands text.now c }
    ensures { OperandRead text.now c result }
{
    match text.get(c.byte) {
        Some(&b) => operand_by(text, c, Sign::from(b)),
        None => wrong(c),
    }
}

// Where an operand has ended, by the sign that stands there. `depth` brackets are open.
fn operator_by(text: &[u8], c: TextCursor, depth: usize, k: Sign) -> TextStep
    requires { Sees text.now c k }
    ensures { OperatorRead text.now c depth result }
{
    match k {
        Sign::Blank => passed(text, c, Token::Space),
        Sign::Infix(_) => passed(text, c, Token::Operator),
        Sign::Close => {
            if depth == 0 {
                wrong(c)
            } else {
                passed(text, c, Token::Bracket)
            }
        }
        Sign::Prefix(_)
        | Sign::Open
        | Sign::Word(_)
        | Sign::Letter
        | Sign::Digit(_)
        | Sign::Other => wrong(c),
    }
}

// Where an operand has ended: an infix sign, a closing bracket, the end.
pub fn operator(text: &[u8], c: TextCursor, depth: usize) -> TextStep
    requires { Stands text.now c }
    ensures { OperatorRead text.now c depth result }
{
    match text.get(c.byte) {
        Some(&b) => operator_by(text, c, depth, Sign::from(b)),
        None if depth == 0 => TextStep {
            at: c,
            seen: Token::Finished,
        },
        None => wrong(c),
    }
}
