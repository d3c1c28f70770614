// The call `parse`: a rule as people type it, read into formula bytes. The text is checked from its front, which finds the place of a
// refusal; its nodes are counted; and the formula is built from the text's end.
#![tactic(auto)]

ghost use Rattle.parsing.specs.Parse.{Parses};
ghost use Rattle.parsing.specs.Building.{BuildAsk, BuiltInto, TextAsk};

use answers::Refusal;
use cursor::TextCursor;
use limits::RULE_NODES_MOST;

// Why a text was not parsed: a refusal, or a place in bytes that are no text.
#[derive(Clone, Copy, Debug, PartialEq, Eq)]
pub enum ParseError {
    Refused(Refusal),
    NoText(TextCursor),
}

// The formula of a text of n nodes to the front of the output, and zeros behind it.
fn build_into(text: &[u8], formula: &mut [u8], n: usize)
    requires { BuildAsk text.now formula.old n }
    ensures { BuiltInto text.now formula.old formula.new }
{
    building::build(text, &mut formula[..n]);
    buffers::clear(&mut formula[n..]);
}

// Reads a text of the grammar.
fn parse_text(text: &[u8], formula: &mut [u8]) -> Result<usize, ParseError>
    requires { TextAsk text.now formula.old }
    ensures { Parses text.now formula.old formula.new result }
{
    let n = building::count_nodes(text);
    if RULE_NODES_MOST < n {
        return Err(ParseError::Refused(Refusal::Range));
    }
    build_into(text, formula, n);
    Ok(n)
}

pub fn parse(text: &[u8], formula: &mut [u8]) -> Result<usize, ParseError>
    ensures { Parses text.now formula.old formula.new result }
{
    if formula.len() != RULE_NODES_MOST {
        return Err(ParseError::Refused(Refusal::Length));
    }
    let found = recognising::recognise(text);
    match found {
        Ok(()) => parse_text(text, formula),
        Err(at) => Err(ParseError::NoText(at)),
    }
}
