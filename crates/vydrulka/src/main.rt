// The program `vydrulka`: its first argument is a word that says what to do, and the other arguments are for that. Each word has a file
// here, and `report` and `csv` have one together. What a word is asked for goes to standard output, at once and only where everything
// was accepted; all else goes to standard error, and its last line says what came of it.
#![tactic(auto)]

mod input;
mod output;
mod recording;
mod rule_file;
mod word_mend;
mod word_report;
mod word_rule;
mod word_text;
mod word_watch;

use tables::Sheet;

// Room for the longest word and one byte more, so that no longer one looks like it.
const WORD_ROOM: usize = 16;

// What to do.
#[derive(Clone, Copy)]
enum Word {
    Rule,
    Text,
    Report,
    Csv,
    Mend,
    Watch,
    Unknown,
}

fn word_in(arg: &[u8]) -> Word {
    match arg {
        b"rule" => Word::Rule,
        b"text" => Word::Text,
        b"report" => Word::Report,
        b"csv" => Word::Csv,
        b"mend" => Word::Mend,
        b"watch" => Word::Watch,
        _ => Word::Unknown,
    }
}

fn main(rt: HostRuntime) {
    let mut arg = [0u8; WORD_ROOM];
    let n = input::argument(rt, 1, &mut arg);
    let word = word_in(&arg[0..n]);
    let count = input::argument_count(rt);
    match word {
        Word::Rule => word_rule::run(rt, count),
        Word::Text => word_text::run(rt, count),
        Word::Report => word_report::run(rt, count, Sheet::Table),
        Word::Csv => word_report::run(rt, count, Sheet::Values),
        Word::Mend => word_mend::run(rt, count),
        Word::Watch => word_watch::run(rt, count),
        Word::Unknown => output::usage(rt),
    }
}
