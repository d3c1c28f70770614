// The calls for programs in C and other languages: numbers and slices alone. Each answers 0 or the refusal's number, and writes
// the values behind the references only where it answers 0; `vydrulka_parse` writes line and byte only where it answers 16, and
// `vydrulka_report` the place only where it answers 19.
#![tactic(auto)]

ghost use Rattle.std.specs.Prelude.{◌≡◌};
ghost use Rattle.answers.specs.Said.{said_outcome};
ghost use Rattle.exported.specs.Exported.{ReadExported, WriteExported, ParseExported, PrintExported, CentralExported, LoadExported, SampleExported, StepExported, CloseExported, AskExported, CaptureExported, ReportExported, AddExported, MendExported, StretchExported};

use answers::Refusal;
use parsing::ParseError;
use reporting::ReportError;

#[unsafe(no_mangle)]
pub extern "C" fn vydrulka_read(
    file: &[u8],
    masks: &mut [u64],
    formula: &mut [u8],
    boards: &mut u64,
    propositions: &mut u64,
    nodes: &mut u64,
) -> u32
    ensures { ReadExported file.now masks.old formula.old masks.new formula.new boards.old propositions.old nodes.old boards.new propositions.new nodes.new result }
{
    let answer = reading::read(file, masks, formula);
    match answer {
        Err(why) => u32::from(why),
        Ok(c) => {
            *boards = c.boards;
            *propositions = c.propositions;
            *nodes = c.nodes;
            0
        }
    }
}

#[unsafe(no_mangle)]
pub extern "C" fn vydrulka_write(
    masks: &[u64],
    propositions: u64,
    formula: &[u8],
    file: &mut [u8],
    written: &mut u64,
) -> u32
    ensures { WriteExported masks.now propositions formula.now file.old file.new written.old written.new result }
{
    let answer = writing::write(masks, propositions, formula, file);
    match answer {
        Err(why) => u32::from(why),
        Ok(n) => {
            *written = n as u64;
            0
        }
    }
}

#[unsafe(no_mangle)]
pub extern "C" fn vydrulka_parse(
    text: &[u8],
    formula: &mut [u8],
    nodes: &mut u64,
    line: &mut u64,
    byte: &mut u64,
) -> u32
    ensures { ParseExported text.now formula.old formula.new nodes.old line.old byte.old nodes.new line.new byte.new result }
{
    let answer = parsing::parse(text, formula);
    match answer {
        Err(ParseError::Refused(why)) => u32::from(why),
        Err(ParseError::NoText(at)) => {
            *line = at.line as u64;
            *byte = at.byte as u64;
            16
        }
        Ok(n) => {
            *nodes = n as u64;
            0
        }
    }
}

#[unsafe(no_mangle)]
pub extern "C" fn vydrulka_print(formula: &[u8], text: &mut [u8], length: &mut u64) -> u32
    ensures { PrintExported formula.now text.old text.new length.old length.new result }
{
    let answer = printing::print(formula, text);
    match answer {
        Err(why) => u32::from(why),
        Ok(n) => {
            *length = n as u64;
            0
        }
    }
}

#[unsafe(no_mangle)]
pub extern "C" fn vydrulka_central(
    formula: &[u8],
    event: u64,
    output: &mut [u8],
    verdict: &mut u32,
    nodes: &mut u64,
) -> u32
    ensures { CentralExported formula.now event output.old output.new verdict.old nodes.old verdict.new nodes.new result }
{
    let answer = central::central(formula, event, output);
    match answer {
        Err(why) => u32::from(why),
        Ok(p) => {
            let v = p.verdict;
            *verdict = u32::from(v);
            *nodes = p.length as u64;
            0
        }
    }
}

// The number of an answer without values.
fn number_of(outcome: Result<(), Refusal>) -> u32
    ensures { result ≡ (said_outcome outcome).number }
{
    match outcome {
        Err(why) => u32::from(why),
        Ok(()) => 0,
    }
}

#[unsafe(no_mangle)]
pub extern "C" fn vydrulka_load(file: &[u8], state: &mut [u8]) -> u32
    ensures { LoadExported file.now state.old state.new result }
{
    number_of(loading::load(file, state))
}

#[unsafe(no_mangle)]
pub extern "C" fn vydrulka_sample(state: &mut [u8], board: u64, bits: u64) -> u32
    ensures { SampleExported state.old board bits state.new result }
{
    number_of(sampling::sample(state, board, bits))
}

#[unsafe(no_mangle)]
pub extern "C" fn vydrulka_step(state: &mut [u8], slot: u64) -> u32
    ensures { StepExported state.old slot state.new result }
{
    number_of(stepping::step(state, slot))
}

#[unsafe(no_mangle)]
pub extern "C" fn vydrulka_close(state: &[u8], second: &mut [u8]) -> u32
    ensures { CloseExported state.now second.old second.new result }
{
    number_of(closing::close(state, second))
}

#[unsafe(no_mangle)]
pub extern "C" fn vydrulka_ask(
    state: &[u8],
    verdict: &mut u32,
    ticks: &mut u32,
    slots: &mut u64,
    nodes: &mut u64,
) -> u32
    ensures { AskExported state.now verdict.old ticks.old slots.old nodes.old verdict.new ticks.new slots.new nodes.new result }
{
    let answer = asking::ask(state);
    match answer {
        Err(why) => u32::from(why),
        Ok(t) => {
            let v = t.verdict;
            *verdict = u32::from(v);
            *ticks = t.ticks;
            *slots = t.slots as u64;
            *nodes = t.nodes as u64;
            0
        }
    }
}

#[unsafe(no_mangle)]
pub extern "C" fn vydrulka_capture(
    state: &mut [u8],
    second: &mut [u8],
    events: &[u64],
    closed: &mut u64,
    verdict: &mut u32,
    stop: &mut u32,
) -> u32
    ensures { CaptureExported state.old second.old events.now state.new second.new closed.old verdict.old stop.old closed.new verdict.new stop.new result }
{
    let answer = capturing::capture(state, second, events);
    match answer {
        Err(why) => u32::from(why),
        Ok(c) => {
            let v = c.verdict;
            let o = c.stop;
            *closed = c.closed as u64;
            *verdict = u32::from(v);
            *stop = number_of(o);
            0
        }
    }
}

#[unsafe(no_mangle)]
pub extern "C" fn vydrulka_report(runs: &[u8], report: &mut [u8], place: &mut u64) -> u32
    ensures { ReportExported runs.now report.old report.new place.old place.new result }
{
    let answer = reporting::report(runs, report);
    match answer {
        Err(ReportError::Refused(why)) => u32::from(why),
        Err(ReportError::NoRun(at)) => {
            *place = at as u64;
            19
        }
        Ok(()) => 0,
    }
}

#[unsafe(no_mangle)]
pub extern "C" fn vydrulka_add(total: &mut [u8], night: &[u8]) -> u32
    ensures { AddExported total.old night.now total.new result }
{
    number_of(adding::add(total, night))
}

#[unsafe(no_mangle)]
pub extern "C" fn vydrulka_mend(
    recording: &[u8],
    mended: &mut [u8],
    marks: &mut [u8],
    kept: &mut u64,
    first: &mut u64,
) -> u32
    ensures { MendExported recording.now mended.old marks.old mended.new marks.new kept.old first.old kept.new first.new result }
{
    let answer = mending::mend(recording, mended, marks);
    match answer {
        Err(why) => u32::from(why),
        Ok(m) => {
            *kept = m.kept as u64;
            *first = m.first as u64;
            0
        }
    }
}

#[unsafe(no_mangle)]
pub extern "C" fn vydrulka_stretch(recording: &[u8], events: &mut [u64], first: &mut u64) -> u32
    ensures { StretchExported recording.now events.old events.new first.old first.new result }
{
    let answer = stretching::stretch(recording, events);
    match answer {
        Err(why) => u32::from(why),
        Ok(n) => {
            *first = n as u64;
            0
        }
    }
}
