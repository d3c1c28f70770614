// The calls, each over what a request gives and lends. None of them reads or writes a line.
use answers::Refusal;
use cursor::TextCursor;
use parsing::ParseError;
use recordings::Mended;
use reporting::ReportError;
use requests::header::Call;
use requests::line::Answered;
use requests::{BYTES_MOST, RUNS_BYTES_MOST, lent, payload};

// Of a call without values.
fn outcome(outcome: Result<(), Refusal>) -> Answered {
    match outcome {
        Err(refusal) => Answered::refused(refusal),
        Ok(()) => Answered::done(),
    }
}

fn read(file: &[u8], masks: &mut [u64], formula: &mut [u8]) -> Answered {
    let answer = reading::read(file, masks, formula);
    match answer {
        Err(refusal) => Answered::refused(refusal),
        Ok(counts) => {
            Answered::accepted(3, [counts.boards, counts.propositions, counts.nodes, 0])
        }
    }
}

fn write(masks: &[u64], propositions: u64, formula: &[u8], file: &mut [u8]) -> Answered {
    let answer = writing::write(masks, propositions, formula, file);
    match answer {
        Err(refusal) => Answered::refused(refusal),
        Ok(length) => Answered::one(length as u64),
    }
}

// Of bytes that are no text: the place.
fn no_text(at: TextCursor) -> Answered {
    Answered::no_text(at.line as u64, at.byte as u64)
}

fn parse(text: &[u8], formula: &mut [u8]) -> Answered {
    let answer = parsing::parse(text, formula);
    match answer {
        Err(ParseError::Refused(refusal)) => Answered::refused(refusal),
        Err(ParseError::NoText(at)) => no_text(at),
        Ok(nodes) => Answered::one(nodes as u64),
    }
}

fn print(formula: &[u8], text: &mut [u8]) -> Answered {
    let answer = printing::print(formula, text);
    match answer {
        Err(refusal) => Answered::refused(refusal),
        Ok(length) => Answered::one(length as u64),
    }
}

fn central(formula: &[u8], event: u64, output: &mut [u8]) -> Answered {
    let answer = central::central(formula, event, output);
    match answer {
        Err(refusal) => Answered::refused(refusal),
        Ok(progress) => {
            let verdict = progress.verdict;
            Answered::accepted(
                2,
                [u64::from(u32::from(verdict)), progress.length as u64, 0, 0],
            )
        }
    }
}

fn load(file: &[u8], state: &mut [u8]) -> Answered {
    outcome(loading::load(file, state))
}

// The board's number is what is given, always 8 bytes; the test spares a proof of that.
fn sample(state: &mut [u8], board: &[u8], bits: u64) -> Answered {
    if board.len() < 8 {
        return Answered::done();
    }
    outcome(sampling::sample(state, le::u64_at(board, 0), bits))
}

fn step(state: &mut [u8], slot: u64) -> Answered {
    outcome(stepping::step(state, slot))
}

fn close(state: &[u8], second: &mut [u8]) -> Answered {
    outcome(closing::close(state, second))
}

fn ask(state: &[u8]) -> Answered {
    let answer = asking::ask(state);
    match answer {
        Err(refusal) => Answered::refused(refusal),
        Ok(standing) => {
            let verdict = standing.verdict;
            Answered::accepted(
                4,
                [
                    u64::from(u32::from(verdict)),
                    standing.ticks as u64,
                    standing.slots as u64,
                    standing.nodes as u64,
                ],
            )
        }
    }
}

// Puts what is given over the last bytes that are lent of the kept state. There are always so many; the test spares a proof of that.
fn poke(kept: &mut [u8], given: &[u8]) -> Answered {
    if kept.len() < given.len() {
        return Answered::done();
    }
    let at = kept.len() - given.len();
    buffers::copy(&mut kept[at..], given);
    Answered::done()
}

// How many events were closed, how the state that is left stands, and the refusal's number, 0 where there was none.
fn capture(state: &mut [u8], second: &mut [u8], events: &[u64]) -> Answered {
    let answer = capturing::capture(state, second, events);
    match answer {
        Err(refusal) => Answered::refused(refusal),
        Ok(run) => {
            let verdict = run.verdict;
            let stop = run.stop;
            Answered::accepted(
                3,
                [
                    run.closed as u64,
                    u64::from(u32::from(verdict)),
                    outcome(stop).number,
                    0,
                ],
            )
        }
    }
}

// What is given, so many times over, is the runs.
fn report_in(given: &[u8], times: u64, room: &mut [u8], report: &mut [u8]) -> Answered {
    let n = payload::repeated(given, times, room);
    let answer = reporting::report(&room[0..n], report);
    match answer {
        Err(ReportError::Refused(refusal)) => Answered::refused(refusal),
        Err(ReportError::NoRun(place)) => Answered::no_run(place as u64),
        Ok(()) => Answered::done(),
    }
}

// The room is made in a function of its own: it is too large to be looked at with what is done in it.
fn report(given: &[u8], times: u64, report: &mut [u8]) -> Answered {
    let mut room = [0u8; RUNS_BYTES_MOST];
    report_in(given, times, &mut room, report)
}

fn add(total: &mut [u8], night: &[u8]) -> Answered {
    outcome(adding::add(total, night))
}

fn mended(answer: Result<Mended, Refusal>) -> Answered {
    match answer {
        Err(refusal) => Answered::refused(refusal),
        Ok(told) => { Answered::accepted(2, [told.kept as u64, told.first as u64, 0, 0]) }
    }
}

fn mend_in(recording: &[u8], out: &mut [u8], marks: &mut [u8]) -> Answered {
    lent::fill_bytes(marks);
    let answer = mending::mend(recording, out, marks);
    Answered {
        marks: lent::hash_bytes(marks),
        ..mended(answer)
    }
}

// The marks are lent from a room that is made here. There are never too many of them; the test spares a proof of that.
fn mend(recording: &[u8], count: u64, out: &mut [u8]) -> Answered {
    let mut room = [0u8; BYTES_MOST];
    let n = count as usize;
    if BYTES_MOST < n {
        return Answered::done();
    }
    mend_in(recording, out, &mut room[0..n])
}

fn stretch(recording: &[u8], events: &mut [u64]) -> Answered {
    let answer = stretching::stretch(recording, events);
    match answer {
        Err(refusal) => Answered::refused(refusal),
        Ok(taken) => Answered::one(taken as u64),
    }
}

pub fn make(
    call: Call,
    value: u64,
    given: &[u8],
    numbers: &mut [u64],
    fresh: &mut [u8],
    kept: &mut [u8],
) -> Answered {
    match call {
        Call::Read => read(given, numbers, fresh),
        Call::Write => write(numbers, value, given, fresh),
        Call::Parse => parse(given, fresh),
        Call::Print => print(given, fresh),
        Call::Central => central(given, value, fresh),
        Call::Load => load(given, fresh),
        Call::Sample => sample(kept, given, value),
        Call::Step => step(kept, value),
        Call::Close => close(kept, fresh),
        Call::Ask => ask(kept),
        Call::Capture => capture(kept, fresh, numbers),
        Call::Report => report(given, value, fresh),
        Call::Add => add(kept, given),
        Call::Mend => mend(given, value, fresh),
        Call::Stretch => stretch(given, numbers),
        Call::Poke => poke(kept, given),
    }
}
