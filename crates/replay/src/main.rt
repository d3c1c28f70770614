// Runs the library on the requests of standard input and writes an answer line for each, as tests/PROTOCOL.md says.
// The stored stream `stdin` and the second program's answers to it, `stdout`, are made by tests/store.
#![tactic(auto)]

mod calls;

use requests::header::{Call, HEADER_LENGTH, Request};
use requests::{BYTES_MOST, EVENTS_MOST, header, lent, line, payload};
use std::io;
use std::io::{Read, Write};

// What became of a request: whether it was good, and whether what it was lent afresh is to be kept.
#[derive(Clone, Copy)]
struct Made {
    good: bool,
    keep: bool,
}

// Fills what is lent and takes what is given: whether that was not cut short.
fn prepare<I: Read>(
    input: &mut I,
    call: Call,
    given: &mut [u8],
    numbers: &mut [u64],
    fresh: &mut [u8],
) -> io::Result<bool> {
    lent::fill_masks(numbers);
    lent::fill_bytes(fresh);
    payload::take(input, u32::from(call), numbers, given)
}

// Answers a request over the parts that are given and lent.
fn answer_over<I: Read, W: Write>(
    input: &mut I,
    out: &mut W,
    call: Call,
    value: u64,
    given: &mut [u8],
    numbers: &mut [u64],
    fresh: &mut [u8],
    kept: &mut [u8],
) -> io::Result<Made> {
    if !prepare(input, call, given, numbers, fresh)? {
        return Ok(Made {
            good: false,
            keep: false,
        });
    }
    let answered = calls::make(call, value, given, numbers, fresh, kept);
    line::write(out, u32::from(call), answered, numbers, kept, fresh)?;
    Ok(Made {
        good: true,
        keep: answered.number == 0 && call.keeps(),
    })
}

// Copies the bytes that were lent afresh over the front of the kept state. There are always so many in both; the test spares a
// proof of that.
fn keep(kept: &mut [u8], fresh: &[u8], length: usize) {
    if length <= kept.len() && length <= fresh.len() {
        buffers::copy(kept, &fresh[0..length]);
    }
}

// Answers a request: whether it was a good one, within the buffers, which are the limits, and not cut short.
fn answer<I: Read, W: Write>(
    input: &mut I,
    out: &mut W,
    request: Request,
    given: &mut [u8],
    numbers: &mut [u64],
    fresh: &mut [u8],
    kept: &mut [u8],
) -> io::Result<bool> {
    let g = request.given;
    let n = request.numbers;
    let f = request.fresh;
    let k = request.kept;
    if given.len() < g || numbers.len() < n || fresh.len() < f || kept.len() < k {
        return Ok(false);
    }
    let made = answer_over(
        input,
        out,
        request.call,
        request.value,
        &mut given[0..g],
        &mut numbers[0..n],
        &mut fresh[0..f],
        &mut kept[0..k],
    )?;
    if made.keep {
        keep(kept, fresh, f);
    }
    Ok(made.good)
}

fn bad<W: Write>(out: &mut W) -> io::Result<bool> {
    line::write_bad(out)?;
    Ok(false)
}

// One request: whether another may follow.
fn turn<I: Read, W: Write>(
    input: &mut I,
    out: &mut W,
    given: &mut [u8],
    numbers: &mut [u64],
    fresh: &mut [u8],
    kept: &mut [u8],
) -> io::Result<bool> {
    let mut bytes = [0u8; HEADER_LENGTH];
    let got = payload::take_front(input, &mut bytes)?;
    if got == 0 {
        return Ok(false);
    }
    if got != HEADER_LENGTH {
        return bad(out);
    }
    let Some(request) = header::request_in(&bytes) else {
        return bad(out);
    };
    if !answer(input, out, request, given, numbers, fresh, kept)? {
        return bad(out);
    }
    Ok(true)
}

// Nothing says that the input ends, so the turns are counted.
fn run<I: Read, W: Write>(
    input: &mut I,
    out: &mut W,
    given: &mut [u8],
    numbers: &mut [u64],
    fresh: &mut [u8],
    kept: &mut [u8],
) -> io::Result<()> {
    for _ in 0..u64::MAX {
        if !turn(input, out, given, numbers, fresh, kept)? {
            break;
        }
    }
    Ok(())
}

// What is given, masks or events, what is lent afresh, and the state that is kept.
fn main(rt: HostRuntime) -> io::Result<()> {
    let mut given = [0u8; BYTES_MOST];
    let mut numbers = [0u64; EVENTS_MOST];
    let mut fresh = [0u8; BYTES_MOST];
    let mut kept = [0u8; BYTES_MOST];
    run(
        &mut rt.stdin(),
        &mut rt.stdout(),
        &mut given,
        &mut numbers,
        &mut fresh,
        &mut kept,
    )
}
