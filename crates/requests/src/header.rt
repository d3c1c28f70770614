// The header of a request: which call, and how much is given and lent to it.
ghost use Rattle.std.specs.Prelude.{◌≡◌};
ghost use Rattle.requests.specs.Calls.{Numbers, number_of, is_given_numbers, lends_numbers, lends_kept, lends_fresh, lends_marks, keeps, ByNumber};

use crate::{BYTES_MOST, EVENTS_GIVEN_MOST, FILE_BYTES_MOST, MASKS_MOST, RUNS_BYTES_MOST};

// Three numbers of 32 bits stand behind the call's, and one of 64 bits behind those.
pub const HEADER_LENGTH: usize = 24;

const A_AT: usize = 4;

const B_AT: usize = 8;

const C_AT: usize = 12;

const VALUE_AT: usize = 16;

// A board's number is the payload of sample.
const BOARD_LENGTH: usize = 8;

// ---- the calls
#[derive(Clone, Copy, Debug, PartialEq, Eq)]
pub enum Call {
    Read,
    Write,
    Central,
    Load,
    Sample,
    Step,
    Close,
    Ask,
    Poke,
    Capture,
    Parse,
    Print,
    Report,
    Add,
    Mend,
    Stretch,
}

// A number that no call has.
#[derive(Clone, Copy, Debug, PartialEq, Eq)]
pub struct NoCall(pub u32);

impl TryFrom<u32> for Call {
    type Error = NoCall;

    ghost try_from_gives = { Numbers };

    fn try_from(number: u32) -> Result<Call, NoCall> {
        match number {
            1 => Ok(Call::Read),
            2 => Ok(Call::Write),
            3 => Ok(Call::Central),
            4 => Ok(Call::Load),
            5 => Ok(Call::Sample),
            6 => Ok(Call::Step),
            7 => Ok(Call::Close),
            8 => Ok(Call::Ask),
            9 => Ok(Call::Poke),
            10 => Ok(Call::Capture),
            11 => Ok(Call::Parse),
            12 => Ok(Call::Print),
            13 => Ok(Call::Report),
            14 => Ok(Call::Add),
            15 => Ok(Call::Mend),
            16 => Ok(Call::Stretch),
            _ => Err(NoCall(number)),
        }
    }
}

impl From<Call> for u32 {
    ghost from_gives = { λ call number. number ≡ number_of call };

    fn from(call: Call) -> u32 {
        match call {
            Call::Read => 1,
            Call::Write => 2,
            Call::Central => 3,
            Call::Load => 4,
            Call::Sample => 5,
            Call::Step => 6,
            Call::Close => 7,
            Call::Ask => 8,
            Call::Poke => 9,
            Call::Capture => 10,
            Call::Parse => 11,
            Call::Print => 12,
            Call::Report => 13,
            Call::Add => 14,
            Call::Mend => 15,
            Call::Stretch => 16,
        }
    }
}

// What is given and lent to a call. What is lent is hashed behind it.
impl Call {
    // Write is given masks, and capture events.
    pub fn is_given_numbers(self) -> bool
        ensures { result ≡ is_given_numbers self }
    {
        matches!(self, Call::Write | Call::Capture)
    }

    pub fn lends_numbers(self) -> bool
        ensures { result ≡ lends_numbers self }
    {
        matches!(self, Call::Read | Call::Stretch)
    }

    pub fn lends_kept(self) -> bool
        ensures { result ≡ lends_kept self }
    {
        matches!(
            self,
            Call::Sample | Call::Step | Call::Close | Call::Ask | Call::Capture | Call::Add
        )
    }

    pub fn lends_fresh(self) -> bool
        ensures { result ≡ lends_fresh self }
    {
        matches!(
            self,
            Call::Read
                | Call::Write
                | Call::Central
                | Call::Load
                | Call::Close
                | Call::Capture
                | Call::Parse
                | Call::Print
                | Call::Report
                | Call::Mend
        )
    }

    pub fn lends_marks(self) -> bool
        ensures { result ≡ lends_marks self }
    {
        self == Call::Mend
    }

    // What is lent afresh becomes the kept state where the call is accepted.
    pub fn keeps(self) -> bool
        ensures { result ≡ keeps self }
    {
        matches!(self, Call::Load | Call::Close | Call::Report)
    }
}

// The same by the call's number. By a number that no call has nothing is lent, and nothing kept.
pub fn lends_numbers(call: u32) -> bool
    ensures { ByNumber lends_numbers call result }
{
    Call::try_from(call).is_ok_and(|call| call.lends_numbers())
}

pub fn lends_kept(call: u32) -> bool
    ensures { ByNumber lends_kept call result }
{
    Call::try_from(call).is_ok_and(|call| call.lends_kept())
}

pub fn lends_fresh(call: u32) -> bool
    ensures { ByNumber lends_fresh call result }
{
    Call::try_from(call).is_ok_and(|call| call.lends_fresh())
}

pub fn lends_marks(call: u32) -> bool
    ensures { ByNumber lends_marks call result }
{
    Call::try_from(call).is_ok_and(|call| call.lends_marks())
}

pub fn keeps(call: u32) -> bool
    ensures { ByNumber keeps call result }
{
    Call::try_from(call).is_ok_and(|call| call.keeps())
}

// ---- the request
// The call and its value; how many numbers, which are masks or events, and bytes are given or lent to it, how many bytes are lent
// afresh, and how many of the kept state. A poke's bytes are the last of those that are lent of the kept state.
#[derive(Clone, Copy, Debug, PartialEq, Eq)]
pub struct Request {
    pub call: Call,
    pub value: u64,
    pub numbers: usize,
    pub given: usize,
    pub fresh: usize,
    pub kept: usize,
}

impl Request {
    // A call without a value, to which nothing is given or lent.
    fn bare(call: Call) -> Request {
        Request {
            call,
            value: 0,
            numbers: 0,
            given: 0,
            fresh: 0,
            kept: 0,
        }
    }
}

// A number that is not above the most.
fn within(n: usize, most: usize) -> Option<usize> {
    if n <= most { Some(n) } else { None }
}

// How often so many bytes of runs are repeated: as often as is asked for, where there are any and there is room for all.
fn repeats(runs: usize, times: usize) -> Option<usize> {
    if runs == 0 {
        return Some(0);
    }
    within(times, RUNS_BYTES_MOST / runs)
}

// The request of a call by the three numbers and the value behind it. There is none where a file or a list of runs is too long, or
// masks, events or marks are too many.
fn request_of(call: Call, a: usize, b: usize, c: usize, value: u64) -> Option<Request> {
    let bare = Request::bare(call);
    let request = match call {
        Call::Read => Request {
            numbers: within(b, MASKS_MOST)?,
            given: within(a, FILE_BYTES_MOST)?,
            fresh: c,
            ..bare
        },
        Call::Write => Request {
            value,
            numbers: within(a, MASKS_MOST)?,
            given: b,
            fresh: c,
            ..bare
        },
        Call::Central => Request {
            value,
            given: a,
            fresh: c,
            ..bare
        },
        Call::Load => Request {
            given: within(a, FILE_BYTES_MOST)?,
            fresh: c,
            ..bare
        },
        Call::Sample => Request {
            value,
            given: BOARD_LENGTH,
            kept: b,
            ..bare
        },
        Call::Step => Request {
            value,
            kept: b,
            ..bare
        },
        Call::Close => Request {
            fresh: c,
            kept: b,
            ..bare
        },
        Call::Ask => Request { kept: b, ..bare },
        Call::Poke => Request {
            given: a,
            kept: a.saturating_add(b),
            ..bare
        },
        Call::Capture => Request {
            numbers: within(a, EVENTS_GIVEN_MOST)?,
            fresh: c,
            kept: b,
            ..bare
        },
        Call::Parse | Call::Print => Request {
            given: a,
            fresh: c,
            ..bare
        },
        Call::Report => Request {
            value: repeats(a, b)? as u64,
            given: a,
            fresh: c,
            ..bare
        },
        Call::Add => Request {
            given: a,
            kept: b,
            ..bare
        },
        Call::Mend => Request {
            value: within(c, BYTES_MOST)? as u64,
            given: a,
            fresh: b,
            ..bare
        },
        Call::Stretch => Request {
            numbers: c,
            given: a,
            ..bare
        },
    };
    Some(request)
}

// The request that a header asks for.
pub fn request_in(header: &[u8; HEADER_LENGTH]) -> Option<Request> {
    let call = Call::try_from(le::u32_at(header, 0)).ok()?;
    request_of(
        call,
        le::u32_at(header, A_AT) as usize,
        le::u32_at(header, B_AT) as usize,
        le::u32_at(header, C_AT) as usize,
        le::u64_at(header, VALUE_AT),
    )
}
