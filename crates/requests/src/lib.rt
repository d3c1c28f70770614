// A request of the replay protocol (tests/PROTOCOL.md), without the calls: its header, its payload, what is lent to a call, and the
// line that answers it.
#![tactic(auto)]

pub mod header;
pub mod lent;
pub mod line;
pub mod payload;

// The limits of a request. They are above those of the calls, so that what is too long for a call can be asked for.

// The most bytes that are given or lent, and the length of the kept state.
pub const BYTES_MOST: usize = 8192;

// The most bytes of a file.
pub const FILE_BYTES_MOST: usize = 4096;

// The most masks that are given or lent.
pub const MASKS_MOST: usize = 32;

// The most events that are given.
pub const EVENTS_GIVEN_MOST: usize = 256;

// The most events that are lent. Masks have their place where events have theirs, and events that are given where those are that are
// lent.
pub const EVENTS_MOST: usize = 1024;

// The most bytes of runs, which are those given, repeated: two runs more than a list may have.
pub const RUNS_BYTES_MOST: usize = 786456;
