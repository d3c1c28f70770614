// A rule file that is given: room for it, and why it is refused.
ghost use Rattle.std.specs.Prelude.{◌≤◌, length};

use crate::output;
use answers::Refusal;

// One byte more than the longest file, so that a longer one is refused by its length.
pub const FILE_ROOM: usize = 1169;

// Tells a refusal. A word with no other file gives no name: there is no file without one.
fn told(rt: HostRuntime, refusal: Refusal, name: &[u8], words: &[u8])
    requires { length words.now ≤ 80 }
{
    if name.len() == 0 {
        output::refused(rt, refusal, words);
        return;
    }
    output::refused_file(rt, refusal, name, words);
}

// The words for each refusal of `read` and `load`.
pub fn refused(rt: HostRuntime, refusal: Refusal, name: &[u8]) {
    match refusal {
        Refusal::Length => told(rt, refusal, name, b"wrong length"),
        Refusal::Version => told(rt, refusal, name, b"unknown version"),
        Refusal::Range => told(rt, refusal, name, b"count out of range"),
        Refusal::Offset => told(rt, refusal, name, b"wrong offset"),
        Refusal::Masks => told(rt, refusal, name, b"masks do not fit"),
        Refusal::Slots => told(rt, refusal, name, b"more than 64 slots"),
        Refusal::Nodes => told(rt, refusal, name, b"more than 4,096 nodes"),
        _ => told(rt, refusal, name, b"not a formula"),
    }
}
