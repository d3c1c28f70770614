// The arguments, and the files that they name.
ghost use Rattle.std.specs.Prelude.{◌≤◌, length};
ghost use Rattle.files.specs.Within.{Within};

use crate::output;
use answers::Refusal;
use files::FileError;
use std::env::FillError;
use std::rt::Env;

// Where a file's name stands among the arguments: that of the only file, or of the first.
pub const FILE_AT: usize = 2;

// Room for an argument. A longer one counts as missing.
pub const NAME_ROOM: usize = 4096;

// Puts argument i to the front of the room: how many bytes it has, 0 where it is missing or there is no room for it.
pub fn argument(rt: HostRuntime, i: usize, room: &mut [u8]) -> usize
    ensures { result ≤ length room.old }
{
    rt.arg(i, room).unwrap_or(0)
}

// How many arguments there are, the program's name among them.
pub fn argument_count(rt: HostRuntime) -> usize {
    let mut room = [0u8; 1];
    for i in 0..usize::MAX {
        if let Err(FillError::NotPresent) = rt.arg(i, &mut room) {
            return i;
        }
    }
    usize::MAX
}

// Reads the file that argument i names to the front of the room. Where it cannot, that is told here.
pub fn take(rt: HostRuntime, i: usize, room: &mut [u8]) -> Result<usize, FileError>
    ensures { Within 0 (length room.old) result }
{
    let mut name = [0u8; NAME_ROOM];
    let n = argument(rt, i, &mut name);
    let read = files::read(&rt, &name[0..n], room);
    match read {
        Err(FileError::NotOpened(error)) => output::failed(rt, b"failed open ", &name[0..n], error),
        Err(FileError::NotRead(error)) => output::failed(rt, b"failed read ", &name[0..n], error),
        Ok(_) => {}
    }
    read
}

// The file that argument i names is refused. Its name is asked for again.
pub fn refused(rt: HostRuntime, i: usize, refusal: Refusal, words: &[u8])
    requires { length words.now ≤ 80 }
{
    let mut name = [0u8; NAME_ROOM];
    let n = argument(rt, i, &mut name);
    output::refused_file(rt, refusal, &name[0..n], words);
}
