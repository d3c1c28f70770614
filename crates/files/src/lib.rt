// A file read whole, by its name or from standard input, as far as the room that is lent goes.
#![tactic(auto)]

ghost use Rattle.std.specs.Prelude.{◌≤◌, length};
ghost use Rattle.files.specs.Within.{Within};

use std::io::{ErrorKind, Read};
use std::rt::Files;
use std::{fs, io};

// Why no bytes were read.
#[derive(Clone, Copy, Debug)]
pub enum FileError {
    NotOpened(io::Error),
    NotRead(io::Error),
}

// Reads until the room is full or the input has ended: how many bytes came, to the front of the room. A read that a signal broke off
// counts as failed.
fn read_all<F: Read>(file: &mut F, room: &mut [u8]) -> Result<usize, FileError>
    ensures { Within 0 (length room.old) result }
{
    let mut end = 0;
    // A `while`: a read brings as many bytes as there are, and none where the input has ended.
    while end < room.len() {
        let got = file.read(&mut room[end..]).map_err(FileError::NotRead)?;
        if got == 0 {
            break;
        }
        end += got;
    }
    Ok(end)
}

// Reads the file of this name, or standard input where that is `-`: how many bytes it has, to the front of the room, or the error that
// says why there are none. A name that is not UTF-8 names no file.
pub fn read<R: Files + Input>(rt: &R, name: &[u8], room: &mut [u8]) -> Result<usize, FileError>
    ensures { Within 0 (length room.old) result }
{
    if name == b"-".as_slice() {
        return read_all(&mut rt.reader(), room);
    }
    let Ok(path) = str::from_utf8(name) else {
        return Err(FileError::NotOpened(io::Error::from(ErrorKind::InvalidFilename)));
    };
    let mut file = fs::open(rt, path).map_err(FileError::NotOpened)?;
    read_all(&mut file, room)
}
