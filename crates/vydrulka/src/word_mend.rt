// The word `mend`: writes a recording without its doubled records, and tells its breaks.
ghost use Rattle.vydrulka.specs.Rooms.{RecordingRooms};

use crate::input::FILE_AT;
use crate::recording::{RECORDING_MOST, RECORDING_ROOM, RECORDS_MOST};
use crate::{output, recording};
use recordings::{RECORD_LENGTH, RECORDS_AT};

// How many arguments there are: the program's name, the word and the file.
const ARGUMENTS: usize = 3;

// Mends in these rooms. What is told of the recording stands behind the result.
fn mend_in(rt: HostRuntime, room: &mut [u8], mended: &mut [u8], marks: &mut [u8])
    requires { RecordingRooms room.old mended.old marks.old }
{
    let answer = recording::take(rt, FILE_AT, room, mended, marks);
    let Some(counts) = answer else {
        return;
    };
    let length = RECORDS_AT + RECORD_LENGTH * counts.kept;
    if output::result(rt, &mended[0..length]) {
        let records = counts.records;
        recording::tell(rt, room, &marks[0..records], counts);
    }
}

// The rooms are made in a function of their own: they are too large to be looked at with what is done in them.
fn mend(rt: HostRuntime) {
    let mut room = [0u8; RECORDING_ROOM];
    let mut mended = [0u8; RECORDING_MOST];
    let mut marks = [0u8; RECORDS_MOST];
    mend_in(rt, &mut room, &mut mended, &mut marks);
}

// Runs the word, with so many arguments, the program's name and the word among them.
pub fn run(rt: HostRuntime, count: usize) {
    if count != ARGUMENTS {
        output::usage(rt);
        return;
    }
    mend(rt);
}
