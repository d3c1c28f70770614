// A recording that an argument names: it is read and mended, and told about. The words `mend` and `watch` share this.
ghost use Rattle.std.specs.Prelude.{◌≡◌, ◌+◌, ◌<◌, ◌≤◌, length};
ghost use Rattle.answers.specs.declared.Refusal.TheVariants as refusal;
ghost use Rattle.recordings.specs.Recording.{record_length, recording_length};
ghost use Rattle.vydrulka.specs.Rooms.{records_most, RecordingRooms, CountedTo};

use crate::input::NAME_ROOM;
use crate::{input, output};
use answers::Refusal;
use recordings::{BROKEN, RECORD_LENGTH, RECORDS_AT};

// A recording may have any number of records, but the program has room for so many, and for their bytes.
pub const RECORDS_MOST: usize = 100000;

pub const RECORDING_MOST: usize = RECORDS_AT + RECORD_LENGTH * RECORDS_MOST;

// It reads one byte more, so that a longer one is never cut.
pub const RECORDING_ROOM: usize = RECORDING_MOST + 1;

// How many records a recording has, how many of them were kept, and how many of these are in the first stretch. Where there are no such
// counts the recording was not mended, and why has been told.
#[derive(Clone, Copy)]
pub struct RecordCounts {
    pub records: usize,
    pub kept: usize,
    pub first: usize,
}

// ---- a recording that is refused
// The header's numbers do not agree.
fn no_header(rt: HostRuntime, i: usize) {
    input::refused(rt, i, Refusal::Offset, b"header numbers that do not agree");
}

// Two records clash: the first place where that is so is told.
fn clash(rt: HostRuntime, i: usize, recording: &[u8], records: usize)
    requires { recording_length records ≤ length recording.now }
{
    let mut name = [0u8; NAME_ROOM];
    let n = input::argument(rt, i, &mut name);
    let place = inspecting::first_clash(recording, records);
    output::clash(rt, &name[0..n], place as u64);
}

// Any refusal of `mend`.
fn refused(rt: HostRuntime, i: usize, recording: &[u8], records: usize, why: Refusal)
    requires { why ≡ refusal.Clash → recording_length records ≤ length recording.now }
{
    match why {
        Refusal::Clash => clash(rt, i, recording, records),
        Refusal::Offset => no_header(rt, i),
        _ => input::refused(rt, i, why, b"not as long as its header says"),
    }
}

// ---- a recording that is mended
// Mends with as many marks as there are records.
fn mend(
    rt: HostRuntime,
    i: usize,
    recording: &[u8],
    mended: &mut [u8],
    marks: &mut [u8],
) -> Option<RecordCounts>
    ensures { CountedTo (length marks.old) result }
{
    let answer = mending::mend(recording, mended, marks);
    match answer {
        Err(why) => {
            refused(rt, i, recording, marks.len(), why);
            None
        }
        Ok(m) => Some(RecordCounts {
            records: marks.len(),
            kept: m.kept,
            first: m.first,
        }),
    }
}

// How many records there are, by the header. Where the bytes are not as many as it says it is not asked: `mend` refuses them whatever
// number of marks it is lent.
fn count_of(recording: &[u8]) -> usize {
    if inspecting::total_fits(recording) {
        return inspecting::count_in(recording);
    }
    0
}

// Mends what was read. The bytes are no more than there is room for, so a header with more records than that has numbers that do not
// agree. `mend` would say so where it is lent as many marks, and there is no room for those.
fn mend_read(
    rt: HostRuntime,
    i: usize,
    recording: &[u8],
    mended: &mut [u8],
    marks: &mut [u8],
) -> Option<RecordCounts>
    requires { length marks.old ≡ records_most }
    ensures { CountedTo records_most result }
{
    let records = count_of(recording);
    if RECORDS_MOST < records {
        no_header(rt, i);
        return None;
    }
    mend(rt, i, recording, mended, &mut marks[0..records])
}

// Reads the recording that argument i names into the room, and mends it.
pub fn take(
    rt: HostRuntime,
    i: usize,
    room: &mut [u8],
    mended: &mut [u8],
    marks: &mut [u8],
) -> Option<RecordCounts>
    requires { RecordingRooms room.old mended.old marks.old }
    ensures { CountedTo records_most result }
{
    let Ok(n) = input::take(rt, i, room) else {
        return None;
    };
    if RECORDING_MOST < n {
        output::too_many_records(rt);
        return None;
    }
    mend_read(rt, i, &room[0..n], &mut mended[0..n], marks)
}

// ---- what is told of it
// The break before record i, where its mark is that of one: how many were told.
fn tell_break(rt: HostRuntime, recording: &[u8], i: usize, mark: u8) -> u64
    requires { (0 < i) × (recording_length i + record_length ≤ length recording.now) }
    ensures { result ≤ 1 }
{
    if mark != BROKEN {
        return 0;
    }
    let at = RECORDS_AT + RECORD_LENGTH * i;
    let before = le::u32_at(recording, at - RECORD_LENGTH);
    let counter = le::u32_at(recording, at);
    output::broken(rt, i as u64, before as u64, counter as u64);
    1
}

// Each break, in order: how many there are. Before the first record there is none.
fn tell_breaks(rt: HostRuntime, recording: &[u8], marks: &[u8]) -> u64
    requires { recording_length (length marks.now) ≤ length recording.now }
{
    let mut breaks: u64 = 0;
    for i in 1..marks.len() {
        breaks += tell_break(rt, recording, i, marks[i]);
    }
    breaks
}

// The breaks, and then what the recording has.
pub fn tell(rt: HostRuntime, recording: &[u8], marks: &[u8], counts: RecordCounts)
    requires { (counts.kept ≤ counts.records) × (recording_length (length marks.now) ≤ length recording.now) }
{
    let breaks = tell_breaks(rt, recording, marks);
    let dropped = counts.records - counts.kept;
    output::recording(
        rt,
        counts.records as u64,
        counts.kept as u64,
        dropped as u64,
        breaks,
        counts.first as u64,
    );
}
