// The call `mend`: a recording without its doubled records, and a mark for each record. Every record is looked at before one is written,
// because a clash refuses the whole, and a refusal leaves every byte.
#![tactic(auto)]

ghost use Rattle.std.specs.Prelude.{◌≡◌, ◌++◌, ◌<◌, ◌≤◌, ◌^◌, length, drop};
ghost use Rattle.recordings.specs.Recording.{records_at, recording_length, header_of};
ghost use Rattle.mending.specs.Mend.{Mends};

use answers::Refusal;
use recordings::{Mended, RECORD_LENGTH, RECORDS_AT};

// Puts the header of n records.
fn put_header(mended: &mut [u8], n: usize)
    requires { (records_at ≤ length mended.old) × (recording_length n < 2 ^ 32) }
    ensures { mended.new ≡ header_of n ++ drop records_at mended.old }
{
    le::put_u32(mended, 0, n as u32);
    le::put_u32(mended, 4, RECORDS_AT as u32);
    le::put_u32(mended, 8, (RECORDS_AT + RECORD_LENGTH * n) as u32);
    le::put_u32(mended, 12, 0);
}

pub fn mend(recording: &[u8], mended: &mut [u8], marks: &mut [u8]) -> Result<Mended, Refusal>
    ensures { Mends recording.now mended.old marks.old mended.new marks.new result }
{
    if mended.len() != recording.len() {
        return Err(Refusal::Length);
    }
    inspecting::inspect(recording, marks.len())?;
    let counts = sifting::sift(recording, &mut mended[RECORDS_AT..], marks);
    put_header(mended, counts.kept);
    Ok(counts)
}
