// A request's payload, taken from the input: whether it was not cut short.
ghost use Rattle.std.specs.Prelude.{◌≤◌, length, IfOk};
ghost use Rattle.requests.specs.Calls.{is_given_numbers, ByNumber};

use crate::header::Call;
use std::io;
use std::io::Read;

// Reads until the bytes are full or the input has ended: how many came.
pub fn take_front<I: Read>(input: &mut I, bytes: &mut [u8]) -> io::Result<usize>
    ensures { IfOk result (λ n. n ≤ length bytes.old) }
{
    let mut end = 0;
    // A `while`: a read brings as many bytes as there are, and none where the input has ended.
    while end < bytes.len() {
        let got = input.read(&mut bytes[end..])?;
        if got == 0 {
            break;
        }
        end += got;
    }
    Ok(end)
}

fn take_bytes<I: Read>(input: &mut I, bytes: &mut [u8]) -> io::Result<bool> {
    let came = take_front(input, bytes)?;
    Ok(came == bytes.len())
}

fn take_numbers<I: Read>(input: &mut I, numbers: &mut [u64]) -> io::Result<bool> {
    for number in numbers.iter_mut() {
        let mut eight = [0u8; 8];
        if !take_bytes(input, &mut eight)? {
            return Ok(false);
        }
        *number = u64::from_le_bytes(eight);
    }
    Ok(true)
}

// A number that no call has is given none.
fn is_given_numbers(call: u32) -> bool
    ensures { ByNumber is_given_numbers call result }
{
    Call::try_from(call).is_ok_and(|call| call.is_given_numbers())
}

// The numbers come first.
pub fn take<I: Read>(
    input: &mut I,
    call: u32,
    numbers: &mut [u64],
    given: &mut [u8],
) -> io::Result<bool> {
    if is_given_numbers(call) && !take_numbers(input, numbers)? {
        return Ok(false);
    }
    take_bytes(input, given)
}

// The bytes that are given, so many times over, to the front of the room: how many they are then. There is always room for all; the test
// spares a proof of that.
pub fn repeated(given: &[u8], times: u64, room: &mut [u8]) -> usize
    ensures { result ≤ length room.old }
{
    let mut end: usize = 0;
    for _ in 0..times {
        if room.len() - end < given.len() {
            return end;
        }
        let behind = end + given.len();
        room[end..behind].copy_from_slice(given);
        end = behind;
    }
    end
}
