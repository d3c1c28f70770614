// The boards' records: a mask, a sample and whether the board has sampled.
ghost use Rattle.std.specs.Prelude.{◌≡◌, ◌++◌, ◌*◌, ◌<◌, ◌≤◌, length, drop};
ghost use Rattle.lists.specs.Listed.{listed};
ghost use Rattle.limits.specs.Limits.{boards_most};
ghost use Rattle.state.specs.Form.{board_row, Formed};
ghost use Rattle.state.specs.Fields.{mask_in, sample_in, sampled_in};
ghost use Rattle.state.specs.Bytes.{board_record, board_records};
ghost use Rattle.state.specs.Writes.{sample_given};

use crate::{BOARDS_AT, Form};

// Board i's mask.
pub fn mask_of(s: &[u8], i: usize) -> u64
    requires { Formed s.now × (i < boards_most) }
    ensures { result ≡ mask_in s.now i }
{
    let form = Form::from(s.len());
    le::u64_at(s, form.board_at(i))
}

// The masks of the first n boards, to the front of `out`.
pub fn masks_of(s: &[u8], out: &mut [u64], n: usize)
    requires { Formed s.now × (n ≤ boards_most) × (n ≤ length out.old) }
    ensures { out.new ≡ listed (mask_in s.now) n ++ drop n out.old }
{
    let form = Form::from(s.len());
    le::column(s, BOARDS_AT, form.board_row(), out, n);
}

// Board i's sample.
pub fn sample_of(s: &[u8], i: usize) -> u64
    requires { Formed s.now × (i < boards_most) }
    ensures { result ≡ sample_in s.now i }
{
    let form = Form::from(s.len());
    le::u64_at(s, form.board_at(i) + 8)
}

// Whether board i has sampled, as the byte has it.
pub fn sampled_of(s: &[u8], i: usize) -> u8
    requires { Formed s.now × (i < boards_most) }
    ensures { result ≡ sampled_in s.now i }
{
    let form = Form::from(s.len());
    s[form.board_at(i) + 16]
}

// Puts board i's sample, and that it has sampled.
pub fn put_sample(s: &mut [u8], i: usize, bits: u64)
    requires { Formed s.old × (i < boards_most) }
    ensures { s.new ≡ sample_given s.old i bits }
{
    let form = Form::from(s.len());
    let at = form.board_at(i) + 8;
    le::put_u64(s, at, bits);
    s[at + 8] = 1;
}

// The record of a board that has not sampled, at the front of `out`.
fn put_board(out: &mut [u8], form: Form, mask: u64)
    requires { board_row form ≤ length out.old }
    ensures { out.new ≡ board_record form mask ++ drop (board_row form) out.old }
{
    let end = form.board_row();
    le::put_u64(out, 0, mask);
    buffers::clear(&mut out[8..end]);
}

// The records of boards that have not sampled, at the front of `out`.
pub fn put_boards(out: &mut [u8], form: Form, masks: &[u64])
    requires { (length masks.now ≤ boards_most) × (board_row form * length masks.now ≤ length out.old) }
    ensures { out.new ≡ board_records form masks.now ++ drop (board_row form * length masks.now) out.old }
{
    let row = form.board_row();
    for (i, mask) in masks.iter().enumerate() {
        put_board(&mut out[row * i..], form, *mask);
    }
}
