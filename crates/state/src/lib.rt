// The room of the state's bytes: its forms, and each field of header, board records and slot records, read and written. Nobody else
// knows where a field is.
#![tactic(auto)]

mod boards;
mod header;
mod slots;

ghost use Rattle.std.specs.Prelude.{◌≡◌, ◌<◌};
ghost use Rattle.state.specs.Form.{form_of, state_length, board_row, slots_most, nodes_most, board_at};

pub use boards::{mask_of, masks_of, put_sample, sample_of, sampled_of};
pub use header::{counts_of, places_ok, put_front, ticks_of};
pub use slots::{
    Span, board_of, length_of, mark_of, put_length, put_mark, put_record, rows, span_of, start_of,
    stretch_end,
};

// Where the boards' records begin.
pub const BOARDS_AT: usize = 16;

// The length of a slot's record.
pub const SLOT_ROW: usize = 6;

// The longest state.
pub const STATE_ROOM: usize = 4768;

// The records of the most slots, whatever the form.
pub const ROWS_ROOM: usize = 384;

// The forms of a state. Its length tells which one it has.
#[derive(Clone, Copy)]
pub enum Form {
    Plain,
}

impl From<usize> for Form {
    ghost from_gives = { λ length form. form ≡ form_of length };

    #[tactic(auto, unfolding(crate::specs::Form::form_of))]
    fn from(_length: usize) -> Form {
        Form::Plain
    }
}

impl Form {
    // The buffer's length.
    pub fn length(self) -> usize
        ensures { result ≡ state_length self }
    {
        match self {
            Form::Plain => 4768,
        }
    }

    // The length of a board's record.
    pub fn board_row(self) -> usize
        ensures { result ≡ board_row self }
    {
        match self {
            Form::Plain => 17,
        }
    }

    // The most slots.
    pub fn slots_most(self) -> usize
        ensures { result ≡ slots_most self }
    {
        match self {
            Form::Plain => 64,
        }
    }

    // The most nodes of all slots together.
    pub fn nodes_most(self) -> usize
        ensures { result ≡ nodes_most self }
    {
        match self {
            Form::Plain => 4096,
        }
    }

    // Where board i's record begins.
    pub fn board_at(self, i: usize) -> usize
        requires { i < 65536 }
        ensures { result ≡ board_at self i }
    {
        BOARDS_AT + self.board_row() * i
    }
}

// A state's counts, as its header has them, and where by them the slots' records and the nodes begin.
#[derive(Clone, Copy)]
pub struct Counts {
    pub boards: usize,
    pub slots: usize,
    pub nodes: usize,
    pub records: usize,
    pub stretches: usize,
}
