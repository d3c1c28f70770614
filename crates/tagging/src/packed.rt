// A tag, packed into one number: the board of a part, its length in a slot there and, at a place holder, how far on the slot stands
// that it holds. What the parts' sizes are is known here and in specs/Packed.antt alone.
ghost use Rattle.std.specs.Prelude.{◌≡◌, ◌<◌};
ghost use Rattle.tagging.specs.Packed.{length_room, ahead_room, board_in, here_in, ahead_in, tag_of, with_ahead};

// How many boards a tag tells apart.
const BOARD_ROOM: u32 = 32;

// How many lengths.
const LENGTH_ROOM: u32 = 8192;

// How many boards with their lengths: the distance stands above them.
const NEAR_ROOM: u32 = 262144;

// A board, and a length there. There is no distance.
#[tactic(auto, unfolding(crate::specs::Packed::tag_of))]
pub fn tag_of(here: usize, board: u8) -> u32
    requires { here < length_room }
    ensures { result ≡ tag_of here board }
{
    here as u32 * BOARD_ROOM + u32::from(board)
}

#[tactic(auto, unfolding(crate::specs::Packed::board_in))]
pub fn board_of(tag: u32) -> u8
    ensures { result ≡ board_in tag }
{
    (tag % BOARD_ROOM) as u8
}

// The length in a slot on that board.
#[tactic(auto, unfolding(crate::specs::Packed::here_in))]
pub fn length_of(tag: u32) -> usize
    ensures { result ≡ here_in tag }
{
    (tag / BOARD_ROOM % LENGTH_ROOM) as usize
}

// How far on the held slot stands.
#[tactic(auto, unfolding(crate::specs::Packed::ahead_in))]
pub fn ahead_of(tag: u32) -> usize
    ensures { result ≡ ahead_in tag }
{
    (tag / NEAR_ROOM) as usize
}

// The same board and length, and the held slot so far on.
#[tactic(auto, unfolding(crate::specs::Packed::with_ahead))]
pub fn with_ahead(tag: u32, ahead: usize) -> u32
    requires { ahead < ahead_room }
    ensures { result ≡ with_ahead tag ahead }
{
    tag % NEAR_ROOM + ahead as u32 * NEAR_ROOM
}
