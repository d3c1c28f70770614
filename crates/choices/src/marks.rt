// A mark, packed into one number: the length of the formula that begins at a node, and the boards that its parts are chosen for. How
// many bits each of them has is known here and in specs/Marks.antt alone.
ghost use Rattle.std.specs.Prelude.{◌≡◌, ◌<◌};
ghost use Rattle.choices.specs.Marks.{length_room, choice_room, mark_of, length_in, choice_in, later_in, again_in};

// How many lengths a mark tells apart.
const LENGTH_ROOM: u32 = 32768;

// How many choices.
const CHOICE_ROOM: u32 = 32;

// A length, the choice of the formula unfolded, that of what an until asks of later ticks, and that of the formula under next.
#[tactic(auto, unfolding(crate::specs::Marks::mark_of))]
pub fn mark_of(n: usize, choice: u8, later: u8, again: u8) -> u32
    requires { (n < length_room) × (choice < choice_room) × (later < choice_room) × (again < choice_room) }
    ensures { result ≡ mark_of n choice later again }
{
    let parts = u32::from(choice)
        + CHOICE_ROOM * (u32::from(later) + CHOICE_ROOM * u32::from(again));
    n as u32 + LENGTH_ROOM * parts
}

// The length of the formula.
#[tactic(auto, unfolding(crate::specs::Marks::length_in))]
pub fn length_of(mark: u32) -> usize
    ensures { (result ≡ length_in mark) × (result < length_room) }
{
    (mark % LENGTH_ROOM) as usize
}

// The choice of the formula unfolded.
#[tactic(auto, unfolding(crate::specs::Marks::choice_in))]
pub fn choice_of(mark: u32) -> u8
    ensures { (result ≡ choice_in mark) × (result < choice_room) }
{
    (mark / LENGTH_ROOM % CHOICE_ROOM) as u8
}

// The choice of what an until asks of its left operand and of later ticks; of another node it says nothing.
#[tactic(auto, unfolding(crate::specs::Marks::later_in))]
pub fn later_of(mark: u32) -> u8
    ensures { (result ≡ later_in mark) × (result < choice_room) }
{
    (mark / LENGTH_ROOM / CHOICE_ROOM % CHOICE_ROOM) as u8
}

// The choice of the formula under next.
#[tactic(auto, unfolding(crate::specs::Marks::again_in))]
pub fn again_of(mark: u32) -> u8
    ensures { (result ≡ again_in mark) × (result < choice_room) }
{
    (mark / LENGTH_ROOM / CHOICE_ROOM / CHOICE_ROOM % CHOICE_ROOM) as u8
}
