// Laying a slot in tokens. Laying a slot cuts its parts, and each cut part lays a slot, which is entered in a register unless an equal one is
// there: so slots on one board with equal nodes are one entry, held by several.
#![tactic(auto)]

ghost use Rattle.std.specs.Prelude.{◌<◌, ◌≤◌};
ghost use Rattle.limits.specs.Limits.{slots_room};
ghost use Rattle.separating.specs.Laying.{LayAsk, Cuts, LaysSlot};
ghost use Rattle.separating.specs.Turns.{LookPartAsk, Looks};

use entering::Entered;
use kinds::Kind;
use limits::SLOTS_ROOM;
use parting::PARTS;

// Where laying a slot has come to: the tokens written, where the parts begin that are still to be looked at, the nodes that the tokens
// stand for, and the entries of the register. Where there is no room for an entry, there are SLOTS_ROOM of them, and no part is left.
#[derive(Clone, Copy)]
pub struct SlotProgress {
    pub written: usize,
    pub rest: usize,
    pub nodes: usize,
    pub entries: usize,
}

// A slot's own tokens, the nodes that they stand for, and the entries of the register then; SLOTS_ROOM where there is no room.
#[derive(Clone, Copy)]
pub struct Body {
    pub tokens: usize,
    pub nodes: usize,
    pub entries: usize,
}

// Lays a part on a board: its tokens to the front of the desk. Its top stays, and its operands are looked at. The part's node stands at the
// front of u. With this one, at most `room` slots may be cut out of one another.
#[cycle(cut_parts_lay_slot_look)]
pub fn cut_parts(
    u: &[u8],
    bytes: &[u8],
    marks: &[u32],
    held: &[u8],
    part: usize,
    board: u8,
    room: usize,
    entries: usize,
    desk: &mut [u16],
    bodies: &mut [u16],
    places: &mut [u16],
    stamps: &mut [u64],
) -> Body
    requires { LayAsk u.now bytes.now marks.now held.now part board entries desk.old bodies.old places.old stamps.old × (0 < room) × (room ≤ slots_room) }
    ensures { Cuts u.now bytes.now marks.now held.now part board room entries desk.old bodies.old places.old stamps.old desk.new bodies.new places.new stamps.new result }
{
    let n = desk.len();
    let t = parting::top_of(u, marks, held, part);
    let rest = parting::put_top(desk, 0, n, t);
    let mut x = SlotProgress {
        written: 1,
        rest,
        nodes: t.nodes,
        entries,
    };
    // A `while`: where the parts begin that are left moves back as well as on.
    while x.rest < n {
        let next = x.rest;
        let p = usize::from(desk[next]);
        let at = p / PARTS;
        x = look(
            &bytes[at..],
            bytes,
            marks,
            held,
            p,
            board,
            room,
            x,
            desk,
            bodies,
            places,
            stamps,
        );
    }
    Body {
        tokens: x.written,
        nodes: x.nodes,
        entries: x.entries,
    }
}

// Looks at the operand that is next: where it stays its top is written and its own operands are left to be looked at, else it is cut, and
// the place holder of its entry is written.
#[cycle(cut_parts_lay_slot_look)]
fn look(
    u: &[u8],
    bytes: &[u8],
    marks: &[u32],
    held: &[u8],
    part: usize,
    board: u8,
    room: usize,
    x: SlotProgress,
    desk: &mut [u16],
    bodies: &mut [u16],
    places: &mut [u16],
    stamps: &mut [u64],
) -> SlotProgress
    requires { LookPartAsk u.now bytes.now marks.now held.now part board x desk.old bodies.old places.old stamps.old × (0 < room) × (room ≤ slots_room) }
    ensures { Looks u.now bytes.now marks.now held.now part board room x desk.old bodies.old places.old stamps.old desk.new bodies.new places.new stamps.new result }
{
    let choice = parting::choice_of(marks, part);
    let w = x.written;
    let rest = x.rest + 1;
    if scores::stays_on(choice, board) {
        let t = parting::top_of(u, marks, held, part);
        let top = parting::put_top(desk, w, rest, t);
        return SlotProgress {
            written: w + 1,
            rest: top,
            nodes: x.nodes + t.nodes,
            entries: x.entries,
        };
    }
    let y = lay_slot(
        u,
        bytes,
        marks,
        held,
        part,
        choice,
        room - 1,
        x.entries,
        &mut desk[w..rest],
        bodies,
        places,
        stamps,
    );
    if y.entries == SLOTS_ROOM {
        return SlotProgress {
            written: w + 1,
            rest: desk.len(),
            nodes: x.nodes,
            entries: SLOTS_ROOM,
        };
    }
    desk[w] = buffers::narrow(Kind::HOLD as usize + y.entry);
    SlotProgress {
        written: w + 1,
        rest,
        nodes: x.nodes + 1,
        entries: y.entries,
    }
}

// Lays a part as a slot of its own, and enters it. Each slot has a higher entry than those that it holds: so where more than `room` slots are
// cut out of one another, the outermost one's entry would be `room` or above.
#[cycle(cut_parts_lay_slot_look)]
fn lay_slot(
    u: &[u8],
    bytes: &[u8],
    marks: &[u32],
    held: &[u8],
    part: usize,
    board: u8,
    room: usize,
    entries: usize,
    desk: &mut [u16],
    bodies: &mut [u16],
    places: &mut [u16],
    stamps: &mut [u64],
) -> Entered
    requires { LayAsk u.now bytes.now marks.now held.now part board entries desk.old bodies.old places.old stamps.old × (room < slots_room) }
    ensures { LaysSlot u.now bytes.now marks.now held.now part board room entries desk.old bodies.old places.old stamps.old bodies.new places.new stamps.new result }
{
    if room == 0 {
        return Entered {
            entry: 0,
            entries: SLOTS_ROOM,
        };
    }
    let x = cut_parts(
        u, bytes, marks, held, part, board, room, entries, desk, bodies, places, stamps,
    );
    if x.entries == SLOTS_ROOM {
        return Entered {
            entry: 0,
            entries: SLOTS_ROOM,
        };
    }
    let stamp = entering::stamp_of(board, x.nodes);
    let n = x.tokens;
    entering::enter(
        bytes,
        marks,
        &desk[..n],
        stamp,
        x.entries,
        bodies,
        places,
        stamps,
    )
}
