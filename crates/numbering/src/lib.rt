// The numbers of a register's entries: by the longest chain of holders from the root, then by first meeting. Three passes: the entries are
// met from the root on, chains are raised, and those of each chain are put behind one another.
#![tactic(auto)]

ghost use Rattle.std.specs.Prelude.{◌≡◌, true, ◌++◌, ℕ, ◌<◌, length, drop};
ghost use Rattle.limits.specs.Limits.{slots_room};
ghost use Rattle.registers.specs.Relaying.{is_among};
ghost use Rattle.registers.specs.Numbers.{by_level};
ghost use Rattle.chaining.specs.Chains.{chain_at};
ghost use Rattle.numbering.specs.Orders.{LevelAsk, LevelPut, LevelsAsk, NumbersBy, SurveyAsk, EntriesSurveyed, NumberAsk, Numbers};

use limits::SLOTS_ROOM;
use meeting::Meeting;

// Puts those of the row with this chain behind the ones placed before, and answers how many are placed then.
fn put_level(level: u8, met: &[u8], chain: &[u8], order: &mut [u8], placed: usize) -> usize
    requires { LevelAsk level met.now chain.now order.old placed }
    ensures { LevelPut level met.now chain.now order.old placed order.new result }
{
    let mut w = placed;
    for k in met {
        if chain[*k as usize] == level {
            order[w] = *k;
            w += 1;
        }
    }
    w
}

// Puts the entries by their chains, the shortest ones first, until all n are placed.
fn put_levels(n: usize, met: &[u8], chain: &[u8], order: &mut [u8])
    requires { LevelsAsk n met.now chain.now order.old }
    ensures { order.new ≡ by_level (chain_at chain.now) met.now 1 n ++ drop n order.old }
{
    let mut placed: usize = 0;
    let mut level: u8 = 1;
    // A `while`: how many levels there are is not known before all are placed.
    while placed < n {
        placed = put_level(level, met, chain, order, placed);
        level += 1;
    }
}

// Numbers the entries of an order from 1 on, the last one first, so that each has the number of its first place.
fn put_numbers(order: &[u8], numbers: &mut [u8])
    requires { (length order.now < slots_room) × ((k : ℕ) → is_among k order.now ≡ true → k < length numbers.old) }
    ensures { NumbersBy order.now numbers.new }
{
    for i in (0..order.len()).rev() {
        numbers[order[i] as usize] = (i + 1) as u8;
    }
}

// The entries met, in the row, and their chains; answers how many were met.
fn survey(
    root: &[u16],
    bodies: &[u16],
    places: &[u16],
    n: usize,
    row: &mut [u8],
    chain: &mut [u8],
) -> usize
    requires { SurveyAsk root.now bodies.now places.now n row.old chain.old }
    ensures { EntriesSurveyed root.now bodies.now places.now n row.new chain.new result }
{
    let mut sets = [0u64; SLOTS_ROOM];
    let m = meeting::meet_row(
        root,
        bodies,
        places,
        n,
        row,
        &mut sets,
        Meeting { count: 0, seen: 0 },
    );
    chaining::raise_all(n, &sets, chain);
    m.count
}

// The entries' numbers: by the longest chain of holders from the root, then by first meeting.
pub fn number(
    root: &[u16],
    bodies: &[u16],
    places: &[u16],
    n: usize,
    order: &mut [u8],
    numbers: &mut [u8],
)
    requires { NumberAsk root.now bodies.now places.now n order.old numbers.old }
    ensures { Numbers root.now bodies.now places.now n order.new numbers.new }
{
    let mut row = [0u8; SLOTS_ROOM];
    let mut chain = [0u8; SLOTS_ROOM];
    let count = survey(root, bodies, places, n, &mut row, &mut chain);
    put_levels(n, &row[..count], &chain, order);
    put_numbers(&order[..n], numbers);
}
