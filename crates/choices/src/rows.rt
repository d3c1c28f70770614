// Rows of counts in a slice, one for each part that waits for its operator: read and written as scores by value. Those of a part as it
// stands are never more than its nodes and have two bytes each; those of the part unfolded have four.
ghost use Rattle.std.specs.Prelude.{◌≡◌, ℕ, ◌+◌, ◌<◌, ◌≤◌, length, get_or};
ghost use Rattle.limits.specs.Limits.{boards_most};
ghost use Rattle.choices.specs.Rows.{raw_below, row_at, PutsRow};

use limits::BOARDS_MOST;
use scores::Scores;

// The counts of a part as it stands, whose row begins at a place.
#[tactic(auto, unfolding(crate::specs::Rows::row_at))]
pub fn raw_at(rows: &[u16], at: usize) -> Scores
    requires { at + boards_most ≤ length rows.now }
    ensures { result.counts ≡ row_at at rows.now }
{
    let mut counts = [0u32; BOARDS_MOST];
    for b in 0..BOARDS_MOST {
        counts[b] = u32::from(rows[at + b]);
    }
    Scores { counts }
}

// Writes them there; the rows behind stay.
#[tactic(auto, unfolding(crate::specs::Rows::row_at))]
pub fn put_raw(rows: &mut [u16], at: usize, scores: Scores)
    requires { (at + boards_most ≤ length rows.old) × ((b : ℕ) → get_or scores.counts b 0 < raw_below) }
    ensures { PutsRow at scores.counts rows.old rows.new }
{
    for (b, count) in scores.counts.iter().enumerate() {
        rows[at + b] = *count as u16;
    }
}

// The counts of a part unfolded, whose row begins at a place.
#[tactic(auto, unfolding(crate::specs::Rows::row_at))]
pub fn opened_at(rows: &[u32], at: usize) -> Scores
    requires { at + boards_most ≤ length rows.now }
    ensures { result.counts ≡ row_at at rows.now }
{
    let mut counts = [0u32; BOARDS_MOST];
    counts.copy_from_slice(&rows[at..at + BOARDS_MOST]);
    Scores { counts }
}

// Writes them there; the rows behind stay.
pub fn put_opened(rows: &mut [u32], at: usize, scores: Scores)
    requires { at + boards_most ≤ length rows.old }
    ensures { PutsRow at scores.counts rows.old rows.new }
{
    rows[at..at + BOARDS_MOST].copy_from_slice(&scores.counts);
}
