// The part of a line around a place that is shown.
ghost use Rattle.std.specs.Prelude.{◌≤◌, length};
ghost use Rattle.pointing.specs.Window.{ShownBefore, ShownBehind};

// The most bytes that are shown before a place, and from it on.
const BEFORE_MOST: usize = 59;

const BEHIND_MOST: usize = 20;

const FEED: u8 = b'\n';

// Where the part begins.
pub fn from(text: &[u8], at: usize) -> usize
    requires { at ≤ length text.now }
    ensures { ShownBefore text.now at result }
{
    let least = at.saturating_sub(BEFORE_MOST);
    for from in (least..at).rev() {
        if text[from] == FEED {
            return from + 1;
        }
    }
    least
}

// Where it ends.
pub fn to(text: &[u8], at: usize) -> usize
    requires { at ≤ length text.now }
    ensures { ShownBehind text.now at result }
{
    let most = text.len().min(at + BEHIND_MOST);
    for to in at..most {
        if text[to] == FEED {
            return to;
        }
    }
    most
}
