// The writer: a slot is marked and rewritten, within its own bytes, as what it becomes.
ghost use Rattle.std.specs.Prelude.{◌≡◌, ◌<◌};
ghost use Rattle.state.specs.Bytes.{formula_at};
ghost use Rattle.state.specs.Opened.{Opened};
ghost use Rattle.resolving.specs.Settles.{settled};
ghost use Rattle.settling.specs.Putting.{stepped_as};

use resolving::Seen;
use state::{Counts, Span};

pub fn put_stepped(s: &mut [u8], c: Counts, k: usize, seen: Seen)
    requires { Opened s.old c × (k < c.slots) }
    ensures { s.new ≡ stepped_as (settled seen (formula_at s.old k)) s.old k }
{
    let Span { from, to } = state::span_of(s, c, k);
    state::put_mark(s, c, k);
    let n = rewriting::rewrite(&mut s[from..to], seen);
    state::put_length(s, c, k, n as u16);
}
