// The whole state check, its clauses one after the other.
ghost use Rattle.std.specs.Prelude.{◌≡◌, ◌≤◌};
ghost use Rattle.limits.specs.Limits.{boards_most};
ghost use Rattle.state.specs.Form.{Formed};
ghost use Rattle.state.specs.Fields.{boards_in};
ghost use Rattle.state.specs.Clauses.{state_ok};
ghost use Rattle.checking.specs.Masked.{propositions_in};

use crate::formulas::formulas_ok;
use limits::{BOARDS_MOST, PROPOSITIONS_MOST};
use state::Form;

// The number of propositions, 0 where the masks break their rule.
fn propositions(s: &[u8], b: usize) -> u64
    requires { Formed s.now × (b ≡ boards_in s.now) × (b ≤ boards_most) }
    ensures { result ≡ propositions_in s.now }
{
    let mut found = [0u64; BOARDS_MOST];
    state::masks_of(s, &mut found, b);
    let p = masks::sum_ones(&found[..b]);
    if (PROPOSITIONS_MOST as u64) < p {
        return 0;
    }
    if !masks::follow_rule(&found[..b], p) {
        return 0;
    }
    p
}

// The state check.
pub fn state_ok(s: &[u8]) -> bool
    ensures { result ≡ state_ok s.now }
{
    let form = Form::from(s.len());
    if s.len() != form.length() {
        return false;
    }
    let c = state::counts_of(s);
    if !records::header_ok(s, c) {
        return false;
    }
    let p = propositions(s, c.boards);
    if p < 1 {
        return false;
    }
    if !records::boards_ok(s, c.boards) {
        return false;
    }
    if state::start_of(s, c, 0) != 0 {
        return false;
    }
    if !records::records_ok(s, c) {
        return false;
    }
    if !formulas_ok(s, c, p) {
        return false;
    }
    if !records::gaps_ok(s, c) {
        return false;
    }
    records::rest_ok(s, c)
}
