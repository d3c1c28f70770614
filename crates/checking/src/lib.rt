// The state check: the clauses of `records` on bytes, those on masks and formulas, and the whole, one after the other.
#![tactic(auto)]

mod formulas;
mod whole;

pub use formulas::is_constant;
pub use whole::state_ok;
