// No code: what the functions for C promise, and that these promises leave no choice. Crates that speak of the calls from C stand on
// this one, since none can stand on a static library.
#![tactic(auto)]
