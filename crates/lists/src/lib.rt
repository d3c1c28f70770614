// No code: tests and runs of numbers, the small definitions that every other crate's statements are written with.
#![tactic(auto)]
