// No code: what a rule becomes when its constants are folded, and the laws of it.
#![tactic(auto)]
