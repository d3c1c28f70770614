// No code: the rule language, its meaning, unfolding, resolving and progression, and the bytes of a formula.
#![tactic(auto)]
