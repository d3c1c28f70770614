// No code: a watch on the state's bytes, from loading through its ticks, and what it answers.
#![tactic(auto)]
