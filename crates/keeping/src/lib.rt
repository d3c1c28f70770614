// No code: what a sample and a step keep of a state that passes its check.
#![tactic(auto)]
