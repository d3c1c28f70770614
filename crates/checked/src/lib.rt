// No code: what a state that passes its check is, and that loading and closing give such states.
#![tactic(auto)]
