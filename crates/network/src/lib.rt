// No code: the split network as slots that hold formulas, and what a tick does to it. The state's bytes are above this.
#![tactic(auto)]
