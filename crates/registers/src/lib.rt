// No code: slots told apart, over formulas. What the code does with them is said in these words, and comes to the merged network.
#![tactic(auto)]
