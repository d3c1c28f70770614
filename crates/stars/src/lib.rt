// No code: the worked values that are proved, as one table.
#![tactic(auto)]
