// Formulas one behind the other, and those that stand behind a place of their bytes. Theory alone: there is no code here.
#![tactic(auto)]
