// The third demand for the calls from C. No code: definitions and theorems.
#![tactic(auto)]
