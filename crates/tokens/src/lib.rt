// No code: formulas in tokens, and a register that is kept in them. What reads and writes them stands in `parting`, `entering` and
// `setting`.
#![tactic(auto)]
