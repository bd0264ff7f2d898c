// No code: two tables merged.
#![tactic(auto)]
