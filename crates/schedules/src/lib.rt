// No code: what a list of public calls comes to.
#![tactic(auto)]
