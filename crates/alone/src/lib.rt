// No code: a sender left in peace finishes.
#![tactic(auto)]
