// No code: definitions and laws that several crates share.
#![tactic(auto)]
