// No code: runs of a program that stores what is due, computed by the checker.
#![tactic(auto)]
