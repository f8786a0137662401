// No code: the rules of one end, and what follows from them one session at a time.
#![tactic(auto)]
