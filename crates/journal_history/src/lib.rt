// No code: what is due in the journal after each call of the engine, and what is claimed of a program that stores it.
#![tactic(auto)]
