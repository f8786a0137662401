// No code: the machine of the calls on words, and that it is the machine of the rules.
#![tactic(auto)]
