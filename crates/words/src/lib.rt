// No code: one end of a connection in words that its caller holds, what a call on words leaves, and the laws.
#![tactic(auto)]
