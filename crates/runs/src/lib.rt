// No code: runs that the checker computes; what the claims over logs speak of happens in them.
#![tactic(auto)]
