// No code: the journal's blocks, regions, answers, histories and claims.
#![tactic(auto)]
