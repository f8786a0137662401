// No code: one table with cases 1 to 5 and 7 of docs/PROTOCOL.md, three more on who may send what, the sizes that calls need
// and states that are not well formed, and the claims that every row holds.
#![tactic(auto)]
