// No code: logs of calls, what they tell, and the claims over every one of them.
#![tactic(auto)]
