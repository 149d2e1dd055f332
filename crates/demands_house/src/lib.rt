// No code: what the demands say of house calls, as theorems about their contracts.
#![tactic(auto)]
