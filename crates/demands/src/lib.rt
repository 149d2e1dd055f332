// No code: what the demands say of the entries, as theorems about their contracts.
#![tactic(auto)]
