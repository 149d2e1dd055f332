// No code: what the demands say of the entries that write run records, as theorems about their contracts.
#![tactic(auto)]
