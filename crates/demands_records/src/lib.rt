// What the demands say of run records: theorems only.
#![tactic(auto)]
