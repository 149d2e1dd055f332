// What a run record is, by its bytes: theorems only.
#![tactic(auto)]
