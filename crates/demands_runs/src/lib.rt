// No code: what was written by accepted calls joins to one long run, as theorems about the contracts.
#![tactic(auto)]
