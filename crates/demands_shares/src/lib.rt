// No code: what shares say of stored correlations, as theorems about the contracts of both.
#![tactic(auto)]
