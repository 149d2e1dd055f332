// No code: what a call that writes a run record answers and leaves.
#![tactic(auto)]
