// Definitions and theorems only: no function stands here.
#![tactic(auto)]
