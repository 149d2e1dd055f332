// Laws only: the definition without rounding is the textbook ratio.
#![tactic(auto)]
