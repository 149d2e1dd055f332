// What the value of a format nearest a fraction is: definitions and laws only.
#![tactic(auto)]
