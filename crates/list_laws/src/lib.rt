// Lists by index, and searches and counts over indexes: definitions and laws only.
#![tactic(auto)]
