// No code: the settled examples of the definitions, as one statement over one list.
#![tactic(auto)]
