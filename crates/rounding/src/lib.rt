// Laws alone: see specs/.
#![tactic(auto)]
