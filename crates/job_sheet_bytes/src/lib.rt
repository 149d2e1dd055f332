// Laws only: the bytes of a job are a sheet, and a job is read from them and they from it.
#![tactic(auto)]
