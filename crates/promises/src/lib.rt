// Laws of the model: theorems over the definitions; no code.
#![tactic(auto)]
