// No code: the promises of the whole, as theorems.
#![tactic(auto)]
