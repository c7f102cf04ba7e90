// No code: definitions and laws only.
#![tactic(auto)]
