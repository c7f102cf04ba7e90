// Layouts and pictures: definitions only.
#![tactic(auto)]
