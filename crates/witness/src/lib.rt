// The list of releases that a late verdict promises. This crate has no code.
#![tactic(auto)]
