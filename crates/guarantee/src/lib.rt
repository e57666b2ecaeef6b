// Demand 3: theorems about the verdict and the run. This crate has no code.
#![tactic(auto)]
