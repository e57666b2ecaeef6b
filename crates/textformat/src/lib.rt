// The definitions and theorems of the text sheet stand in specs/ and proofs/; this crate has no code.
#![tactic(auto)]
