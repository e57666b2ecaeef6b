// The file's definitions and theorems stand in specs/ and proofs/; this crate has no code.
#![tactic(auto)]
