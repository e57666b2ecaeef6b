// Ask first, then commit: definitions and laws stand in specs/ and proofs/; this crate has no code.
#![tactic(auto)]
