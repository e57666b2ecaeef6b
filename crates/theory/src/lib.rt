// The scheduling laws: see specs/. There is no code here.
#![tactic(auto)]
