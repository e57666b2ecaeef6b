// Definitions only: see specs/. There is no code here.
#![tactic(auto)]
