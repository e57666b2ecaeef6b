// Definitions and laws of the small traces of a sheet (document 02, R-12): no code.
#![tactic(auto)]
