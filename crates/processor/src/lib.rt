// Runs on any processor: what holds for every pickup, load and supply. This crate has no code.
#![tactic(auto)]
