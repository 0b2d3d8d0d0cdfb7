// Intervals and formula lines of a request (document 01: a sheet), read from the bytes that a reader still has.
#![tactic(auto)]

pub mod formulas;
