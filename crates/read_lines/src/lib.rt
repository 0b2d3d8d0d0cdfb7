// Hold lines and step lines of a booking, each read from the bytes that a reader still has.
#![tactic(auto)]

pub mod hold_lines;
pub mod rows;
