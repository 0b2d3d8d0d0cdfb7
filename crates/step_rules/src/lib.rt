// What each step asks of a sequent and what it leaves, one function a step: right.rt the right steps and `ax`, left.rt
// `cp` and the left steps; instance.rt has the rows of formulas after a holder is put in.
#![tactic(auto)]

pub mod instance;
pub mod left;
pub mod right;
