// What a call leaves, as every crate of calls ensures it (specs/), and the laws by which each comes to it from the
// checks that it has tried (proofs/).
#![tactic(auto)]
