// What follows from pair_steps for a whole text: every line is told of, once. specs/Claims has the claim,
// proofs/Told the theorem. There is nothing to run.
#![tactic(auto)]
