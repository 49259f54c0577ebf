// The Greenwich angle of every instant of the calendar is finite, so that refusal 8 never comes of it.
// specs/Claims has the claim, proofs/Angle the theorem. There is nothing to run.
#![tactic(auto)]
