// What follows from the contracts of the profile's functions together: demand 3 of whole sequences of calls
// on lent memory (`specs/Sequences.antt`). There is no code here: `proofs/` has the proofs.
#![tactic(auto)]
