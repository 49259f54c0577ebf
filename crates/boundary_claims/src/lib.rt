// What follows from the contracts of the functions for C and Rust together: demand 3 of whole sequences of
// calls on lent memory, and the way of a record through lent memory and back. There is no code here:
// `specs/Sequences.antt` and `specs/Trips.antt` have what is claimed, `proofs/` the proofs.
#![tactic(auto)]
