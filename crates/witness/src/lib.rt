// Satellites that open resonant: two pairs of the published test set, read and opened by computation of
// the definitions that the contracts of the libraries equate their functions with. There is no code
// here: `specs/Witness.antt` has the pairs and what is claimed, `proofs/Witness.antt` the proof.
#![tactic(auto)]
