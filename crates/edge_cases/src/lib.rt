// Document 01, "Cases at the edges": the cases marked P, proved together over the definitions that the
// contracts of the libraries equate their functions with. There is no code here: `specs/Cases.antt` has
// the list, and `proofs/Edges.antt` the one statement.
#![tactic(auto)]
