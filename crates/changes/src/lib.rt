// What differs between two rosters (document 02, wish 7), as data: the changes by rising catalogue number,
// their application to a roster, and that the first roster with the listed changes applied is the second.
// There is no code here: `specs/` has the definitions and what is claimed, `proofs/` the proofs.
#![tactic(auto)]
