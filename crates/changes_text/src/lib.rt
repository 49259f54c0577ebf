// The changes between two rosters as text lines (document 02, wish 7). There is no code here: `specs/Text.antt`
// spells the changes, `specs/Claims.antt` has what is claimed, `proofs/` the proofs.
#![tactic(auto)]
