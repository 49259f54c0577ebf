// Wish 14, "The best order is outward": a claim about `requests::request_list` and `outward_order::best_order`,
// over the definitions that their contracts equate them with. specs/Best has the claim, proofs/Best the
// theorem. There is nothing to run.
#![tactic(auto)]
