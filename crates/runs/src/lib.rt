// Windows as runs of visible samples: definitions (specs/Runs) and what they come to in words (specs/Words,
// proved in proofs/Words and proofs/Room). No code.
#![tactic(auto)]
