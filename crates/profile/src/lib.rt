// The dish controller's profile (wish 13 of document 02): opening and requests without the deep-space
// branch. What it takes it answers with the full program's bits: its definitions are the full ones,
// narrowed, and specs/Claims has what follows.
#![tactic(auto)]

pub mod opener;
pub mod rows;
