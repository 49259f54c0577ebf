// The Earth's resonance at a time: 002's dspace, and the saved position that its integration is carried
// on from. Each function is, bit by bit, its definition in specs/.
#![tactic(auto)]

pub mod dots;
pub mod dspace;
pub mod held;
pub mod place;
pub mod time;
