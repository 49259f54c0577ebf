// Opening a record or two lines into a satellite: 002's sgp4init, near-Earth and deep-space branches
// joined. Each function is, bit for bit, its definition in specs/.
#![tactic(auto)]

pub mod ahead;
pub mod deep_space;
pub mod elements;
pub mod opening;
