// The state of a near-Earth satellite at a time: 002's sgp4 without deep space, in steps that deep
// space shares. Each function is, bit for bit, its definition in specs/, where the comments give 002's
// lines.
#![tactic(auto)]

pub mod answer;
pub mod kepler;
pub mod orientation;
pub mod parts;
pub mod periodics;
pub mod secular;
pub mod sgp4;
