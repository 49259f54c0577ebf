// The set-up of a near-Earth satellite: 002's initl and sgp4init without deep space. Each function is,
// bit for bit, its definition in specs/, where the comments give 002's lines.
#![tactic(auto)]

pub mod finite;
pub mod initl;
pub mod parts;
pub mod powers;
pub mod sgp4init;
