// The Sun's and the Moon's part of 002's set-up: dscom and the secular rates of dsinit. Each function
// is, bit by bit, its definition in specs/.
#![tactic(auto)]

pub mod dscom;
pub mod dsinit;
pub mod finite;
