// The lunar-solar periodics at a time: 002's dpper. Each function is, bit by bit, its definition in
// specs/.
#![tactic(auto)]

pub mod dpper;
