// The Earth's resonance at set-up: the kinds and coefficients of 002's dsinit, and what the integration
// starts with. Each function is, bit by bit, its definition in specs/.
#![tactic(auto)]

pub mod dsinit;
pub mod finite;
