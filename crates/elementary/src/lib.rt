// The elementary functions of f64 on which the model rests, each bit for bit its definition in
// specs/ of its crate (document 01, "Numbers the model rests on"). Only `+ - * /` on f64 and whole
// numbers are used, one rounding for each operation and nothing fused, so that the results are the
// same everywhere. Every function takes every f64. Nothing is computed here: each function has a
// crate of its own, and callers name this one.
#![tactic(auto)]

pub use arctangent::atan2;
pub use arctangent::pairs::{Two, atan2_two};
pub use cube_root::{cbrt, seven_halves, three_halves, two_thirds};
pub use floats::{abs, is_finite};
pub use square_root::sqrt;
pub use trigonometry::{SinCos, cos, rem_turn, sin, sin_cos};
