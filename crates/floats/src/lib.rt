// f64: the notation of rounded arithmetic and the values of pi (specs/Notation), on which every
// specification rests, and two tests of a number's kind and size.
#![tactic(auto)]

ghost use Rattle.std.specs.Prelude.{◌≡◌};
ghost use Rattle.floats.specs.Magnitude.{abs_of};
ghost use Rattle.floats.specs.Notation.{finite};

// The f64 nearest to pi, its double and its half (specs/Notation).
pub const PI: f64 = 3.141592653589793;

pub const TWO_PI: f64 = 6.283185307179586;

pub const HALF_PI: f64 = 1.5707963267948966;

// Neither an infinity nor a NaN.
pub fn is_finite(x: f64) -> bool
    ensures { result ≡ finite x }
{
    (x < 1.0 / 0.0) & (x > -(1.0 / 0.0))
}

// The magnitude; -0.0 becomes +0.0.
pub fn abs(x: f64) -> f64
    ensures { result ≡ abs_of x }
{
    if x <= 0.0 { 0.0 - x } else { x }
}
