// The two-argument arctangent.
#![tactic(auto)]

ghost use Rattle.std.specs.Prelude.{◌≡◌};
ghost use Rattle.arctangent.specs.Angle.{halved, series, arctan, quarter, placed, atan2_of};

use floats::{HALF_PI, PI, abs, is_finite};
use square_root::sqrt;

pub mod pairs;

// The angle of the point (x, y), from -pi to pi.
pub fn atan2(y: f64, x: f64) -> f64
    ensures { result ≡ atan2_of y x }
{
    if !(is_finite(y) & is_finite(x)) {
        return 0.0 / 0.0;
    }
    if (y == 0.0) & (x == 0.0) {
        return 0.0;
    }
    place(y, x, first_quarter(abs(y), abs(x)))
}

// The angle of the magnitudes, from 0 to pi / 2.
fn first_quarter(ay: f64, ax: f64) -> f64
    ensures { result ≡ quarter ay ax }
{
    if ay > ax {
        return HALF_PI - small_arctan(ax / ay);
    }
    small_arctan(ay / ax)
}

// The angle of a tangent from 0 to 1.
fn small_arctan(t: f64) -> f64
    ensures { result ≡ arctan t }
{
    arctan_series(halve(halve(t)))
}

// The tangent of half the angle whose tangent is t.
fn halve(t: f64) -> f64
    ensures { result ≡ halved t }
{
    t / (1.0 + sqrt(1.0 + t * t))
}

// Four times the angle whose tangent is t: the odd series through degree 23.
fn arctan_series(t: f64) -> f64
    ensures { result ≡ series t }
{
    let z = t * t;
    let p = -(1.0 / 23.0);
    let p = p * z + 1.0 / 21.0;
    let p = p * z - 1.0 / 19.0;
    let p = p * z + 1.0 / 17.0;
    let p = p * z - 1.0 / 15.0;
    let p = p * z + 1.0 / 13.0;
    let p = p * z - 1.0 / 11.0;
    let p = p * z + 1.0 / 9.0;
    let p = p * z - 1.0 / 7.0;
    let p = p * z + 1.0 / 5.0;
    let p = p * z - 1.0 / 3.0;
    let p = p * z + 1.0;
    p * t * 4.0
}

// From the first quarter into that of x and y.
fn place(y: f64, x: f64, a: f64) -> f64
    ensures { result ≡ placed y x a }
{
    if x < 0.0 {
        if y < 0.0 {
            return -(PI - a);
        }
        return PI - a;
    }
    if y < 0.0 {
        return -a;
    }
    a
}
