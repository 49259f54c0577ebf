// The arctangents of two points, step by step, which serves speed alone: an arctangent is a chain of steps
// that wait for each other, and those of two points side by side fill each other's waits.
ghost use Rattle.std.specs.Prelude.{◌≡◌};
ghost use Rattle.arctangent.specs.Angle.{arctan, atan2_of};
ghost use Rattle.arctangent.specs.Two.{ordinary, tangent, quarter_of};

use crate::{arctan_series, atan2, halve, place};
use floats::{HALF_PI, abs, is_finite};

// The same of two: points here, and times in the crates above.
#[derive(Clone, Copy)]
pub struct Two<T> {
    pub first: T,
    pub second: T,
}

// Finite, and not the origin.
fn is_ordinary(y: f64, x: f64) -> bool
    ensures { result ≡ ordinary y x }
{
    is_finite(y) & is_finite(x) & !((y == 0.0) & (x == 0.0))
}

// The smaller magnitude over the larger.
fn tangent_of(ay: f64, ax: f64) -> f64
    ensures { result ≡ tangent ay ax }
{
    if ay > ax { ax / ay } else { ay / ax }
}

// The angle of the magnitudes, from that of their tangent.
fn in_quarter(ay: f64, ax: f64, a: f64) -> f64
    ensures { result ≡ quarter_of ay ax a }
{
    if ay > ax { HALF_PI - a } else { a }
}

fn small_arctans(t: f64, t2: f64) -> Two<f64>
    ensures { (result.first ≡ arctan t) × (result.second ≡ arctan t2) }
{
    let h = halve(t);
    let h2 = halve(t2);
    let h = halve(h);
    let h2 = halve(h2);
    let first = arctan_series(h);
    let second = arctan_series(h2);
    Two { first, second }
}

// The angles of the points (x, y) and (x2, y2).
pub fn atan2_two(y: f64, x: f64, y2: f64, x2: f64) -> Two<f64>
    ensures { (result.first ≡ atan2_of y x) × (result.second ≡ atan2_of y2 x2) }
{
    if is_ordinary(y, x) & is_ordinary(y2, x2) {
        let ay = abs(y);
        let ax = abs(x);
        let ay2 = abs(y2);
        let ax2 = abs(x2);
        let a = small_arctans(tangent_of(ay, ax), tangent_of(ay2, ax2));
        return Two {
            first: place(y, x, in_quarter(ay, ax, a.first)),
            second: place(y2, x2, in_quarter(ay2, ax2, a.second)),
        };
    }
    Two {
        first: atan2(y, x),
        second: atan2(y2, x2),
    }
}
