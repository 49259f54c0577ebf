// The Earth-fixed frame: a position of the model's frame turned through the sidereal angle, and whether it
// stands above a station. Polar motion is left out.
#![tactic(auto)]

ghost use Rattle.std.specs.Prelude.{◌≡◌};
ghost use Rattle.earth_fixed.specs.Frame as F;

use instant::{Instant, Radians, greenwich};

// The rotation about the pole through an angle.
pub fn rotation(angle: Radians) -> [[f64; 3]; 3]
    ensures { result ≡ F.rotation_of angle.0 }
{
    let t = elementary::sin_cos(angle.0);
    let s = t.sin;
    let c = t.cos;
    [[c, s, 0.0], [-s, c, 0.0], [0.0, 0.0, 1.0]]
}

fn dot(u: [f64; 3], v: [f64; 3]) -> f64
    ensures { result ≡ F.dot u v }
{
    u[0] * v[0] + u[1] * v[1] + u[2] * v[2]
}

// A position turned: each row's products with it, summed left to right.
pub fn turned(m: [[f64; 3]; 3], v: [f64; 3]) -> [f64; 3]
    ensures { result ≡ F.turned_of m v }
{
    [dot(m[0], v), dot(m[1], v), dot(m[2], v)]
}

// Whether an Earth-fixed position stands above a station.
pub fn visible(position: [f64; 3], station: [f64; 3]) -> bool
    ensures { result ≡ F.visible_of position station }
{
    let d = [
        position[0] - station[0],
        position[1] - station[1],
        position[2] - station[2],
    ];
    dot(d, station) > 0.0
}

fn seen_through(station: [f64; 3], angle: Radians, position: [f64; 3]) -> bool
    ensures { result ≡ F.seen_through station angle.0 position }
{
    visible(turned(rotation(angle), position), station)
}

// Whether a position of the model's frame at an instant stands above a station. Outside the calendar
// nothing does.
pub fn seen(station: [f64; 3], t: Instant, position: [f64; 3]) -> bool
    ensures { result ≡ F.seen_of station t.0 position }
{
    let angle = greenwich(t);
    match angle {
        Some(a) => seen_through(station, a, position),
        None => false,
    }
}
