// A position of the model's frame at an instant, as a station sees it. Above a least elevation is what has
// a greater sine of its elevation.
#![tactic(auto)]

ghost use Rattle.std.specs.Prelude.{◌≡◌};
ghost use Rattle.horizon.specs.Horizon as Z;

use earth_fixed::{rotation, turned};
use elementary::{atan2, sqrt};
use geodetic::Site;
use instant::{Degrees, Instant, Radians, greenwich};

// Products with east, north and up of an Earth-fixed position less the station's.
fn local(site: Site, p: [f64; 3]) -> [f64; 3]
    ensures { result ≡ Z.local site p }
{
    let at = site.position;
    let east = site.east;
    let north = site.north;
    let up = site.up;
    let d = [p[0] - at[0], p[1] - at[1], p[2] - at[2]];
    turned([east, north, up], d)
}

fn local_through(site: Site, angle: Radians, p: [f64; 3]) -> [f64; 3]
    ensures { result ≡ Z.local_through site angle.0 p }
{
    local(site, turned(rotation(angle), p))
}

fn sine_in(v: [f64; 3]) -> f64
    ensures { result ≡ Z.sine_in v }
{
    let e = v[0];
    let n = v[1];
    let u = v[2];
    u / sqrt(e * e + n * n + u * u)
}

fn sine_through(site: Site, angle: Radians, p: [f64; 3]) -> f64
    ensures { result ≡ Z.sine_in (Z.local_through site angle.0 p) }
{
    sine_in(local_through(site, angle, p))
}

// The sine of the elevation. Outside the calendar nothing stands higher than straight down.
pub fn sine(site: Site, t: Instant, p: [f64; 3]) -> f64
    ensures { result ≡ Z.sine_of site t.0 p }
{
    let angle = greenwich(t);
    match angle {
        Some(a) => sine_through(site, a, p),
        None => -1.0,
    }
}

// Azimuth from north by east and elevation, and the range in km.
#[derive(Clone, Copy)]
pub struct Look {
    pub azimuth: Degrees,
    pub elevation: Degrees,
    pub range: f64,
}

fn about_turn(x: f64) -> f64
    ensures { result ≡ Z.about_turn x }
{
    if x < 0.0 {
        return x + 360.0;
    }
    x
}

fn degrees(x: f64) -> f64
    ensures { result ≡ Z.degrees_of x }
{
    x * 57.29577951308232
}

fn look_in(v: [f64; 3]) -> Look
    ensures { result ≡ Z.look_in v }
{
    let e = v[0];
    let n = v[1];
    let u = v[2];
    let range = sqrt(e * e + n * n + u * u);
    let flat = sqrt(e * e + n * n);
    let azimuth = about_turn(degrees(atan2(e, n)));
    let elevation = degrees(atan2(u, flat));
    Look {
        azimuth: Degrees(azimuth),
        elevation: Degrees(elevation),
        range,
    }
}

// What stands for a place that there is not.
pub fn straight_down() -> Look
    ensures { result ≡ Z.down }
{
    Look {
        azimuth: Degrees(0.0),
        elevation: Degrees(-90.0),
        range: 0.0,
    }
}

fn look_through(site: Site, angle: Radians, p: [f64; 3]) -> Look
    ensures { result ≡ Z.look_in (Z.local_through site angle.0 p) }
{
    look_in(local_through(site, angle, p))
}

pub fn look_angles(site: Site, t: Instant, p: [f64; 3]) -> Look
    ensures { result ≡ Z.look_of site t.0 p }
{
    let angle = greenwich(t);
    match angle {
        Some(a) => look_through(site, a, p),
        None => straight_down(),
    }
}
