// A station by latitude, longitude and height above the WGS-84 ellipsoid: its Earth-fixed position, and
// east, north and up there. Up is the ellipsoid's normal.
#![tactic(auto)]

ghost use Rattle.std.specs.Prelude.{◌≡◌};
ghost use Rattle.geodetic.specs.Geodetic as G;

use instant::{Degrees, to_radians};

#[derive(Clone, Copy)]
pub struct Metres(pub f64);

// Geodetic latitude, longitude to the east, height above the ellipsoid.
#[derive(Clone, Copy)]
pub struct Geodetic {
    pub latitude: Degrees,
    pub longitude: Degrees,
    pub height: Metres,
}

// Earth-fixed, the position in km.
#[derive(Clone, Copy)]
pub struct Site {
    pub position: [f64; 3],
    pub east: [f64; 3],
    pub north: [f64; 3],
    pub up: [f64; 3],
}

fn eccentricity2() -> f64
    ensures { result ≡ G.eccentricity2 }
{
    let f = 1.0 / 298.257223563;
    f * (2.0 - f)
}

// The radius of curvature in the prime vertical, in km, by the sine of the latitude.
fn prime_vertical(s: f64) -> f64
    ensures { result ≡ G.prime_vertical s }
{
    6378.137 / elementary::sqrt(1.0 - eccentricity2() * s * s)
}

// By sine and cosine of latitude and longitude, and the height in km.
fn position(sphi: f64, cphi: f64, slam: f64, clam: f64, h: f64) -> [f64; 3]
    ensures { result ≡ G.position_of sphi cphi slam clam h }
{
    let n = prime_vertical(sphi);
    let e2 = eccentricity2();
    [
        (n + h) * cphi * clam,
        (n + h) * cphi * slam,
        (n * (1.0 - e2) + h) * sphi,
    ]
}

fn placed(sphi: f64, cphi: f64, slam: f64, clam: f64, h: f64) -> Site
    ensures { result ≡ G.placed sphi cphi slam clam h }
{
    let position = position(sphi, cphi, slam, clam, h);
    Site {
        position,
        east: [-slam, clam, 0.0],
        north: [-(sphi * clam), -(sphi * slam), cphi],
        up: [cphi * clam, cphi * slam, sphi],
    }
}

pub fn site_of(g: Geodetic) -> Site
    ensures { result ≡ G.site_of g }
{
    let phi = to_radians(g.latitude);
    let lam = to_radians(g.longitude);
    let p = elementary::sin_cos(phi.0);
    let l = elementary::sin_cos(lam.0);
    placed(p.sin, p.cos, l.sin, l.cos, g.height.0 / 1000.0)
}

// Whether latitude, longitude and height are a station's.
pub fn on_earth(g: Geodetic) -> bool
    ensures { result ≡ G.on_earth g }
{
    let phi = g.latitude.0;
    let lam = g.longitude.0;
    let h = g.height.0;
    (-90.0 <= phi)
        & (phi <= 90.0)
        & ((-180.0 <= lam) & (lam <= 360.0))
        & ((-10000.0 <= h) & (h <= 100000.0))
}
