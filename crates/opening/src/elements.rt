// A record's fields as the numbers that sgp4init is handed.
ghost use Rattle.std.specs.Prelude.{◌≡◌};
ghost use Rattle.opening.specs.Elements as E;

use instant::{Degrees, decimal, scaled, to_radians};
use satellite::Elements;
use tle::{Record, Scaled};

// Revolutions a day in one rad/min.
fn xpdotp() -> f64
    ensures { result ≡ E.xpdotp }
{
    229.1831180523293
}

fn bstar_of(b: Scaled) -> f64
    ensures { result ≡ E.bstar_of b }
{
    scaled(b.mantissa, b.exponent)
}

pub fn elements_of(r: Record) -> Elements
    ensures { result ≡ E.elements_of r }
{
    let b = r.bstar;
    let bstar = bstar_of(b);
    let ecco = decimal(r.eccentricity, 7);
    let argpo = to_radians(Degrees(decimal(r.perigee, 4)));
    let inclo = to_radians(Degrees(decimal(r.inclination, 4)));
    let mo = to_radians(Degrees(decimal(r.anomaly, 4)));
    let no = decimal(r.motion, 8) / xpdotp();
    let nodeo = to_radians(Degrees(decimal(r.node, 4)));
    Elements {
        bstar,
        ecco,
        argpo: argpo.0,
        inclo: inclo.0,
        mo: mo.0,
        no,
        nodeo: nodeo.0,
    }
}
