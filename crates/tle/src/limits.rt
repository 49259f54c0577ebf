// Which records are inside the layout and the ranges (document 01, "The two lines").

ghost use Rattle.std.specs.Prelude.{◌≡◌};
ghost use Rattle.columns.specs.Layout.{is_letter};
ghost use Rattle.tle.specs.Legal.{inclination_in_range, angle_in_range, motion_in_range, in_ranges, piece_fits, designator_fits, scaled_fits, in_layout, in_places, in_form, legal};

use super::{Designator, Record, Scaled};
use instant::day_in_range;
use integers::magnitude;

pub fn inclination_in_range(n: u64) -> bool
    ensures { result ≡ inclination_in_range n }
{
    n <= 1800000
}

pub fn angle_in_range(n: u64) -> bool
    ensures { result ≡ angle_in_range n }
{
    n < 3600000
}

pub fn motion_in_range(n: u64) -> bool
    ensures { result ≡ motion_in_range n }
{
    0 < n
}

fn in_ranges(r: Record) -> bool
    ensures { result ≡ in_ranges r }
{
    day_in_range(r.year, r.day)
        & inclination_in_range(r.inclination)
        & angle_in_range(r.node)
        & angle_in_range(r.perigee)
        & angle_in_range(r.anomaly)
        & motion_in_range(r.motion)
}

fn is_letter(b: u8) -> bool
    ensures { result ≡ is_letter b }
{
    (b'A' <= b) & (b <= b'Z')
}

fn piece_fits(launch: u64, a: u8, b: u8, c: u8) -> bool
    ensures { result ≡ piece_fits launch a b c }
{
    (launch < 100000)
        & is_letter(a)
        & (is_letter(b) | (b == b' '))
        & ((is_letter(c) & is_letter(b)) | (c == b' '))
}

fn designator_fits(d: Designator) -> bool
    ensures { result ≡ designator_fits d }
{
    match d {
        Designator::Blank => true,
        Designator::Piece { launch, a, b, c } => piece_fits(launch, a, b, c),
    }
}

fn scaled_fits(s: Scaled) -> bool
    ensures { result ≡ scaled_fits s }
{
    let m = magnitude(s.mantissa);
    let e = magnitude(s.exponent);
    (m < 100000) & (e < 10) & (!(m == 0) | (e == 0))
}

fn in_layout(r: Record) -> bool
    ensures { result ≡ in_layout r }
{
    let d = r.designator;
    let nddot = r.nddot;
    let bstar = r.bstar;
    (r.number < 340000)
        & designator_fits(d)
        & (1957 <= r.year)
        & (r.year <= 2056)
        & (magnitude(r.ndot) < 100000000)
        & scaled_fits(nddot)
        & scaled_fits(bstar)
        & (r.ephemeris < 10)
        & (r.element < 10000)
        & (r.eccentricity < 10000000)
        & (r.motion < 10000000000)
        & (r.revolution < 100000)
}

fn in_places(r: Record) -> bool
    ensures { result ≡ in_places r }
{
    (r.day < 100000000000)
        & (r.inclination < 10000000)
        & (r.node < 10000000)
        & (r.perigee < 10000000)
        & (r.anomaly < 10000000)
}

// Whether an accepted form yields these fields: judging their meaning refuses any other with 16.
pub fn in_form(r: Record) -> bool
    ensures { result ≡ in_form r }
{
    in_layout(r) & in_places(r)
}

// Whether a record is inside the layout and the ranges: writing and opening refuse any other with 16.
pub fn legal(r: Record) -> bool
    ensures { result ≡ legal r }
{
    in_layout(r) & in_ranges(r)
}
