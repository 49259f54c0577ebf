// The two lines, field by field in the order of document 01's tables.

ghost use Rattle.std.specs.Prelude.{◌≡◌, ◌++◌, take};
ghost use Rattle.text.specs.Output.{bytes};
ghost use Rattle.tle.specs.declared.Line.TheVariants.{One, Two};
ghost use Rattle.tle_writer.specs.Lines.{body_of, closed_of, line_of};

use super::fields::{
    put_at, put_byte, put_day, put_designator, put_fraction, put_number, put_pointed, put_right,
    put_scaled,
};
use columns::checksum;
use tle::{Line, Record};

// A line whose last column is its checksum.
fn closed(line: [u8; 69]) -> [u8; 69]
    ensures { result ≡ closed_of (take 68 line) }
{
    let sum = checksum(&line[0..68]);
    put_at(line, 68, 1, b'0', sum)
}

// Columns 1 to 68 of line 1, with a blank after them.
fn body1(r: Record) -> [u8; 69]
    ensures { result ≡ body_of One r ++ bytes " " }
{
    let class = r.class;
    let d = r.designator;
    let nddot = r.nddot;
    let bstar = r.bstar;
    let l = [b' '; 69];
    let l = put_byte(l, 0, b'1');
    let l = put_number(l, 2, r.number);
    let l = put_byte(l, 7, class.letter());
    let l = put_designator(l, 9, d);
    let l = put_at(l, 18, 2, b'0', r.year % 100);
    let l = put_day(l, 20, r.day);
    let l = put_fraction(l, 33, r.ndot);
    let l = put_scaled(l, 44, nddot);
    let l = put_scaled(l, 53, bstar);
    let l = put_at(l, 62, 1, b'0', r.ephemeris);
    put_right(l, 64, 3, r.element)
}

// Columns 1 to 68 of line 2, with a blank after them.
fn body2(r: Record) -> [u8; 69]
    ensures { result ≡ body_of Two r ++ bytes " " }
{
    let l = [b' '; 69];
    let l = put_byte(l, 0, b'2');
    let l = put_number(l, 2, r.number);
    let l = put_pointed(l, 8, 2, 4, 10000, r.inclination);
    let l = put_pointed(l, 17, 2, 4, 10000, r.node);
    let l = put_at(l, 26, 7, b'0', r.eccentricity);
    let l = put_pointed(l, 34, 2, 4, 10000, r.perigee);
    let l = put_pointed(l, 43, 2, 4, 10000, r.anomaly);
    let l = put_pointed(l, 52, 1, 8, 100000000, r.motion);
    put_right(l, 63, 4, r.revolution)
}

pub(crate) fn line_of(which: Line, r: Record) -> [u8; 69]
    ensures { result ≡ line_of which r }
{
    match which {
        Line::One => closed(body1(r)),
        Line::Two => closed(body2(r)),
    }
}
