// The fields of a line, each put over its columns.

ghost use Rattle.std.specs.Prelude.{◌≡◌, [], ◌∷◌, ◌+◌, ◌^◌, ◌≤◌, length, get_or};
ghost use Rattle.columns.specs.FirstPlace.{first_places};
ghost use Rattle.tle_writer.specs.Field.{place, lead, number_places, right, pointed, day_places, sign, fraction, exponent_sign, scaled, designator};
ghost use Rattle.tle_writer.specs.Over.{Put};

use integers::magnitude;
use tle::{Designator, Scaled};

// The byte of a number's last place; z stands for a leading zero.
fn place_of(z: u8, n: u64) -> u8
    ensures { result ≡ place z n }
{
    if n == 0 {
        return z;
    }
    b'0' + (n % 10) as u8
}

// The last places of n over all of out.
fn put(out: &mut [u8], z: u8, n: u64)
    ensures { out.new ≡ lead z (length out.old) n }
{
    let mut m = n;
    for i in (0..out.len()).rev() {
        out[i] = place_of(z, m);
        m = m / 10;
    }
}

// A line with them over its w bytes after the first at.
pub(crate) fn put_at(line: [u8; 69], at: usize, w: usize, z: u8, n: u64) -> [u8; 69]
    requires { at + w ≤ 69 }
    ensures { Put at w (lead z w n) line result }
{
    let mut l = line;
    put(&mut l[at..at + w], z, n);
    l
}

// The first place of a catalogue number: a digit, or the letter that stands for 10 to 33.
fn first_place_of(n: u64) -> u8
    ensures { result ≡ get_or first_places n 0 }
{
    let places = b"0123456789ABCDEFGHJKLMNPQRSTUVWXYZ";
    if 34 <= n {
        return 0;
    }
    places[n as usize]
}

fn sign_of(x: i64) -> u8
    ensures { result ≡ sign x }
{
    if x < 0 {
        return b'-';
    }
    b' '
}

fn exponent_sign_of(x: i64) -> u8
    ensures { result ≡ exponent_sign x }
{
    if 0 < x {
        return b'+';
    }
    b'-'
}

// Each function below gives the line with a field over its columns after the first at.

pub(crate) fn put_byte(line: [u8; 69], at: usize, b: u8) -> [u8; 69]
    requires { at + 1 ≤ 69 }
    ensures { Put at 1 (b ∷ []) line result }
{
    let mut l = line;
    l[at] = b;
    l
}

pub(crate) fn put_number(line: [u8; 69], at: usize, n: u64) -> [u8; 69]
    requires { at + 5 ≤ 69 }
    ensures { Put at 5 (number_places n) line result }
{
    let l = put_byte(line, at, first_place_of(n / 10000));
    put_at(l, at + 1, 4, b'0', n % 10000)
}

pub(crate) fn put_right(line: [u8; 69], at: usize, w: usize, n: u64) -> [u8; 69]
    requires { at + (w + 1) ≤ 69 }
    ensures { Put at (w + 1) (right w n) line result }
{
    let l = put_at(line, at, w, b' ', n / 10);
    put_at(l, at + w, 1, b'0', n % 10)
}

// Right-set in w + 1 places before the point and p digits after it; unit is 10 to the power of p.
pub(crate) fn put_pointed(
    line: [u8; 69],
    at: usize,
    w: usize,
    p: usize,
    unit: u64,
    n: u64,
) -> [u8; 69]
    requires { (at + (w + 1 + 1 + p) ≤ 69) × (unit ≡ 10 ^ p) }
    ensures { Put at (w + 1 + 1 + p) (pointed w p n) line result }
{
    let l = put_right(line, at, w, n / unit);
    let l = put_byte(l, at + w + 1, b'.');
    put_at(l, at + w + 2, p, b'0', n % unit)
}

pub(crate) fn put_day(line: [u8; 69], at: usize, day: u64) -> [u8; 69]
    requires { at + 12 ≤ 69 }
    ensures { Put at 12 (day_places day) line result }
{
    let l = put_at(line, at, 3, b'0', day / 100000000);
    let l = put_byte(l, at + 3, b'.');
    put_at(l, at + 4, 8, b'0', day % 100000000)
}

pub(crate) fn put_fraction(line: [u8; 69], at: usize, x: i64) -> [u8; 69]
    requires { at + 10 ≤ 69 }
    ensures { Put at 10 (fraction x) line result }
{
    let l = put_byte(line, at, sign_of(x));
    let l = put_byte(l, at + 1, b'.');
    put_at(l, at + 2, 8, b'0', magnitude(x))
}

pub(crate) fn put_scaled(line: [u8; 69], at: usize, s: Scaled) -> [u8; 69]
    requires { at + 8 ≤ 69 }
    ensures { Put at 8 (scaled s) line result }
{
    let m = s.mantissa;
    let e = s.exponent;
    let l = put_byte(line, at, sign_of(m));
    let l = put_at(l, at + 1, 5, b'0', magnitude(m));
    let l = put_byte(l, at + 6, exponent_sign_of(e));
    put_at(l, at + 7, 1, b'0', magnitude(e))
}

pub(crate) fn put_designator(line: [u8; 69], at: usize, d: Designator) -> [u8; 69]
    requires { at + 8 ≤ 69 }
    ensures { Put at 8 (designator d) line result }
{
    match d {
        Designator::Blank => put_at(line, at, 8, b' ', 0),
        Designator::Piece { launch, a, b, c } => {
            let l = put_at(line, at, 5, b'0', launch);
            let l = put_byte(l, at + 5, a);
            let l = put_byte(l, at + 6, b);
            put_byte(l, at + 7, c)
        }
    }
}
