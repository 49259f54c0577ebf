// Sine and cosine: the argument brought within a quarter turn of zero, and a Taylor polynomial.
#![tactic(auto)]

ghost use Rattle.std.specs.Prelude.{◌≡◌, false, ◌*◌, ◌%◌, ◌^◌, ◌<◌};
ghost use Rattle.std.specs.Float.Ieee.{lt};
ghost use Rattle.floats.specs.Notation.{two_pi};
ghost use Rattle.trigonometry.specs.Trig.{turned, wrapped, folded, sin_poly, cos_poly, sin_of, signed, cos_of, sin_cos};

use floats::{HALF_PI, PI, TWO_PI};

#[derive(Clone, Copy)]
pub struct SinCos {
    pub sin: f64,
    pub cos: f64,
}

pub fn sin(x: f64) -> f64
    ensures { result ≡ sin_of x }
{
    sin_poly(fold(wrap(rem_turn(x))))
}

pub fn cos(x: f64) -> f64
    ensures { result ≡ cos_of x }
{
    let r = wrap(rem_turn(x));
    sign(r, cos_poly(fold(r)))
}

// Both, with one reduction.
pub fn sin_cos(x: f64) -> SinCos
    ensures value { result ≡ sin_cos x }
    ensures sin_value { (result.sin ≡ sin_of x) × (result.cos ≡ cos_of x) }
{
    let r = wrap(rem_turn(x));
    let f = fold(r);
    let s = sin_poly(f);
    let c = sign(r, cos_poly(f));
    SinCos { sin: s, cos: c }
}

// The remainder by two pi, the bits of C's fmod, which is not called.
pub fn rem_turn(x: f64) -> f64
    ensures { result ≡ turned x }
{
    if x > -TWO_PI {
        if x < TWO_PI {
            return x;
        }
        if x < 12.566370614359172 {
            return x - TWO_PI;
        }
        return rem_whole(x);
    }
    -rem_whole(-x)
}

// The remainder in whole numbers: from two pi on, x is a whole number of 2^-50, and two pi is
// 7074237752028440 of them.
fn rem_whole(x: f64) -> f64
    requires { lt x two_pi ≡ false }
    ensures { result ≡ turned x }
{
    if x < 1.0 / 0.0 {
        let b = f64::to_bits(x);
        let r = rem_digits(
            b % 4503599627370496 + 4503599627370496,
            b / 4503599627370496 - 1025,
        );
        return r as f64 / 1125899906842624.0;
    }
    0.0 / 0.0
}

// The remainder of m * 2^k, eleven digits at a time: one division up to 2^14, two up to 2^25.
fn rem_digits(m: u64, k: u64) -> u64
    requires { m < 9007199254740992 }
    ensures { result ≡ m * 2 ^ k % 7074237752028440 }
{
    let mut r = m;
    let mut left = k;
    while left > 11 {
        r = r * 2048 % 7074237752028440;
        left -= 11;
    }
    (r << left) % 7074237752028440
}

// From a remainder to -pi .. pi.
fn wrap(r: f64) -> f64
    ensures { result ≡ wrapped r }
{
    if r > PI {
        return r - TWO_PI;
    }
    if r < -PI {
        return r + TWO_PI;
    }
    r
}

// A magnitude above pi / 2, reflected at pi of its own sign.
fn fold(r: f64) -> f64
    ensures { result ≡ folded r }
{
    if r > HALF_PI {
        return PI - r;
    }
    if r < -HALF_PI {
        return -PI - r;
    }
    r
}

// The cosine c, negated where r was reflected.
fn sign(r: f64, c: f64) -> f64
    ensures { result ≡ signed r c }
{
    if r > HALF_PI {
        return -c;
    }
    if r < -HALF_PI {
        return -c;
    }
    c
}

// Degree 21: the divisors are the factorials from 21 down to 1.
fn sin_poly(x: f64) -> f64
    ensures { result ≡ sin_poly x }
{
    let z = x * x;
    let p = 1.0 / 51090942171709440000.0;
    let p = p * z - 1.0 / 121645100408832000.0;
    let p = p * z + 1.0 / 355687428096000.0;
    let p = p * z - 1.0 / 1307674368000.0;
    let p = p * z + 1.0 / 6227020800.0;
    let p = p * z - 1.0 / 39916800.0;
    let p = p * z + 1.0 / 362880.0;
    let p = p * z - 1.0 / 5040.0;
    let p = p * z + 1.0 / 120.0;
    let p = p * z - 1.0 / 6.0;
    let p = p * z + 1.0;
    p * x
}

// Degree 22: the divisors are the factorials from 22 down to 0.
fn cos_poly(x: f64) -> f64
    ensures { result ≡ cos_poly x }
{
    let z = x * x;
    let p = -(1.0 / 1124000727777607680000.0);
    let p = p * z + 1.0 / 2432902008176640000.0;
    let p = p * z - 1.0 / 6402373705728000.0;
    let p = p * z + 1.0 / 20922789888000.0;
    let p = p * z - 1.0 / 87178291200.0;
    let p = p * z + 1.0 / 479001600.0;
    let p = p * z - 1.0 / 3628800.0;
    let p = p * z + 1.0 / 40320.0;
    let p = p * z - 1.0 / 720.0;
    let p = p * z + 1.0 / 24.0;
    let p = p * z - 1.0 / 2.0;
    p * z + 1.0
}
