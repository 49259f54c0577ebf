// The cube root of a positive normal number, the nearest f64, and the powers 2/3, 3/2 and 7/2 that the
// model takes. As for the square root, a candidate in floating point, of which nothing is proved but its
// length, and then an exact check of it in whole numbers that all fit 64 bits.
#![tactic(auto)]

ghost use Rattle.std.specs.Prelude.{◌≡◌, cond, leb, ltb, ◌+◌, ◌-◌, ◌*◌, ◌/◌, ◌%◌, ◌^◌, ◌≤◌, ◌<◌};
ghost use Rattle.cube_root.specs.Cube.{cube, near_cube, normal, cbrt_of};
ghost use Rattle.cube_root.specs.Cut.{cut};
ghost use Rattle.cube_root.specs.Power.{pow23, pow15, pow35};

use square_root::sqrt;

// A cube from below and the next one, as `cubes` says.
#[derive(Clone, Copy)]
struct Bounds {
    under: u64,
    over: u64,
}

pub fn cbrt(x: f64) -> f64
    ensures { result ≡ cbrt_of x }
{
    if is_normal(x) {
        let b = f64::to_bits(x);
        return f64::from_bits(packed(
            b % 4503599627370496 + 4503599627370496,
            b / 4503599627370496,
        ));
    }
    0.0 / 0.0
}

// From the least normal number, 2^-1022, to the largest finite one.
fn is_normal(x: f64) -> bool
    ensures { result ≡ normal x }
{
    (x >= 2.2250738585072014e-308) & (x < 1.0 / 0.0)
}

// The bit pattern of the root of m * 2^(e - 1075). A root that is rounded up to 2^53 carries into
// the exponent, as it has to.
fn packed(m: u64, e: u64) -> u64
    requires { (4503599627370496 ≤ m) × (m < 9007199254740992) × (e < 2047) }
    ensures value { result ≡ (e / 3 + 681) * 4503599627370496 + near_cube (m * 2 ^ (e % 3) * 2 ^ 104) }
    ensures upper_bound { result ≤ (e / 3 + 683) * 4503599627370496 }
{
    let r = e % 3;
    let c = candidate(m, r);
    let q = verified(m << r, c);
    (e / 3 + 681) * 4503599627370496 + q
}

// A number of 53 digits near the cube root of m * 2^(104 + r), or any other: `verified` checks it, so
// that only the speed turns on it. v is m in 1 to 2; a polynomial that is within 13 parts in 10^7 of
// its root there, times the root of 2 or of 4 where the number is twice or four times v, and one
// step of Halley's.
fn candidate(m: u64, r: u64) -> u64
    requires { (m < 9007199254740992) × (r < 3) }
    ensures { (4503599627370496 ≤ result) × (result < 9007199254740992) }
{
    let v = f64::from_bits(1022 * 4503599627370496 + m);
    let w = f64::from_bits((1022 + r) * 4503599627370496 + m);
    let v2 = v * v;
    let low = (0.47333071752408906 + 0.8381598888820864 * v)
        + v2 * (0.20277707250455407 * v - 0.46922850511601827);
    let high = 0.005348539496194192 * v - 0.05038648237412499;
    let roots = [1.0, 1.2599210498948732, 1.5874010519681994];
    let scale = roots[r as usize];
    let y = scale * low + (scale * (v2 * v2)) * high;
    let y3 = y * y * y;
    let y = y - y * ((y3 - w) / (y3 + (y3 + w)));
    if y > 0.0 {
        return f64::to_bits(y) % 4503599627370496 + 4503599627370496;
    }
    4503599627370496
}

// The whole number nearest to the cube root of a * 2^104: c or a neighbour of c where the cubes of
// c - 1/2 and c + 1/2, in units of 2^104, show it, and otherwise what `near_cube` finds. The cube of
// c + 3/2 is more than g units above the one, and that of c - 3/2 more than g - 1 below the other.
fn verified(a: u64, c: u64) -> u64
    requires { (4503599627370496 ≤ a) × (a < 36028797018963968) × (4503599627370496 ≤ c) × (c < 9007199254740992) }
    ensures { result ≡ near_cube (a * 2 ^ 104) }
{
    let z = cubes(2 * c - 1);
    let s = c / 67108864;
    let g = 3 * (s * s) / 4503599627370496;
    if a <= z.over + g {
        if z.under + 2 <= a + g {
            return neighbour(a, c, z.under, z.over);
        }
    }
    near_cube(a)
}

// c + 1 where `over` is below a, c - 1 where `under` is not, else c. One of nine candidates has to be
// moved, at no time that can be foreseen: so no branch.
fn neighbour(a: u64, c: u64, under: u64, over: u64) -> u64
    requires { (1 ≤ c) × (c < 9007199254740992) × (under ≤ over) }
    ensures { result ≡ cond (ltb over a) (c + 1) (cond (leb a under) (c - 1) c) }
{
    let up = (over < a) as u64;
    let down = (a <= under) as u64;
    c + up - down
}

// The same with no candidate. The cube of `low` - 1/2 is below a * 2^104, and that of `high` - 1/2 is
// not; at the end `high` is `low` + 1.
fn near_cube(a: u64) -> u64
    requires { (4503599627370496 ≤ a) × (a < 36028797018963968) }
    ensures { result ≡ near_cube (a * 2 ^ 104) }
{
    let mut low = 4503599627370496u64;
    let mut high = 9007199254740993u64;
    while low + 1 < high {
        let middle = (low + high) / 2;
        let z = cubes(2 * middle - 1);
        if z.under < a {
            low = middle;
        } else {
            high = middle;
        }
    }
    low
}

// The cubes of z and of z + 2 in units of 2^107, cut to whole numbers. With B = 2^27 and
// z = h * B + l, and with the squares of h and l taken apart in the same way, z cubed is a sum of
// five powers of B; the other is z cubed and 6 * z * z + 12 * z + 8.
fn cubes(z: u64) -> Bounds
    requires { z < 18014398509481984 }
    ensures { (result.under ≡ cut (cube z)) × (result.over ≡ cut (cube (z + 2))) }
{
    let h = z / 134217728;
    let l = z % 134217728;
    let p = h * h;
    let q = l * l;
    let p1 = p / 134217728;
    let p0 = p % 134217728;
    let q1 = q / 134217728;
    let q0 = q % 134217728;
    let x0 = q0 * l;
    let x1 = 3 * (q0 * h) + q1 * l;
    let x2 = 3 * (p0 * l + q1 * h);
    let x3 = p0 * h + 3 * (p1 * l);
    let x4 = p1 * h;
    let under = carried(x0, x1, x2, x3, x4);
    let over = carried(
        x0 + 6 * q + 12 * l + 8,
        x1 + 12 * (h * l + h),
        x2 + 6 * p,
        x3,
        x4,
    );
    Bounds {
        under: under,
        over: over,
    }
}

// The number with the digits x4 to x0 at base 2^27, which need not be below 2^27, in units of 2^107.
fn carried(x0: u64, x1: u64, x2: u64, x3: u64, x4: u64) -> u64
    requires { (x0 < 2 ^ 60) × (x1 < 2 ^ 60) × (x2 < 2 ^ 60) × (x3 < 2 ^ 60) × (x4 < 2 ^ 60) }
    ensures { result ≡ cut (x0 + x1 * 2 ^ 27 + x2 * 2 ^ 54 + x3 * 2 ^ 81 + x4 * 2 ^ 108) }
{
    let k1 = x0 / 134217728;
    let k2 = (x1 + k1) / 134217728;
    let k3 = (x2 + k2) / 134217728;
    2 * x4 + (x3 + k3) / 67108864
}

// ---- Powers.

// The cube root of the square.
pub fn two_thirds(x: f64) -> f64
    ensures { result ≡ pow23 x }
{
    cbrt(x * x)
}

// x times the root.
pub fn three_halves(x: f64) -> f64
    ensures { result ≡ pow15 x }
{
    x * sqrt(x)
}

// x * x * x times the root.
pub fn seven_halves(x: f64) -> f64
    ensures { result ≡ pow35 x }
{
    x * x * x * sqrt(x)
}
