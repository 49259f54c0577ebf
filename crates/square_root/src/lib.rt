// The square root: the nearest f64. A candidate in floating point, of which nothing is proved but
// its length, and then an exact check of it in whole numbers that all fit 64 bits.
#![tactic(auto)]

ghost use Rattle.std.specs.Prelude.{◌≡◌, cond, leb, ltb, ◌+◌, ◌-◌, ◌*◌, ◌/◌, ◌%◌, ◌^◌, ◌≤◌, ◌<◌};
ghost use Rattle.square_root.specs.Root.{near_root, sqrt_of};

pub fn sqrt(x: f64) -> f64
    ensures { result ≡ sqrt_of x }
{
    if x > 0.0 {
        let b = f64::to_bits(x);
        if b < 0x7ff0_0000_0000_0000 {
            let e = b / 4503599627370496;
            let f = b % 4503599627370496;
            if e == 0 {
                // A subnormal's digits are moved up to the 53rd place.
                let z = (u64::leading_zeros(f) - 11) as u64;
                return f64::from_bits(packed(f << z, 54 - z));
            }
            return f64::from_bits(packed(f + 4503599627370496, e + 53));
        }
        return x;
    }
    if x == 0.0 {
        return x;
    }
    0.0 / 0.0
}

// The bit pattern of the root of m * 2^(k - 1128).
fn packed(m: u64, k: u64) -> u64
    requires { (4503599627370496 ≤ m) × (m < 9007199254740992) × (k ≤ 2200) }
    ensures value { result ≡ (k / 2 + 484) * 4503599627370496 + near_root (m * (1 + k % 2) * 2 ^ 52) }
    ensures upper_bound { result < (k / 2 + 486) * 4503599627370496 }
{
    let a = m * (1 + k % 2);
    let c = candidate(m, k % 2);
    let q = verified(a, c);
    (k / 2 + 484) * 4503599627370496 + q
}

// A number of 53 digits near the root of m * 2^(52 + odd), or any other: `verified` checks it, so
// that only the speed turns on it. v is m in 1 to 2; a polynomial that is within 5 parts in 10^9 of
// its root there, in an order that keeps the chain of dependent steps short, times the root of 2
// where the number is twice v, and one step of Heron's.
fn candidate(m: u64, odd: u64) -> u64
    requires { (m < 9007199254740992) × (odd < 2) }
    ensures { (4503599627370496 ≤ result) × (result < 9007199254740992) }
{
    let v = f64::from_bits(1022 * 4503599627370496 + m);
    let w = f64::from_bits((1022 + odd) * 4503599627370496 + m);
    let v2 = v * v;
    let v4 = v2 * v2;
    let low = (0.2340675537284 + 1.315588972133 * v) + v2 * (0.8887049446385 * v - 1.070187068091);
    let high = (0.2312185294155 * v - 0.5450180345715)
        + v2 * (0.0104026638843 * v - 0.0640254474539)
        - v4 * 0.0007521091841983;
    let scale = if odd == 0 { 1.0 } else { 1.4142135623730951 };
    let y = scale * low + (scale * v4) * high;
    let y = (y + w / y) * 0.5;
    if y > 0.0 {
        return f64::to_bits(y) % 4503599627370496 + 4503599627370496;
    }
    4503599627370496
}

// c + 1 where d is above v by more than c, c - 1 where it is below by c or more, else c. One of four
// candidates has to be moved, at no time that can be foreseen: so no branch.
fn neighbour(c: u64, d: u64, v: u64) -> u64
    requires { (1 ≤ c) × (c < 9007199254740992) × (d < 36028797018963968) × (v < 36028797018963968) }
    ensures { result ≡ cond (ltb (v + c) d) (c + 1) (cond (leb (d + c) v) (c - 1) c) }
{
    let up = (v + c < d) as u64;
    let down = (d + c <= v) as u64;
    c + up - down
}

// The whole number nearest to the root of a * 2^52: c or a neighbour of c where the exact remainder
// a * 2^52 - c * c shows it, and otherwise what `near_root` finds. With c = s * 2^26 + t the
// remainder is ((a - s * s) * 2^26 - 2 * s * t) * 2^26 - t * t; 2^54 is added on the way so that
// nothing is negative.
fn verified(a: u64, c: u64) -> u64
    requires { (4503599627370496 ≤ a) × (a ≤ 18014398509481982) × (4503599627370496 ≤ c) × (c < 9007199254740992) }
    ensures { result ≡ near_root (a * 2 ^ 52) }
{
    let s = c / 67108864;
    let t = c % 67108864;
    let p = s * s;
    if p <= a {
        let w = a - p;
        if w < 1073741824 {
            let x = w * 67108864 + 268435456;
            let y = t * (s * 2);
            if y <= x {
                let u = x - y;
                if u < 536870912 {
                    let d = u * 67108864;
                    let v = t * t + 18014398509481984;
                    if d <= v + 3 * c {
                        if v + 2 < d + 3 * c {
                            return neighbour(c, d, v);
                        }
                    }
                }
            }
        }
    }
    near_root(a, s)
}

// The same with no candidate. With s and r the root of a and its remainder, and t and u the quotient
// and the remainder of r * 2^26 by 2 * s, c = s * 2^26 + t is within one of the root of a * 2^52, and
// a * 2^52 - c * c = u * 2^26 - t * t.
fn near_root(a: u64, start: u64) -> u64
    requires { (4503599627370496 ≤ a) × (a ≤ 18014398509481982) × (start ≤ 134217728) }
    ensures { result ≡ near_root (a * 2 ^ 52) }
{
    let s = whole_root(a, start);
    let r = (a - s * s) * 67108864;
    let d = s * 2;
    let t = r / d;
    let u = (r % d) * 67108864;
    let c = s * 67108864 + t;
    let v = t * t;
    if u > v + c {
        return c + 1;
    }
    if u + c > v {
        return c;
    }
    c - 1
}

// The whole part of the root of a, looked for from `start`.
fn whole_root(a: u64, start: u64) -> u64
    requires { (a < 18014398509481984) × (start ≤ 134217728) }
    ensures { (result * result ≤ a) × (a < (result + 1) * (result + 1)) }
{
    let mut s = start;
    while s * s > a {
        s -= 1;
    }
    while (s + 1) * (s + 1) <= a {
        s += 1;
    }
    s
}
