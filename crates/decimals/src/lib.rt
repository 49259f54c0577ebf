// An f64 as a decimal with a fixed number of places, correctly rounded: the whole number nearest to its
// magnitude in units of the last place, a tie to even (specs/Fixed.antt). The f64 is m / 2^(1075 - e)
// with an m of 53 binary digits; whole part and fraction are taken apart so that all fits 64 bits.
#![tactic(auto)]

ghost use Rattle.std.specs.Prelude.{◌≡◌, true, ◌&&◌, ◌∷◌, ◌+◌, ◌-◌, ◌*◌, ◌%◌, ◌^◌, ◌≤◌, ◌<◌, min, ltb};
ghost use Rattle.std.specs.Float.Ieee.{lt};
ghost use Rattle.floats.specs.Notation.{dec};
ghost use Rattle.text.specs.Output.{Put, places};
ghost use Rattle.decimals.specs.Fixed.{nearest_whole, units_of, in_range, shown, units_text, signed_text, fixed_text};
ghost use Rattle.decimals.specs.Parts.{Parts, Units};

use text::{put_byte, put_bytes, put_decimal};

// The number whole + part / (2^32 * down).
#[derive(Clone, Copy)]
struct Split {
    whole: u64,
    part: u64,
    down: u64,
}

// m / 2^(1075 - e), below 1 where e is below 1023.
fn taken_apart(m: u64, e: u64) -> Split
    requires { (m < 9007199254740992) × (992 ≤ e) × (e ≤ 1062) }
    ensures { Parts m e result.whole result.part result.down }
{
    if e < 1023 {
        return Split {
            whole: 0,
            part: m,
            down: 1u64 << (1043 - e),
        };
    }
    let d = 1u64 << (1075 - e);
    let s = 1u64 << (e - 1022);
    Split {
        whole: m / d,
        part: m % d * s,
        down: 2097152,
    }
}

// part * ten / (2^32 * down) to the nearest whole number. The product has two words, and so has twice
// the remainder that decides: `rest` and `more`.
fn nearest_part(part: u64, down: u64, ten: u64) -> u64
    requires { (part < 9007199254740992) × (1 ≤ down) × (down ≤ 2251799813685248) × (ten ≤ 1000000000) }
    ensures value { result ≡ nearest_whole (part * ten) (4294967296 * down) }
    ensures upper_bound { result ≤ 9007199254740992 }
{
    let low = part % 4294967296 * ten;
    let middle = part / 4294967296 * ten + low / 4294967296;
    let q = middle / down;
    let rest = middle % down * 2 + low % 4294967296 / 2147483648;
    let more = low % 2147483648;
    if rest < down {
        return q;
    }
    if rest > down {
        return q + 1;
    }
    if more > 0 {
        return q + 1;
    }
    q + q % 2
}

// A number of units as its whole part and its places.
#[derive(Clone, Copy)]
struct Rounded {
    whole: u64,
    part: u64,
}

// m / 2^(1075 - e) in units of 1 / ten.
fn in_units(m: u64, e: u64, ten: u64) -> Rounded
    requires { (m < 9007199254740992) × (992 ≤ e) × (e ≤ 1062) × (ten % 2 ≡ 0) × (1 ≤ ten) × (ten ≤ 1000000000) }
    ensures { Units (nearest_whole (m * ten) (2 ^ (1075 - e))) ten result.whole result.part }
{
    let s = taken_apart(m, e);
    let n = nearest_part(s.part, s.down, ten);
    Rounded {
        whole: s.whole + n / ten,
        part: n % ten,
    }
}

// Below 2^-31 a number is less than half a unit of nine places.
fn units_of(x: f64, places: u64, ten: u64) -> Rounded
    requires { (in_range x ≡ true) × (1 ≤ places) × (places ≤ 9) × (ten ≡ 10 ^ places) }
    ensures { Units (units_of places x) ten result.whole result.part }
{
    let b = f64::to_bits(x);
    let e = b % 9223372036854775808 / 4503599627370496;
    let f = b % 4503599627370496;
    if e < 992 {
        return Rounded { whole: 0, part: 0 };
    }
    in_units(f + 4503599627370496, e, ten)
}

fn digit(n: u64) -> u8
    ensures { result ≡ 48 + n % 10 }
{
    b'0' + (n % 10) as u8
}

// The last nine places.
fn nine_digits(n: u64) -> [u8; 9]
    ensures { result ≡ places 10 9 n }
{
    let n1 = n / 10;
    let n2 = n1 / 10;
    let n3 = n2 / 10;
    let n4 = n3 / 10;
    let n5 = n4 / 10;
    let n6 = n5 / 10;
    let n7 = n6 / 10;
    let n8 = n7 / 10;
    [
        digit(n8),
        digit(n7),
        digit(n6),
        digit(n5),
        digit(n4),
        digit(n3),
        digit(n2),
        digit(n1),
        digit(n),
    ]
}

fn put_places(out: &mut [u8], at: usize, n: u64, width: u64) -> usize
    requires { width ≤ 9 }
    ensures { Put out.old at (places 10 width n) out.new result }
{
    let digits = nine_digits(n);
    let from = (9 - width) as usize;
    put_bytes(out, at, &digits[from..9])
}

// The last places of a whole number with leading zeros, nine at most.
pub fn put_last_places(out: &mut [u8], at: usize, n: u64, width: u64) -> usize
    ensures { Put out.old at (places 10 (min width 9) n) out.new result }
{
    if width <= 9 {
        return put_places(out, at, n, width);
    }
    put_places(out, at, n, 9)
}

// The whole part, a point and the places.
fn put_units(out: &mut [u8], at: usize, whole: u64, part: u64, width: u64, ten: u64) -> usize
    requires { (width ≤ 9) × (ten ≡ 10 ^ width) × (part < ten) }
    ensures { Put out.old at (units_text width (whole * ten + part)) out.new result }
{
    let p = put_decimal(out, at, whole);
    let p = put_byte(out, p, b'.');
    put_places(out, p, part, width)
}

fn put_signed(out: &mut [u8], at: usize, minus: bool, n: Rounded, width: u64, ten: u64) -> usize
    requires { (width ≤ 9) × (ten ≡ 10 ^ width) × (n.part < ten) }
    ensures { Put out.old at (signed_text minus (units_text width (n.whole * ten + n.part))) out.new result }
{
    if minus {
        let p = put_byte(out, at, b'-');
        return put_units(out, p, n.whole, n.part, width, ten);
    }
    put_units(out, at, n.whole, n.part, width, ten)
}

// Below zero, and not rounded to zero.
fn has_minus(x: f64, n: Rounded, ten: u64) -> bool
    requires { 1 ≤ ten }
    ensures { result ≡ (lt x (dec 0 0) && ltb 0 (n.whole * ten + n.part)) }
{
    if n.whole == 0 {
        return (x < 0.0) & (0 < n.part);
    }
    x < 0.0
}

fn put_shown(out: &mut [u8], at: usize, x: f64, places: u64) -> usize
    requires { shown places x ≡ true }
    ensures { Put out.old at (fixed_text places x) out.new result }
{
    let ten = 10u64.pow(places as u32);
    let n = units_of(x, places, ten);
    let minus = has_minus(x, n, ten);
    put_signed(out, at, minus, n, places, ten)
}

// Below 2^40 in magnitude, with one to nine places.
fn is_shown(x: f64, places: u64) -> bool
    ensures { result ≡ shown places x }
{
    (x < 1099511627776.0) & (x > -1099511627776.0) & (1 <= places) & (places <= 9)
}

// x with so many places, or `*` where it is not shown.
pub fn put_fixed(out: &mut [u8], at: usize, x: f64, places: u64) -> usize
    ensures { Put out.old at (fixed_text places x) out.new result }
{
    if is_shown(x, places) {
        return put_shown(out, at, x, places);
    }
    put_byte(out, at, b'*')
}
