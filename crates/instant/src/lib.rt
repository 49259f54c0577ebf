// Quantities of time and angle kept apart, converted only by named functions.
#![tactic(auto)]

ghost use Rattle.std.specs.Prelude.{◌≡◌, ◌+◌, ◌*◌, ◌^◌, ◌≤◌, ◌<◌, pos, nat_abs, false};
ghost use Rattle.std.specs.Float.{binary64};
ghost use Rattle.std.specs.Float.Ieee.{round};
ghost use Rattle.instant.specs.Division.{Divided};
ghost use Rattle.instant.specs.Quantity.{minutes_of, decimal_of, powered_of, scaled_of, radians_of};
ghost use Rattle.instant.specs.Calendar.{in_calendar, days_before, last_day, day_in_range, epoch_of, date_of};
ghost use Rattle.instant.specs.Move.{landed, move_of};
ghost use Rattle.instant.specs.Since.{since_of};
ghost use Rattle.instant.specs.Greenwich.{epoch_days_of, julian_of, sidereal_of, quadrant, gstime_of, epoch_days_at, julian_at, greenwich_at};

use integers::magnitude;

// A signed count of microseconds.
#[derive(Clone, Copy)]
pub struct Microseconds(pub i64);

// Microseconds from 1957 January 1, 0h.
#[derive(Clone, Copy)]
pub struct Instant(pub u64);

#[derive(Clone, Copy)]
pub struct Minutes(pub f64);

#[derive(Clone, Copy)]
pub struct Days(pub f64);

// A number of whole integrator strides of 720 minutes.
#[derive(Clone, Copy)]
pub struct Strides(pub u32);

#[derive(Clone, Copy)]
pub struct Radians(pub f64);

#[derive(Clone, Copy)]
pub struct Degrees(pub f64);

// How far a time lies from 0.
pub fn distance(t: Microseconds) -> u64
    ensures { result ≡ nat_abs t.0 }
{
    magnitude(t.0)
}

// ---- Whole numbers divided, rounded once.

// Numbers that are f64s: only the division rounds.
fn short_quotient(n: u64, d: u64) -> f64
    requires { (n ≤ 9007199254740992) × (1 ≤ d) × (d ≤ 9007199254740992) }
    ensures { result ≡ round binary64 false n d }
{
    n as f64 / d as f64
}

// n * scale = quotient * d + rest, and scale = 2 ^ bits.
#[derive(Clone, Copy)]
struct Division {
    quotient: u64,
    rest: u64,
    scale: u64,
    bits: u64,
}

// The division of n by d, carried on until the quotient has the 53 binary digits of an f64.
fn divide(n: u64, d: u64) -> Division
    requires { (9007199254740992 ≤ n) × (4096 ≤ d) × (d ≤ 1125899906842624) }
    ensures divided { Divided n d result.quotient result.rest result.scale result.bits }
    ensures le_quotient { 4503599627370496 ≤ result.quotient }
{
    let mut quotient = n / d;
    let mut rest = n % d;
    let mut scale = 1;
    let mut bits = 0;
    while quotient < 4503599627370496 {
        quotient = quotient * 2 + rest * 2 / d;
        rest = rest * 2 % d;
        scale *= 2;
        bits += 1;
    }
    Division {
        quotient,
        rest,
        scale,
        bits,
    }
}

// A number too long for an f64: a cast would round first. The quotient's last digit is rounded by the
// exact remainder, a tie to even, and what is left is a division of two f64s.
fn long_quotient(n: u64, d: u64) -> f64
    requires { (9007199254740992 ≤ n) × (4096 ≤ d) × (d ≤ 1125899906842624) }
    ensures { result ≡ round binary64 false n d }
{
    let x = divide(n, d);
    let q = x.quotient;
    let p = x.scale;
    let r = x.rest * 2;
    if r < d {
        return short_quotient(q, p);
    }
    if r > d {
        return short_quotient(q + 1, p);
    }
    short_quotient(q + q % 2, p)
}

// The f64 nearest to n / d, for every n.
fn quotient(n: u64, d: u64) -> f64
    requires { (1 ≤ d) × (d ≤ 1125899906842624) }
    ensures { result ≡ round binary64 false n d }
{
    if n <= 9007199254740992 {
        return short_quotient(n, d);
    }
    if d >= 4096 {
        return long_quotient(n, d);
    }
    long_quotient(n, d * 4096) * 4096.0
}

fn power_of_ten(k: u64) -> u64
    requires { k ≤ 15 }
    ensures value { result ≡ 10 ^ k }
    ensures lower_bound { (1 ≤ result) × (result ≤ 1000000000000000) }
{
    10u64.pow(k as u32)
}

// A decimal field: its whole number divided by its power of ten, rounded once. NaN beyond 15 places.
pub fn decimal(n: u64, places: u64) -> f64
    ensures { result ≡ decimal_of n places }
{
    if places <= 15 {
        let d = power_of_ten(places);
        return quotient(n, d);
    }
    0.0 / 0.0
}

// m * 10 ^ (exponent - 5), rounded once.
fn powered(m: u64, exponent: i64) -> f64
    requires { (m ≤ 99999) × (nat_abs exponent ≤ 9) }
    ensures { result ≡ powered_of (pos m) exponent }
{
    let e = magnitude(exponent);
    if exponent < 0 {
        return quotient(m, power_of_ten(5 + e));
    }
    if e <= 5 {
        return quotient(m, power_of_ten(5 - e));
    }
    quotient(m * power_of_ten(e - 5), 1)
}

// A field with an exponent: mantissa * 10 ^ (exponent - 5), rounded once. NaN where the mantissa has
// more than five digits or the exponent more than one.
pub fn scaled(mantissa: i64, exponent: i64) -> f64
    ensures { result ≡ scaled_of mantissa exponent }
{
    let m = magnitude(mantissa);
    if m > 99999 {
        return 0.0 / 0.0;
    }
    if magnitude(exponent) > 9 {
        return 0.0 / 0.0;
    }
    let q = powered(m, exponent);
    if mantissa < 0 {
        return -q;
    }
    q
}

// Minutes are microseconds divided by 60,000,000, rounded once.
pub fn to_minutes(t: Microseconds) -> Minutes
    ensures { result.0 ≡ minutes_of t.0 }
{
    let x = t.0;
    let d = distance(t);
    if d <= 9007199254740992 {
        return Minutes(x as f64 / 60000000.0);
    }
    let q = long_quotient(d, 60000000);
    if x < 0 {
        return Minutes(-q);
    }
    Minutes(q)
}

pub fn to_radians(x: Degrees) -> Radians
    ensures { result.0 ≡ radians_of x.0 }
{
    Radians(x.0 * 0.017453292519943295)
}

// ---- The calendar, 1957 January 1 to 2057 January 1.

// Year, day of the year from 1, microseconds of that day.
#[derive(Clone, Copy)]
pub struct Date {
    pub year: u64,
    pub day: u64,
    pub micros: u64,
}

// Whether an instant lies before 2057 January 1, 0h: the one place that says so.
fn in_calendar(t: u64) -> bool
    ensures { result ≡ in_calendar t }
{
    t < 3155760000000000
}

// Days from 1957 January 1 to January 1 of the year that many years later.
fn days_before(years: u64) -> u64
    requires { years ≤ 100000000000 }
    ensures { result ≡ days_before years }
{
    365 * years + years / 4
}

// The last day that an epoch of the year may have: the one place that says so.
#[tactic(auto, using(crate::proofs::Calendar::last_day_leap, crate::proofs::Calendar::last_day_common))]
fn last_day(year: u64) -> u64
    ensures { result ≡ last_day year }
{
    if year % 4 == 0 {
        return 366;
    }
    365
}

// Whether an epoch may have this day of the year, in units of 10 ^ -8 day; January 1, 0h, is
// 100000000.
pub fn day_in_range(year: u64, day: u64) -> bool
    ensures { result ≡ day_in_range year day }
{
    (100000000 <= day) & (day < (last_day(year) + 1) * 100000000)
}

// The instant of an epoch: its year and its day of the year, in units of 10 ^ -8 day. None is refusal 6:
// it lies outside 1957-2056.
pub fn epoch_instant(year: u64, day: u64) -> Option<Instant>
    ensures { result ≡ epoch_of year day }
{
    if year < 1957 {
        return None;
    }
    if year > 2056 {
        return None;
    }
    if day_in_range(year, day) {
        let before = days_before(year - 1957) * 86400000000;
        Some(Instant(before + (day - 100000000) * 864))
    } else {
        None
    }
}

// An instant taken apart. None is refusal 6, here and below: an instant given is outside 1957-2056.
pub fn date_of(t: Instant) -> Option<Date>
    ensures { result ≡ date_of t.0 }
{
    let x = t.0;
    if in_calendar(x) {
        let days = x / 86400000000;
        let k = (4 * days + 3) / 1461;
        let before = days_before(k);
        Some(Date {
            year: 1957 + k,
            day: days - before + 1,
            micros: x % 86400000000,
        })
    } else {
        None
    }
}

// ---- Moving an instant.

// Why an instant is not moved.
#[derive(Clone, Copy)]
pub enum MoveRefusal {
    // Refusal 9: the span is beyond 3,652 days.
    TooFar,
    // Refusal 6: the instant given or reached is outside 1957-2056.
    Outside,
}

fn land(t: u64) -> Result<Instant, MoveRefusal>
    ensures { result ≡ landed t }
{
    if in_calendar(t) {
        Ok(Instant(t))
    } else {
        Err(MoveRefusal::Outside)
    }
}

pub fn move_by(t: Instant, span: Microseconds) -> Result<Instant, MoveRefusal>
    ensures { result ≡ move_of t.0 span.0 }
{
    let x = t.0;
    let s = span.0;
    let d = distance(span);
    if d > 315532800000000 {
        return Err(MoveRefusal::TooFar);
    }
    if !in_calendar(x) {
        return Err(MoveRefusal::Outside);
    }
    if s < 0 {
        if d <= x {
            return land(x - d);
        }
        return Err(MoveRefusal::Outside);
    }
    land(x + d)
}

// ---- Time since an epoch.

// How far t lies from an epoch: negative where it comes before.
pub fn since(t: Instant, epoch: Instant) -> Option<Microseconds>
    ensures { result ≡ since_of t.0 epoch.0 }
{
    let x = t.0;
    let e = epoch.0;
    if !(in_calendar(x) & in_calendar(e)) {
        return None;
    }
    Some(Microseconds(x as i64 - e as i64))
}

// ---- Days and the Greenwich angle.

fn days_at(t: u64) -> f64
    ensures { result ≡ epoch_days_of t }
{
    quotient(t, 86400000000) + 2558.0
}

// Days since 1949 December 31, 0h, as 002's `epoch`.
pub fn epoch_days(t: Instant) -> Option<Days>
    ensures { result ≡ epoch_days_at t.0 }
{
    let x = t.0;
    if in_calendar(x) {
        return Some(Days(days_at(x)));
    }
    None
}

fn julian_at(t: u64) -> f64
    ensures { result ≡ julian_of t }
{
    days_at(t) + 2433281.5
}

pub fn julian_date(t: Instant) -> Option<Days>
    ensures { result ≡ julian_at t.0 }
{
    let x = t.0;
    if in_calendar(x) {
        return Some(Days(julian_at(x)));
    }
    None
}

fn sidereal_seconds(tut1: f64) -> f64
    ensures { result ≡ sidereal_of tut1 }
{
    -0.0000062 * tut1 * tut1 * tut1
        + 0.093104 * tut1 * tut1
        + 3164400184.812866 * tut1
        + 67310.54841
}

fn into_turn(x: f64) -> f64
    ensures { result ≡ quadrant x }
{
    if x < 0.0 {
        return x + 6.283185307179586;
    }
    x
}

// Greenwich sidereal time at a Julian date, 0 to two pi.
fn gstime(jdut1: f64) -> f64
    ensures { result ≡ gstime_of jdut1 }
{
    let tut1 = (jdut1 - 2451545.0) / 36525.0;
    let temp = sidereal_seconds(tut1);
    into_turn(elementary::rem_turn(temp * 0.017453292519943295 / 240.0))
}

// The Greenwich angle at an instant, UT1 taken as UTC.
pub fn greenwich(t: Instant) -> Option<Radians>
    ensures { result ≡ greenwich_at t.0 }
{
    let x = t.0;
    if in_calendar(x) {
        return Some(Radians(gstime(julian_at(x))));
    }
    None
}
