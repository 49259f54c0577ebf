// The text of `station_windows`: a station as three decimals in km, a start as year, day and microseconds,
// whole numbers, and the line of a window. Words have one blank between them.
#![tactic(auto)]

ghost use Rattle.std.specs.Prelude.{◌≡◌, cond, ◌≤◌, length, drop};
ghost use Rattle.std.specs.Float.Ieee.{neg};
ghost use Rattle.text.specs.Output.{Put};
ghost use Rattle.instant.specs.Calendar.{date_of};
ghost use Rattle.station_text.specs.Words.{cut_at, behind, most_whole, pushed, digits_on, whole_in, number_of, start_from, start_of, formed, six_places, onward, micro_of, signed_of, sign_size, decimal_in, station_from, station_of};
ghost use Rattle.station_text.specs.Print.{date_text, dates_text, window_text, samples_in};

use instant::{Date, Instant, MoveRefusal, date_of, decimal};
use lent_instants::instant_of;
use request_line::begins;
use text::{put_byte, put_bytes, put_decimal};

// ---- Words and whole numbers.

// Where the first byte of its kind stands, or the end.
pub fn cut_at(s: &[u8], mark: u8) -> usize
    ensures { (result ≡ cut_at mark s.now) × (result ≤ length s.now) }
{
    s.iter().position(|&b| b == mark).unwrap_or(s.len())
}

// Where the bytes behind an index begin; there are none behind the end.
pub fn after(s: &[u8], n: usize) -> usize
    ensures { (result ≤ length s.now) × (drop result s.now ≡ behind n s.now) }
{
    if n < s.len() {
        return n + 1;
    }
    s.len()
}

// A whole number as far as it is read: good where all bytes are digits.
#[derive(Clone, Copy)]
pub struct Whole {
    pub good: bool,
    pub value: u64,
}

// One digit more. A number above 10^18 - 1 counts as that.
fn push(value: u64, digit: u64) -> u64
    requires { (value ≤ most_whole) × (digit ≤ 9) }
    ensures { (result ≡ pushed value digit) × (result ≤ most_whole) }
{
    let v = value * 10 + digit;
    if v > 999999999999999999 {
        return 999999999999999999;
    }
    v
}

// Digits behind those of a value.
fn digits_on(value: u64, s: &[u8]) -> Whole
    requires { value ≤ most_whole }
    ensures { (result ≡ digits_on value s.now) × (result.value ≤ most_whole) }
{
    let mut v = value;
    for &b in s {
        if b < b'0' {
            return Whole {
                good: false,
                value: 0,
            };
        }
        if b > b'9' {
            return Whole {
                good: false,
                value: 0,
            };
        }
        v = push(v, (b - b'0') as u64);
    }
    Whole {
        good: true,
        value: v,
    }
}

pub fn read_whole(s: &[u8]) -> Whole
    ensures { result ≡ whole_in s.now }
{
    if s.len() == 0 {
        return Whole {
            good: false,
            value: 0,
        };
    }
    digits_on(0, s)
}

// A line that is one whole number.
pub fn read_number(line: &[u8]) -> Option<u64>
    ensures { result ≡ number_of line.now }
{
    let n = read_whole(line);
    if n.good {
        return Some(n.value);
    }
    None
}

// ---- The start.

#[tactic(auto, unfolding(crate::specs::Words::start_from))]
fn start_from(year: Whole, day: Whole, micros: Whole) -> Option<Instant>
    ensures { result ≡ start_from year day micros }
{
    if year.good & day.good & micros.good {
        return match instant_of(year.value, day.value, micros.value) {
            Ok(t) => Some(t),
            Err(MoveRefusal::TooFar) => None,
            Err(MoveRefusal::Outside) => None,
        };
    }
    None
}

// Year, day of the year from 1 and microseconds of that day, as print_pair prints an epoch.
pub fn read_start(line: &[u8]) -> Option<Instant>
    ensures { result ≡ start_of line.now }
{
    let n = cut_at(line, b' ');
    let from = after(line, n);
    let rest = &line[from..];
    let m = cut_at(rest, b' ');
    let from = after(rest, m);
    let year = read_whole(&line[..n]);
    let day = read_whole(&rest[..m]);
    let micros = read_whole(&rest[from..]);
    start_from(year, day, micros)
}

// ---- The station.

// Nine digits at most, and six behind a point, which has one at least.
fn well_formed(size: usize, whole: usize, fraction: usize) -> bool
    ensures { result ≡ formed size whole fraction }
{
    if size == whole {
        return (1 <= whole) & (whole <= 9);
    }
    (1 <= whole) & (whole <= 9) & (1 <= fraction) & (fraction <= 6)
}

// Digits before a point, and six places behind it.
fn read_places(whole: &[u8], fraction: &[u8]) -> Whole
    ensures { result ≡ onward (digits_on 0 whole.now) (six_places fraction.now) }
{
    let mut places = [b'0'; 6];
    let _ = put_bytes(&mut places, 0, fraction);
    let w = digits_on(0, whole);
    if w.good {
        return digits_on(w.value, &places);
    }
    w
}

// The micro-units of a decimal without a sign: its digits, the point moved six places.
pub fn read_micro(s: &[u8]) -> Whole
    ensures { result ≡ micro_of s.now }
{
    let n = cut_at(s, b'.');
    let from = after(s, n);
    let fraction = &s[from..];
    if well_formed(s.len(), n, fraction.len()) {
        return read_places(&s[..n], fraction);
    }
    Whole {
        good: false,
        value: 0,
    }
}

// A decimal as far as it is read: good where it has its form.
#[derive(Clone, Copy)]
pub struct Decimal {
    pub good: bool,
    pub value: f64,
}

fn signed(minus: bool, micro: Whole) -> Decimal
    ensures { result ≡ signed_of minus micro }
{
    let x = decimal(micro.value, 6);
    if minus {
        return Decimal {
            good: micro.good,
            value: -x,
        };
    }
    Decimal {
        good: micro.good,
        value: x,
    }
}

// The bytes that a minus sign takes.
pub fn sign_size(s: &[u8]) -> usize
    ensures { (result ≡ sign_size s.now) × (result ≤ length s.now) }
{
    if begins(s, b"-") {
        return 1;
    }
    0
}

// A decimal, with a minus sign or without one.
pub fn read_decimal(s: &[u8]) -> Decimal
    ensures { result ≡ decimal_in s.now }
{
    let from = sign_size(s);
    let micro = read_micro(&s[from..]);
    signed(from == 1, micro)
}

#[derive(Clone, Copy)]
pub enum Station {
    At { x: f64, y: f64, z: f64 },
    Unread,
}

fn station_from(x: Decimal, y: Decimal, z: Decimal) -> Station
    ensures { result ≡ station_from x y z }
{
    if x.good & y.good & z.good {
        return Station::At {
            x: x.value,
            y: y.value,
            z: z.value,
        };
    }
    Station::Unread
}

// Earth-fixed x, y and z in km.
pub fn read_station(line: &[u8]) -> Station
    ensures { result ≡ station_of line.now }
{
    let n = cut_at(line, b' ');
    let from = after(line, n);
    let rest = &line[from..];
    let m = cut_at(rest, b' ');
    let from = after(rest, m);
    let x = read_decimal(&line[..n]);
    let y = read_decimal(&rest[..m]);
    let z = read_decimal(&rest[from..]);
    station_from(x, y, z)
}

// ---- A window.

// How many samples a window has, by the instants of its first and its last and the step in seconds. 0
// where there can be none.
pub fn samples_in(first: Instant, last: Instant, step: u64) -> u64
    ensures { result ≡ samples_in first.0 last.0 step }
{
    let a = first.0;
    let b = last.0;
    if step == 0 {
        return 0;
    }
    if step > 86400 {
        return 0;
    }
    if b < a {
        return 0;
    }
    (b - a) / (step * 1000000) + 1
}

fn put_day(out: &mut [u8], at: usize, d: Date) -> usize
    ensures { Put out.old at (dates_text d) out.new result }
{
    let p = put_decimal(out, at, d.year);
    let p = put_byte(out, p, b' ');
    let p = put_decimal(out, p, d.day);
    let p = put_byte(out, p, b' ');
    put_decimal(out, p, d.micros)
}

fn put_date(out: &mut [u8], at: usize, t: Instant) -> usize
    ensures { Put out.old at (date_text (date_of t.0)) out.new result }
{
    match date_of(t) {
        Some(d) => put_day(out, at, d),
        None => put_byte(out, at, b'-'),
    }
}

// `window`, the first and the last instant, and the number of samples.
pub fn put_window(out: &mut [u8], at: usize, first: Instant, last: Instant, samples: u64) -> usize
    ensures { Put out.old at (window_text first.0 last.0 samples) out.new result }
{
    let p = put_bytes(out, at, b"window ");
    let p = put_date(out, p, first);
    let p = put_byte(out, p, b' ');
    let p = put_date(out, p, last);
    let p = put_byte(out, p, b' ');
    let p = put_decimal(out, p, samples);
    put_byte(out, p, b'\n')
}
