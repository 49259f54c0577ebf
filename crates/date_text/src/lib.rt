// An instant as text, `2026-11-17 12:00:00.000000`: year, month and day of the month, and the time of day
// in UTC with microseconds. All instants of the calendar take 26 bytes.
#![tactic(auto)]

ghost use Rattle.std.specs.Prelude.{◌≡◌, Some};
ghost use Rattle.text.specs.Output.{Put};
ghost use Rattle.date_text.specs.Date.{month_length, month_of, day_text, time_text, date_text, instant_text};

use decimals::put_last_places;
use instant::{Date, Instant, date_of};
use text::{put_byte, put_bytes};

// A month and a day of it, both from 1.
#[derive(Clone, Copy)]
pub struct MonthDay {
    pub month: u64,
    pub day: u64,
}

fn month_length(year: u64, month: u64) -> u64
    ensures { result ≡ month_length year month }
{
    if month == 2 {
        if year % 4 == 0 {
            return 29;
        }
        return 28;
    }
    if (month == 4) | (month == 6) | (month == 9) | (month == 11) {
        return 30;
    }
    31
}

// The month of a day of the year. The last month takes all that is left.
pub fn month_of(year: u64, day: u64) -> MonthDay
    ensures { result ≡ month_of year day }
{
    let mut rest = day;
    for month in 1..12 {
        let size = month_length(year, month);
        if rest <= size {
            return MonthDay { month, day: rest };
        }
        rest -= size;
    }
    MonthDay {
        month: 12,
        day: rest,
    }
}

fn put_day(out: &mut [u8], at: usize, year: u64, m: MonthDay) -> usize
    ensures { Put out.old at (day_text year m) out.new result }
{
    let p = put_last_places(out, at, year, 4);
    let p = put_byte(out, p, b'-');
    let p = put_last_places(out, p, m.month, 2);
    let p = put_byte(out, p, b'-');
    put_last_places(out, p, m.day, 2)
}

fn put_time(out: &mut [u8], at: usize, micros: u64) -> usize
    ensures { Put out.old at (time_text micros) out.new result }
{
    let p = put_last_places(out, at, micros / 3600000000, 2);
    let p = put_byte(out, p, b':');
    let p = put_last_places(out, p, micros / 60000000 % 60, 2);
    let p = put_byte(out, p, b':');
    let p = put_last_places(out, p, micros / 1000000 % 60, 2);
    let p = put_byte(out, p, b'.');
    put_last_places(out, p, micros % 1000000, 6)
}

fn put_date(out: &mut [u8], at: usize, d: Date) -> usize
    ensures { Put out.old at (date_text (Some d)) out.new result }
{
    let m = month_of(d.year, d.day);
    let p = put_day(out, at, d.year, m);
    let p = put_byte(out, p, b' ');
    put_time(out, p, d.micros)
}

// An instant's date and time of day; `- -` outside the calendar.
pub fn put_instant(out: &mut [u8], at: usize, t: Instant) -> usize
    ensures { Put out.old at (instant_text t.0) out.new result }
{
    match date_of(t) {
        Some(d) => put_date(out, at, d),
        None => put_bytes(out, at, b"- -"),
    }
}
