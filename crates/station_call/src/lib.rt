// Lines 3 to 6 of `station_windows`: the station, the start, the step in seconds and the number of samples.
// A station is three decimals, Earth-fixed x, y and z in km, or `geodetic` and four: latitude and longitude
// in degrees, height in metres above the WGS-84 ellipsoid, least elevation in degrees.
#![tactic(auto)]

ghost use Rattle.std.specs.Prelude.{◌≡◌};
ghost use Rattle.station_text.specs.Words.{station_of};
ghost use Rattle.text.specs.Output.{Put};
ghost use Rattle.station_call.specs.Call.{fixed_from, over, geodetic_from, geodetic_of, place_of, call_of, samples_from, samples_of, place_fault, start_fault, whole_fault, faults_text};

use geodetic::{Geodetic, Metres};
use instant::{Degrees, Instant};
use request_line::begins;
use station_text::{
    Decimal, Station, Whole, after, cut_at, read_decimal, read_start, read_station, read_whole,
};
use text::put_bytes;

// ---- The station.

#[derive(Clone, Copy)]
pub enum Place {
    Fixed { x: f64, y: f64, z: f64 },
    Over { station: Geodetic, least: Degrees },
    Unread,
}

fn fixed_from(station: Station) -> Place
    ensures { result ≡ fixed_from station }
{
    match station {
        Station::At { x, y, z } => Place::Fixed { x, y, z },
        Station::Unread => Place::Unread,
    }
}

fn over(latitude: f64, longitude: f64, height: f64, least: f64) -> Place
    ensures { result ≡ over latitude longitude height least }
{
    let station = Geodetic {
        latitude: Degrees(latitude),
        longitude: Degrees(longitude),
        height: Metres(height),
    };
    Place::Over {
        station,
        least: Degrees(least),
    }
}

// The three decimals behind the latitude are longitude, height and least elevation.
fn geodetic_from(latitude: Decimal, behind: Station) -> Place
    ensures { result ≡ geodetic_from latitude behind }
{
    if latitude.good {
        return match behind {
            Station::At { x, y, z } => over(latitude.value, x, y, z),
            Station::Unread => Place::Unread,
        };
    }
    Place::Unread
}

fn read_geodetic(words: &[u8]) -> Place
    ensures { result ≡ geodetic_of words.now }
{
    let n = cut_at(words, b' ');
    let from = after(words, n);
    let latitude = read_decimal(&words[..n]);
    let behind = read_station(&words[from..]);
    geodetic_from(latitude, behind)
}

fn read_fixed(line: &[u8]) -> Place
    ensures { result ≡ fixed_from (station_of line.now) }
{
    fixed_from(read_station(line))
}

pub fn read_place(line: &[u8]) -> Place
    ensures { result ≡ place_of line.now }
{
    if begins(line, b"geodetic ") {
        return read_geodetic(&line[9..]);
    }
    read_fixed(line)
}

// ---- The call.

#[derive(Clone, Copy)]
pub struct Call {
    pub place: Place,
    pub start: Option<Instant>,
    pub step: Whole,
    pub count: Whole,
}

pub fn read_call(place: &[u8], start: &[u8], step: &[u8], count: &[u8]) -> Call
    ensures { result ≡ call_of place.now start.now step.now count.now }
{
    let place = read_place(place);
    let start = read_start(start);
    let step = read_whole(step);
    let count = read_whole(count);
    Call {
        place,
        start,
        step,
        count,
    }
}

// So many samples from a start on, a step of seconds apart.
#[derive(Clone, Copy)]
pub struct Samples {
    pub start: Instant,
    pub step: u64,
    pub count: u64,
}

fn samples_from(start: Option<Instant>, step: Whole, count: Whole) -> Option<Samples>
    ensures { result ≡ samples_from start step count }
{
    if step.good & count.good {
        return match start {
            Some(t) => Some(Samples {
                start: t,
                step: step.value,
                count: count.value,
            }),
            None => None,
        };
    }
    None
}

pub fn samples_of(call: Call) -> Option<Samples>
    ensures { result ≡ samples_of call }
{
    let start = call.start;
    let step = call.step;
    let count = call.count;
    samples_from(start, step, count)
}

// ---- Bad lines, each named by its number, with what it is not.

fn put_place_fault(out: &mut [u8], at: usize, place: Place) -> usize
    ensures { Put out.old at (place_fault place) out.new result }
{
    match place {
        Place::Fixed { x, y, z } => put_bytes(out, at, b""),
        Place::Over { station, least } => put_bytes(out, at, b""),
        Place::Unread => put_bytes(out, at, b"line 3: no station\n"),
    }
}

fn put_start_fault(out: &mut [u8], at: usize, start: Option<Instant>) -> usize
    ensures { Put out.old at (start_fault start) out.new result }
{
    match start {
        Some(_) => put_bytes(out, at, b""),
        None => put_bytes(out, at, b"line 4: no start\n"),
    }
}

fn put_whole_fault(out: &mut [u8], at: usize, n: Whole, fault: &[u8]) -> usize
    ensures { Put out.old at (whole_fault n fault.now) out.new result }
{
    if n.good {
        return put_bytes(out, at, b"");
    }
    put_bytes(out, at, fault)
}

// Nothing where every line has its form.
pub fn put_faults(out: &mut [u8], at: usize, call: Call) -> usize
    ensures { Put out.old at (faults_text call) out.new result }
{
    let place = call.place;
    let start = call.start;
    let step = call.step;
    let count = call.count;
    let p = put_place_fault(out, at, place);
    let p = put_start_fault(out, p, start);
    let p = put_whole_fault(out, p, step, b"line 5: no step\n");
    put_whole_fault(out, p, count, b"line 6: no number of samples\n")
}
