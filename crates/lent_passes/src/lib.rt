// The next pass of a satellite in memory that a caller lends, and where it stands at an instant: the
// functions behind `saddlekerf_next_pass` and `saddlekerf_look`. The satellite's memory is lent for reading
// alone.
#![tactic(auto)]

ghost use Rattle.std.specs.Prelude.{◌≡◌, ◌≤◌, length, Err, Ok, Some};
ghost use Rattle.passes.specs.Passes.{pass_refusal};
ghost use Rattle.requests.specs.Lists.{over};
ghost use Rattle.lent_passes.specs.Passes as P;
ghost use Rattle.lent_passes.specs.Looks as L;

use answers::answer;
use geodetic::{Geodetic, Metres, on_earth, site_of};
use horizon::Look;
use instant::{Degrees, Instant};
use lent_windows::element;
use passes::{Pass, next_pass, pass_refusal};
use sightings::sighted;
use storage::load;
use windows::Seconds;

// The first three elements of a lent station.
fn geodetic_of(station: &[f64]) -> Geodetic
    ensures { result ≡ P.geodetic_of station.now }
{
    let latitude = element(station, 0);
    let longitude = element(station, 1);
    let height = element(station, 2);
    Geodetic {
        latitude: Degrees(latitude),
        longitude: Degrees(longitude),
        height: Metres(height),
    }
}

// ---- The next pass.

// 25 or 26, or 17.
fn short_call(g: Geodetic, least: Degrees, step: Seconds) -> Result<Option<Pass>, u8>
    ensures { result ≡ Err (P.or_room (pass_refusal g least.0 step.0)) }
{
    let refusal = pass_refusal(g, least, step);
    if refusal != 0 {
        return Err(refusal);
    }
    Err(17)
}

fn passing_held(
    numbers: &[f64],
    marks: &[u32],
    station: &[f64],
    start: u64,
    step: u64,
    samples: u32,
    room: usize,
) -> Result<Option<Pass>, u8>
    ensures { result ≡ P.passing_held numbers.now marks.now station.now start step samples room }
{
    let g = geodetic_of(station);
    let least = element(station, 3);
    if room < 4 {
        return short_call(g, Degrees(least), Seconds(step));
    }
    match load(numbers, marks) {
        Some(s) => { next_pass(s, g, Degrees(least), Instant(start), Seconds(step), samples) }
        None => short_call(g, Degrees(least), Seconds(step)),
    }
}

fn put_pass(p: Pass, out: &mut [u64]) -> u64
    requires { 4 ≤ length out.old }
    ensures value { result ≡ P.pass_answer (Ok (Some p)) }
    ensures out_after { out.new ≡ over (P.pass_instants (Ok (Some p))) out.old }
{
    let begun = u16::from(p.begun);
    let still = u16::from(p.still);
    let rise = p.rise;
    let highest = p.highest;
    let set = p.set;
    let next = p.next;
    out[0] = rise.0;
    out[1] = highest.0;
    out[2] = set.0;
    out[3] = next.0;
    answer(0, 0, 1 + 2 * begun + 4 * still, p.left)
}

// The next pass of the satellite in memory over a station (latitude and longitude in degrees, height in
// metres, least elevation in degrees).
pub fn next_pass_held(
    numbers: &[f64],
    marks: &[u32],
    station: &[f64],
    start: u64,
    step: u64,
    samples: u32,
    pass: &mut [u64],
) -> u64
    ensures value { result ≡ P.pass_answer (P.passing_held numbers.now marks.now station.now start step samples (length pass.old)) }
    ensures pass_after { pass.new ≡ over (P.pass_instants (P.passing_held numbers.now marks.now station.now start step samples (length pass.old))) pass.old }
{
    let room = pass.len();
    match passing_held(numbers, marks, station, start, step, samples, room) {
        Ok(found) => match found {
            Some(p) => put_pass(p, pass),
            None => answer(0, 0, 0, 0),
        },
        Err(n) => answer(n, 0, 0, 0),
    }
}

// ---- Azimuth, elevation and range.

fn sighting_held(
    numbers: &[f64],
    marks: &[u32],
    station: &[f64],
    instant: u64,
    room: usize,
) -> Result<Look, u8>
    ensures { result ≡ L.sighting_held numbers.now marks.now station.now instant room }
{
    let g = geodetic_of(station);
    if !on_earth(g) {
        return Err(25);
    }
    if room < 3 {
        return Err(17);
    }
    match load(numbers, marks) {
        Some(s) => sighted(s, site_of(g), Instant(instant)),
        None => Err(17),
    }
}

fn put_look(look: Look, out: &mut [f64]) -> u64
    requires { 3 ≤ length out.old }
    ensures value { result ≡ L.look_answer (Ok look) }
    ensures out_after { out.new ≡ over (L.look_numbers (Ok look)) out.old }
{
    let azimuth = look.azimuth;
    let elevation = look.elevation;
    out[0] = azimuth.0;
    out[1] = elevation.0;
    out[2] = look.range;
    answer(0, 0, 0, 0)
}

// Where the satellite in memory stands at an instant, seen from a station (latitude and longitude in
// degrees, height in metres).
pub fn look_held(
    numbers: &[f64],
    marks: &[u32],
    station: &[f64],
    instant: u64,
    look: &mut [f64],
) -> u64
    ensures value { result ≡ L.look_answer (L.sighting_held numbers.now marks.now station.now instant (length look.old)) }
    ensures look_after { look.new ≡ over (L.look_numbers (L.sighting_held numbers.now marks.now station.now instant (length look.old))) look.old }
{
    let room = look.len();
    match sighting_held(numbers, marks, station, instant, room) {
        Ok(l) => put_look(l, look),
        Err(n) => answer(n, 0, 0, 0),
    }
}
