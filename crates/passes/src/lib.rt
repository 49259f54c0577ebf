// The next pass of a satellite over a station: found among samples, its edges refined to the microsecond,
// its highest point to a millisecond. A caller goes on at the sample where a pass ended.
#![tactic(auto)]

ghost use Rattle.std.specs.Prelude.{◌≡◌, ◌≤◌};
ghost use Rattle.sightings.specs.Sightings.{seen_at};
ghost use Rattle.passes.specs.Samples as S;
ghost use Rattle.passes.specs.Passes as P;

use geodetic::{Geodetic, Site, on_earth, site_of};
use instant::{Degrees, Instant, to_radians};
use opening::opening::Satellite;
use pass_edges::{Best, edge, summit};
use sightings::seen_at;
use windows::Seconds;

// ---- Samples.

// A scan stops at the sample that is wanted, the next, or where the calendar ends. The last is the one before.
#[derive(Clone, Copy)]
pub struct Scan {
    pub stop: bool,
    pub found: bool,
    pub last: u64,
    pub next: u64,
    pub best: Best,
    pub satellite: Satellite,
}

// A scan and the samples left, the one that it stopped at among them.
#[derive(Clone, Copy)]
struct Scanned {
    left: u32,
    scan: Scan,
}

fn hits(least: f64, wanted: bool, sine: f64) -> bool
    ensures { result ≡ S.hits least wanted sine }
{
    if wanted {
        return sine > least;
    }
    !(sine > least)
}

fn higher(b: Best, t: u64, sine: f64) -> Best
    ensures { result ≡ S.higher b t sine }
{
    if sine > b.sine {
        return Best { at: t, sine };
    }
    b
}

fn begin(satellite: Satellite, t: u64) -> Scan
    ensures { result ≡ S.begin satellite t }
{
    Scan {
        stop: false,
        found: false,
        last: t,
        next: t,
        best: Best { at: t, sine: -1.0 },
        satellite,
    }
}

fn stopped(found: bool, x: Scan) -> Scan
    ensures { result ≡ S.stopped found x }
{
    Scan {
        stop: true,
        found,
        ..x
    }
}

fn passed(step: u64, x: Scan, sine: f64, satellite: Satellite) -> Scan
    requires { (x.next ≤ 3155760000000000) × (step ≤ 86400000000) }
    ensures { result ≡ S.passed step x (record { sine = sine; satellite = satellite }) }
{
    let t = x.next;
    let b = x.best;
    let best = higher(b, t, sine);
    Scan {
        stop: false,
        found: false,
        last: t,
        next: t + step,
        best,
        satellite,
    }
}

// One sample.
fn sampled(site: Site, least: f64, wanted: bool, step: u64, x: Scan) -> Scan
    requires { step ≤ 86400000000 }
    ensures { result ≡ S.sampled (seen_at site) least wanted step x }
{
    let t = x.next;
    if t >= 3155760000000000 {
        return stopped(false, x);
    }
    let satellite = x.satellite;
    let y = seen_at(satellite, site, Instant(t));
    if hits(least, wanted, y.sine) {
        return stopped(true, x);
    }
    let after = y.satellite;
    passed(step, x, y.sine, after)
}

// The samples from t on, to the first that is above or is not, as wanted.
fn scan_samples(
    satellite: Satellite,
    site: Site,
    least: f64,
    wanted: bool,
    step: u64,
    samples: u32,
    t: u64,
) -> Scanned
    requires { step ≤ 86400000000 }
    ensures left_value { result.left ≡ P.scans_left site least wanted step samples satellite t }
    ensures scan_value { result.scan ≡ P.scanned site least wanted step samples satellite t }
{
    let mut x = begin(satellite, t);
    for k in 0..samples {
        x = sampled(site, least, wanted, step, x);
        if x.stop {
            return Scanned {
                left: samples - k,
                scan: x,
            };
        }
    }
    Scanned { left: 0, scan: x }
}

// ---- The pass.

// Rise, highest point and set; whether it was above at the first sample, and at the last. The next call
// goes on at `next` with `left` samples.
#[derive(Clone, Copy)]
pub struct Pass {
    pub rise: Instant,
    pub highest: Instant,
    pub set: Instant,
    pub begun: bool,
    pub still: bool,
    pub next: Instant,
    pub left: u32,
}

// The instant of the sample that ended the pass, or of its last one.
fn after(x: Scan) -> u64
    ensures { result ≡ P.after x }
{
    if x.found {
        return x.next;
    }
    x.last
}

fn left_of(x: Scan, left: u32) -> u32
    ensures { result ≡ P.left_of x left }
{
    if x.found {
        return left;
    }
    0
}

// From the scan to the first sample above and the one from there to the first that is not.
fn pass_of(site: Site, least: f64, step: u64, up: Scan, down: Scan, left: u32) -> Pass
    ensures { result ≡ P.pass_of site least step up down left }
{
    let satellite = up.satellite;
    let best = down.best;
    let rise = edge(satellite, site, least, up.last, up.next);
    let set = edge(satellite, site, least, after(down), down.last);
    let highest = summit(satellite, site, best, rise, set, step);
    let left = left_of(down, left);
    Pass {
        rise: Instant(rise),
        highest: Instant(highest),
        set: Instant(set),
        begun: up.last == up.next,
        still: !down.found,
        next: Instant(down.next),
        left,
    }
}

fn search(
    satellite: Satellite,
    site: Site,
    least: f64,
    step: u64,
    samples: u32,
    t: u64,
) -> Result<Option<Pass>, u8>
    requires { step ≤ 86400000000 }
    ensures { result ≡ P.searched site least step samples satellite t }
{
    let first = scan_samples(satellite, site, least, true, step, samples, t);
    let up = first.scan;
    if up.found {
        let risen = up.satellite;
        let second = scan_samples(risen, site, least, false, step, first.left, up.next);
        let down = second.scan;
        return Ok(Some(pass_of(site, least, step, up, down, second.left)));
    }
    Ok(None)
}

// The refusal of a call, before any sample: 25 or 26, or 0.
pub fn pass_refusal(station: Geodetic, least: Degrees, step: Seconds) -> u8
    ensures { result ≡ P.pass_refusal station least.0 step.0 }
{
    let x = least.0;
    let seconds = step.0;
    if !(on_earth(station) & ((0.0 <= x) & (x <= 90.0))) {
        return 25;
    }
    if seconds == 0 {
        return 26;
    }
    if 86400 < seconds {
        return 26;
    }
    0
}

// The first pass above a least elevation among samples from the start on. The satellite is not changed.
pub fn next_pass(
    satellite: Satellite,
    station: Geodetic,
    least: Degrees,
    start: Instant,
    step: Seconds,
    samples: u32,
) -> Result<Option<Pass>, u8>
    ensures { result ≡ P.next_pass satellite station least.0 start.0 step.0 samples }
{
    let refusal = pass_refusal(station, least, step);
    if refusal != 0 {
        return Err(refusal);
    }
    let site = site_of(station);
    let sine = elementary::sin(to_radians(least).0);
    search(satellite, site, sine, step.0 * 1000000, samples, start.0)
}
