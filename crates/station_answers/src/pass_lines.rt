// The passes of a satellite over a station as lines, and one after the other on standard output. As in
// streams, a failure stays marked.
ghost use Rattle.std.specs.Prelude.{◌≡◌, true};
ghost use Rattle.text.specs.Output.{Put};
ghost use Rattle.station_answers.specs.Print.{found_text, passing_text};

use geodetic::{Geodetic, site_of};
use instant::{Degrees, Instant};
use opening::opening::Satellite;
use pass_text::put_pass;
use passes::{Pass, next_pass};
use sightings::look_at;
use text::put_line;
use windows::Seconds;

// The line of a pass: when it rises and sets and in which direction, when it is highest and how high.
pub fn put_found(
    out: &mut [u8],
    at: usize,
    satellite: Satellite,
    station: Geodetic,
    p: Pass,
) -> usize
    ensures { Put out.old at (found_text satellite station p) out.new result }
{
    let site = site_of(station);
    let rise = p.rise;
    let highest = p.highest;
    let set = p.set;
    let first = look_at(satellite, site, rise);
    let top = look_at(satellite, site, highest);
    let last = look_at(satellite, site, set);
    let from = first.azimuth;
    let elevation = top.elevation;
    let to = last.azimuth;
    put_pass(
        out, at, p.begun, rise, from, highest, elevation, p.still, set, to,
    )
}

// The line of an answer behind so many passes: the last one tells how many there were.
pub fn put_passing(
    out: &mut [u8],
    at: usize,
    satellite: Satellite,
    station: Geodetic,
    count: u64,
    found: Result<Option<Pass>, u8>,
) -> usize
    ensures { Put out.old at (passing_text satellite station count found) out.new result }
{
    match found {
        Ok(passing) => match passing {
            Some(p) => put_found(out, at, satellite, station, p),
            None => put_line(out, at, b"passes ", count),
        },
        Err(n) => put_line(out, at, b"refused ", n as u64),
    }
}

fn print_passing(
    rt: HostRuntime,
    failed: &mut bool,
    satellite: Satellite,
    station: Geodetic,
    count: u64,
    found: Result<Option<Pass>, u8>,
)
    ensures { failed.old ≡ true → failed.new ≡ true }
{
    let mut out = [0u8; 256];
    let n = put_passing(&mut out, 0, satellite, station, count, found);
    streams::print_room(rt, failed, &out, n);
}

// One pass after the other on standard output. Each has a sample at least, so that there are no more than
// samples.
pub fn print_passes(
    rt: HostRuntime,
    failed: &mut bool,
    satellite: Satellite,
    station: Geodetic,
    least: Degrees,
    start: u64,
    step: u64,
    samples: u32,
)
    ensures { failed.old ≡ true → failed.new ≡ true }
{
    let mut t = start;
    let mut left = samples;
    for count in 0..4294967295 {
        let found = next_pass(satellite, station, least, Instant(t), Seconds(step), left);
        print_passing(rt, failed, satellite, station, count, found);
        if *failed {
            return;
        }
        let Ok(Some(p)) = found else {
            return;
        };
        t = p.next.0;
        left = p.left;
    }
}
