// A satellite at an instant, as a station sees it: a single request, and its position in the station's
// directions. Where there is no position it stands straight down.
#![tactic(auto)]

ghost use Rattle.std.specs.Prelude.{◌≡◌};
ghost use Rattle.sightings.specs.Sightings as S;

use geodetic::Site;
use horizon::{Look, look_angles, straight_down};
use instant::{Instant, Microseconds, since};
use opening::opening::Satellite;
use requests::request;
use sgp4::Row;

// The sine of the elevation, with the satellite to be handed to the next.
#[derive(Clone, Copy)]
pub struct Seen {
    pub sine: f64,
    pub satellite: Satellite,
}

fn row_sine(site: Site, t: Instant, row: Row) -> f64
    ensures { result ≡ S.row_sine site t.0 row }
{
    if row.refusal != 0 {
        return -1.0;
    }
    horizon::sine(site, t, [row.x, row.y, row.z])
}

fn seen_since(satellite: Satellite, site: Site, t: Instant, time: Microseconds) -> Seen
    ensures { result ≡ S.seen_after site satellite t.0 time.0 }
{
    let a = request(satellite, time);
    let row = a.row;
    let after = a.satellite;
    let sine = row_sine(site, t, row);
    Seen {
        sine,
        satellite: after,
    }
}

pub fn seen_at(satellite: Satellite, site: Site, t: Instant) -> Seen
    ensures { result ≡ S.seen_at site satellite t.0 }
{
    let epoch = satellite.model.epoch;
    let elapsed = since(t, epoch);
    match elapsed {
        Some(time) => seen_since(satellite, site, t, time),
        None => Seen {
            sine: -1.0,
            satellite,
        },
    }
}

fn row_sighting(site: Site, t: Instant, row: Row) -> Result<Look, u8>
    ensures { result ≡ S.row_sighting site t.0 row }
{
    let refusal = row.refusal;
    if refusal != 0 {
        return Err(refusal);
    }
    Ok(look_angles(site, t, [row.x, row.y, row.z]))
}

fn sighted_since(
    satellite: Satellite,
    site: Site,
    t: Instant,
    time: Microseconds,
) -> Result<Look, u8>
    ensures { result ≡ S.sighted_after site satellite t.0 time.0 }
{
    let a = request(satellite, time);
    let row = a.row;
    row_sighting(site, t, row)
}

// A satellite at an instant. It is not changed.
pub fn sighted(satellite: Satellite, site: Site, t: Instant) -> Result<Look, u8>
    ensures { result ≡ S.sighted_at site satellite t.0 }
{
    let epoch = satellite.model.epoch;
    let elapsed = since(t, epoch);
    match elapsed {
        Some(time) => sighted_since(satellite, site, t, time),
        None => Err(6),
    }
}

// Azimuth, elevation and range of a satellite at an instant.
pub fn look_at(satellite: Satellite, site: Site, t: Instant) -> Look
    ensures { result ≡ S.look_at site satellite t.0 }
{
    let seen = sighted(satellite, site, t);
    match seen {
        Ok(look) => look,
        Err(_) => straight_down(),
    }
}
