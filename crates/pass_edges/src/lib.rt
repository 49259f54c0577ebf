// The edges of a pass, refined by halving to the microsecond, and its highest point, by thirds to a
// millisecond.
#![tactic(auto)]

ghost use Rattle.std.specs.Prelude.{◌≡◌, ◌+◌, ◌-◌, max, min};
ghost use Rattle.pass_edges.specs.Search as S;

use geodetic::Site;
use instant::Instant;
use opening::opening::Satellite;
use sightings::seen_at;

// The highest sample so far.
#[derive(Clone, Copy)]
pub struct Best {
    pub at: u64,
    pub sine: f64,
}

// ---- An edge.

fn above(satellite: Satellite, site: Site, least: f64, t: u64) -> bool
    ensures { result ≡ S.above_at site least satellite t }
{
    let y = seen_at(satellite, site, Instant(t));
    y.sine > least
}

// An instant that is not above, and one that is; either may come first.
#[derive(Clone, Copy)]
pub struct Ends {
    pub below: u64,
    pub above: u64,
}

fn halved(satellite: Satellite, site: Site, least: f64, e: Ends) -> Ends
    ensures { result ≡ S.halved (S.above_at site least satellite) e }
{
    let m = e.below.midpoint(e.above);
    if above(satellite, site, least, m) {
        return Ends { above: m, ..e };
    }
    Ends { below: m, ..e }
}

fn neighbours(e: Ends) -> bool
    ensures { result ≡ S.neighbours e }
{
    e.below.abs_diff(e.above) <= 1
}

// The instant above that has one not above beside it.
pub fn edge(satellite: Satellite, site: Site, least: f64, below: u64, above: u64) -> u64
    ensures { result ≡ S.edge (S.above_at site least satellite) below above }
{
    let mut e = Ends { below, above };
    for _ in 0..37u8 {
        e = halved(satellite, site, least, e);
        if neighbours(e) {
            return e.above;
        }
    }
    e.above
}

// ---- The highest point.

#[derive(Clone, Copy)]
pub struct Bracket {
    pub lo: u64,
    pub hi: u64,
}

fn width(b: Bracket) -> u64
    ensures { result ≡ b.hi - b.lo }
{
    b.hi.saturating_sub(b.lo)
}

fn sine_at(satellite: Satellite, site: Site, t: u64) -> f64
    ensures { result ≡ S.sine_at site satellite t }
{
    let y = seen_at(satellite, site, Instant(t));
    y.sine
}

fn thirds(satellite: Satellite, site: Site, b: Bracket) -> Bracket
    ensures { result ≡ S.thirds (S.sine_at site satellite) b }
{
    let lo = b.lo;
    let hi = b.hi;
    let w = width(b) / 3;
    let p = lo + w;
    let q = hi - w;
    let first = sine_at(satellite, site, p);
    let second = sine_at(satellite, site, q);
    if second > first {
        return Bracket { lo: p, hi };
    }
    Bracket { lo, hi: q }
}

fn narrow(b: Bracket) -> bool
    ensures { result ≡ S.narrow b }
{
    width(b) <= 1000
}

fn centre(b: Bracket) -> u64
    ensures { result ≡ S.centre b }
{
    let lo = b.lo;
    lo + width(b) / 2
}

fn climbed(satellite: Satellite, site: Site, lo: u64, hi: u64) -> u64
    ensures { result ≡ S.climbed (S.sine_at site satellite) lo hi }
{
    let mut b = Bracket { lo, hi };
    for _ in 0..64u8 {
        b = thirds(satellite, site, b);
        if narrow(b) {
            return centre(b);
        }
    }
    centre(b)
}

// A step before an instant, but not before the least.
fn earlier(least: u64, t: u64, step: u64) -> u64
    ensures { result ≡ max least (t - step) }
{
    t.saturating_sub(step).max(least)
}

// A step after an instant, but not after the most.
fn later(most: u64, t: u64, step: u64) -> u64
    ensures { result ≡ min most (t + step) }
{
    t.saturating_add(step).min(most)
}

// The highest point of a pass from rise to set, whose highest sample is known.
pub fn summit(satellite: Satellite, site: Site, b: Best, rise: u64, set: u64, step: u64) -> u64
    ensures { result ≡ S.summit (S.sine_at site satellite) b rise set step }
{
    let at = b.at;
    let lo = earlier(rise, at, step);
    let hi = later(set, at, step);
    let m = climbed(satellite, site, lo, hi);
    let sine = sine_at(satellite, site, m);
    if sine > b.sine {
        return m;
    }
    at
}
