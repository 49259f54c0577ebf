// 002's sgp4 for a deep-space satellite: dspace and dpper between the steps that near Earth has too.
ghost use Rattle.std.specs.Prelude.{◌≡◌};
ghost use Rattle.sgp4.specs.DeepSpace as D;

use elementary::{sin_cos, two_thirds};
use instant::Minutes;
use near_earth::sgp4init::{aycof, xlcof};
use periodics::dpper::dpper;
use resonance::dspace::dspace;
use resonance::place::Place;
use satellite::{DeepSpace, LunarSolar, NearEarth, Terms};
use state::answer::{Answer, Refusal};
use state::parts::{Angles, Mean, Perturbed, Secular};
use state::secular::{angles, mean, mended, no_motion, outside, secular};
use state::sgp4::periodics;
use wgs72::xke;

pub mod pairs;

const PI: f64 = 3.141592653589793;

// The mean elements that dspace is handed.
fn handed(s: NearEarth, g: Secular) -> resonance::dspace::Mean
    ensures { result ≡ D.handed s g }
{
    resonance::dspace::Mean {
        nm: s.elements.no,
        em: s.elements.ecco,
        inclm: s.elements.inclo,
        argpm: g.argpm,
        nodem: g.nodem,
        mm: g.mm,
    }
}

// The angles that dspace gives, with the drag of before.
fn updated(g: Secular, d: resonance::dspace::Mean) -> Secular
    ensures { result ≡ D.updated g d }
{
    Secular {
        mm: d.mm,
        argpm: d.argpm,
        nodem: d.nodem,
        ..g
    }
}

// The mean elements that dpper is handed.
fn averages(em: f64, inclm: f64, a: Angles) -> periodics::dpper::Perturbed
    ensures { result ≡ D.averages em inclm a }
{
    let ep = mended(em);
    periodics::dpper::Perturbed {
        ep,
        inclp: inclm,
        nodep: a.nodem,
        argpp: a.argpm,
        mp: a.mm,
    }
}

// 002's turn of a negative perturbed inclination.
fn righted(x: periodics::dpper::Perturbed) -> periodics::dpper::Perturbed
    ensures { result ≡ D.righted x }
{
    if x.inclp < 0.0 {
        return periodics::dpper::Perturbed {
            inclp: -x.inclp,
            nodep: x.nodep + PI,
            argpp: x.argpp - PI,
            ..x
        };
    }
    x
}

// Refusal 12.
fn no_ellipse(ep: f64) -> bool
    ensures { result ≡ D.no_ellipse ep }
{
    (ep < 0.0) | (ep > 1.0)
}

fn inclined(x: periodics::dpper::Perturbed, sinip: f64, cosip: f64) -> Perturbed
    ensures { result ≡ D.inclined x sinip cosip }
{
    Perturbed {
        ep: x.ep,
        xincp: x.inclp,
        argpp: x.argpp,
        nodep: x.nodep,
        mp: x.mp,
        sinip,
        cosip,
    }
}

// Made anew from the perturbed inclination.
fn anew(sinip: f64, cosip: f64) -> Terms
    ensures { result ≡ D.anew sinip cosip }
{
    let xlcof = xlcof(sinip, cosip);
    let aycof = aycof(sinip);
    let cosisq = cosip * cosip;
    Terms {
        con41: 3.0 * cosisq - 1.0,
        x1mth2: 1.0 - cosisq,
        x7thm1: 7.0 * cosisq - 1.0,
        xlcof,
        aycof,
    }
}

fn perturbed(x: periodics::dpper::Perturbed, am: f64) -> Answer
    ensures { result ≡ D.perturbed x am }
{
    if no_ellipse(x.ep) {
        return Err(Refusal::Eccentricity);
    }
    let ip = sin_cos(x.inclp);
    periodics(inclined(x, ip.sin, ip.cos), am, anew(ip.sin, ip.cos))
}

fn averaged(ls: LunarSolar, t: Minutes, n: f64, inclm: f64, g: Secular, m: Mean) -> Answer
    ensures { result ≡ D.averaged ls t n inclm g m }
{
    if outside(m) {
        return Err(Refusal::MeanElements);
    }
    let x = averages(m.em, inclm, angles(n, g));
    perturbed(righted(dpper(ls, t, x)), m.am)
}

fn moved(ls: LunarSolar, t: Minutes, n: f64, d: resonance::dspace::Mean, g: Secular) -> Answer
    ensures { result ≡ D.moved ls t n d g }
{
    if no_motion(d.nm) {
        return Err(Refusal::MeanMotion);
    }
    let a = two_thirds(xke() / d.nm);
    averaged(ls, t, n, d.inclm, g, mean(a, d.em, g))
}

// The state at `t`; `p` is the position of the whole strides that `t` needs.
pub fn deep_space(s: NearEarth, d: DeepSpace, p: Place, t: Minutes) -> Answer
    ensures { result ≡ D.deep_space s d p t }
{
    let integrator = d.integrator;
    let rates = d.rates;
    let ls = d.periodics;
    let g = secular(s, t);
    let e = dspace(p, integrator, rates, handed(s, g), t);
    moved(ls, t, s.elements.no, e, updated(g, e))
}
