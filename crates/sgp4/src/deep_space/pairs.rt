// Two times at once under method 'd', as crate `state` has them for near Earth; it serves speed alone.
ghost use Rattle.std.specs.Prelude.{◌≡◌};
ghost use Rattle.sgp4.specs.Two as W;

use crate::deep_space::{anew, averages, handed, inclined, no_ellipse, righted, updated};
use elementary::{sin_cos, two_thirds};
use instant::Minutes;
use periodics::dpper::dpper;
use resonance::dspace::dspace_by;
use resonance::held::Held;
use satellite::{DeepSpace, LunarSolar, NearEarth};
use state::parts::{Mean, Ready, Secular};
use state::secular::{angles, mean, no_motion, outside, secular};
use wgs72::xke;

// What is known of a time once dspace is done: the time, and its mean elements.
#[derive(Clone, Copy)]
pub struct Drift {
    pub t: Minutes,
    pub inclm: f64,
    pub g: Secular,
    pub m: Mean,
}

fn perturbed_two(
    x: periodics::dpper::Perturbed,
    am: f64,
    x2: periodics::dpper::Perturbed,
    am2: f64,
) -> Option<(Ready, Ready)>
    ensures { result ≡ W.perturbed_two x am x2 am2 }
{
    if no_ellipse(x.ep) | no_ellipse(x2.ep) {
        return None;
    }
    let ip = sin_cos(x.inclp);
    let ip2 = sin_cos(x2.inclp);
    let p = inclined(x, ip.sin, ip.cos);
    let k = anew(ip.sin, ip.cos);
    let p2 = inclined(x2, ip2.sin, ip2.cos);
    let k2 = anew(ip2.sin, ip2.cos);
    Some((
        Ready { p, am, k },
        Ready {
            p: p2,
            am: am2,
            k: k2,
        },
    ))
}

fn averaged_two(ls: LunarSolar, n: f64, a: Drift, b: Drift) -> Option<(Ready, Ready)>
    ensures { result ≡ W.averaged_two ls n a b }
{
    let t = a.t;
    let g = a.g;
    let m = a.m;
    let t2 = b.t;
    let g2 = b.g;
    let m2 = b.m;
    if outside(m) | outside(m2) {
        return None;
    }
    let x = averages(m.em, a.inclm, angles(n, g));
    let x2 = averages(m2.em, b.inclm, angles(n, g2));
    let y = dpper(ls, t, x);
    let y2 = dpper(ls, t2, x2);
    perturbed_two(righted(y), m.am, righted(y2), m2.am)
}

fn moved_two(
    ls: LunarSolar,
    n: f64,
    t: Minutes,
    d: resonance::dspace::Mean,
    g: Secular,
    t2: Minutes,
    d2: resonance::dspace::Mean,
    g2: Secular,
) -> Option<(Ready, Ready)>
    ensures { result ≡ W.moved_two ls n t d g t2 d2 g2 }
{
    if no_motion(d.nm) | no_motion(d2.nm) {
        return None;
    }
    let a = two_thirds(xke() / d.nm);
    let a2 = two_thirds(xke() / d2.nm);
    let m = mean(a, d.em, g);
    let m2 = mean(a2, d2.em, g2);
    let first = Drift {
        t,
        inclm: d.inclm,
        g,
        m,
    };
    let second = Drift {
        t: t2,
        inclm: d2.inclm,
        g: g2,
        m: m2,
    };
    averaged_two(ls, n, first, second)
}

// The satellite at t and at t2, up to the long-period terms; `h` and `h2` are the positions of the
// whole strides that these need, with the derivatives there.
pub fn deep_two(
    s: NearEarth,
    d: DeepSpace,
    h: Held,
    t: Minutes,
    h2: Held,
    t2: Minutes,
) -> Option<(Ready, Ready)>
    ensures { result ≡ W.deep_two s d h t h2 t2 }
{
    let integrator = d.integrator;
    let rates = d.rates;
    let ls = d.periodics;
    let dots = h.dots;
    let p = h.place;
    let dots2 = h2.dots;
    let p2 = h2.place;
    let g = secular(s, t);
    let g2 = secular(s, t2);
    let e = dspace_by(dots, p, integrator, rates, handed(s, g), t);
    let e2 = dspace_by(dots2, p2, integrator, rates, handed(s, g2), t2);
    let u = updated(g, e);
    let u2 = updated(g2, e2);
    moved_two(ls, s.elements.no, t, e, u, t2, e2, u2)
}
