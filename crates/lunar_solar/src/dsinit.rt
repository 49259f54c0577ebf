// The secular rates of 002's dsinit.
ghost use Rattle.std.specs.Prelude.{◌≡◌};
ghost use Rattle.lunar_solar.specs.Dsinit as D;

use crate::dscom::{Angles, Common, Pass};
use instant::Radians;
use satellite::SecularRates;

const PI: f64 = 3.141592653589793;

// One body's share of the rates.
#[derive(Clone, Copy)]
pub struct BodyRates {
    pub e: f64,
    pub i: f64,
    pub l: f64,
    pub gh: f64,
    pub h: f64,
}

fn rates_of(p: Pass, emsq: f64, zn: f64, zl: f64) -> BodyRates
    ensures { result ≡ D.rates_of p emsq zn zl }
{
    BodyRates {
        e: p.s.s1 * zn * p.s.s5,
        i: p.s.s2 * zn * (p.z.z11 + p.z.z13),
        l: zl * p.s.s3 * (p.z.z1 + p.z.z3 - 14.0 - 6.0 * emsq),
        gh: p.s.s4 * zn * (p.z.z31 + p.z.z33 - 6.0),
        h: -zn * p.s.s2 * (p.z.z21 + p.z.z23),
    }
}

fn guarded(inclm: f64, sh: f64) -> f64
    ensures { result ≡ D.guarded_of inclm sh }
{
    if (inclm < 5.2359877e-2) | (inclm > PI - 5.2359877e-2) {
        return 0.0;
    }
    sh
}

fn joined(s: BodyRates, m: BodyRates, shs: f64, shll: f64, o: Angles) -> SecularRates
    ensures { result ≡ D.joined_of s m shs shll o }
{
    let sinim = o.sinim;
    let cosim = o.cosim;
    let sghs = s.gh;
    let sghl = m.gh;
    let dedt = s.e + m.e;
    let didt = s.i + m.i;
    let dmdt = s.l - m.l;
    if sinim != 0.0 {
        let shs = shs / sinim;
        let sgs = sghs - cosim * shs;
        return SecularRates {
            dedt,
            didt,
            dmdt,
            dnodt: shs + shll / sinim,
            domdt: sgs + sghl - cosim / sinim * shll,
        };
    }
    let sgs = sghs - cosim * shs;
    SecularRates {
        dedt,
        didt,
        dmdt,
        dnodt: shs,
        domdt: sgs + sghl,
    }
}

// `inclm` is the inclination at the epoch.
pub fn secular_rates(c: Common, inclm: Radians) -> SecularRates
    ensures { result ≡ D.secular_of c inclm.0 }
{
    let sun = c.sun;
    let moon = c.moon;
    let o = c.angles;
    let emsq = c.shape.emsq;
    let s = rates_of(sun, emsq, 1.19459e-5, -1.19459e-5);
    let m = rates_of(moon, emsq, 1.5835218e-4, 1.5835218e-4);
    let shs = guarded(inclm.0, s.h);
    let shll = guarded(inclm.0, m.h);
    joined(s, m, shs, shll, o)
}
