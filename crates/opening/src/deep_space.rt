// 002's sgp4init: deep space initialization. Its call of dpper with init 'y' changes nothing.
ghost use Rattle.std.specs.Prelude.{◌≡◌};
ghost use Rattle.opening.specs.DeepSpace as D;
ghost use Rattle.opening.specs.Ahead as W;

use crate::ahead::Ahead;
use instant::{Days, Minutes, Radians};
use lunar_solar::dscom::{Common, dscom};
use lunar_solar::dsinit::secular_rates;
use resonance_terms::dsinit::{Epoch, Orbit, dsinit};
use satellite::{DeepSpace, NearEarth};

fn orbit(c: Common, ecco: f64, eccsq: f64) -> Orbit
    ensures { result ≡ D.orbit c ecco eccsq }
{
    Orbit {
        sinim: c.angles.sinim,
        cosim: c.angles.cosim,
        em: c.shape.em,
        emsq: c.shape.emsq,
        nm: c.shape.nm,
        ecco,
        eccsq,
    }
}

fn at_epoch(n: NearEarth, gsto: Radians) -> Epoch
    ensures { result ≡ D.at_epoch n (D.unchanged n) gsto.0 }
{
    Epoch {
        mo: n.elements.mo,
        nodeo: n.elements.nodeo,
        argpo: n.elements.argpo,
        no: n.elements.no,
        mdot: n.rates.mdot,
        nodedot: n.rates.nodedot,
        argpdot: n.rates.argpdot,
        xpidot: n.rates.argpdot + n.rates.nodedot,
        gsto: gsto.0,
    }
}

// Of the epoch in days, the Greenwich angle, the near-Earth part and eccsq.
pub fn deep_space(a: Ahead, epoch: Days, gsto: Radians, n: NearEarth, eccsq: f64) -> DeepSpace
    ensures { result ≡ W.deep_space_from a epoch.0 gsto.0 n eccsq }
{
    let angles = a.angles;
    let lunar = a.lunar;
    let tc = Minutes(0.0);
    let c = dscom(angles, lunar, epoch, n.elements.ecco, tc, n.elements.no);
    let rates = secular_rates(c, Radians(n.elements.inclo));
    let integrator = dsinit(
        orbit(c, n.elements.ecco, eccsq),
        a.aonv,
        at_epoch(n, gsto),
        rates,
        tc,
    );
    let periodics = c.periodics;
    DeepSpace {
        rates,
        periodics,
        integrator,
    }
}
