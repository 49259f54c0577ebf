// 002's sgp4: secular gravity and drag, and the mean elements.
ghost use Rattle.std.specs.Prelude.{◌≡◌};
ghost use Rattle.state.specs.Kept as K;
ghost use Rattle.state.specs.Secular as S;

use crate::parts::{Angles, Mean, Secular};
use elementary::{cos, rem_turn, sin};
use instant::Minutes;
use near_earth::powers::pow3;
use satellite::NearEarth;

fn gravity(s: NearEarth, t: f64) -> Secular
    ensures { result ≡ S.gravity s t }
{
    let xmdf = s.elements.mo + s.rates.mdot * t;
    let argpdf = s.elements.argpo + s.rates.argpdot * t;
    let nodedf = s.elements.nodeo + s.rates.nodedot * t;
    let t2 = t * t;
    Secular {
        argpm: argpdf,
        mm: xmdf,
        nodem: nodedf + s.rates.nodecf * t2,
        tempa: 1.0 - s.drag.cc1 * t,
        tempe: s.elements.bstar * s.drag.cc4 * t,
        templ: s.drag.t2cof * t2,
    }
}

fn delomg_delm(s: NearEarth, t: f64, cosxmdf: f64) -> f64
    ensures { result ≡ S.delomg_delm s t cosxmdf }
{
    let delomg = s.drag.omgcof * t;
    let delm = s.drag.xmcof * (pow3(1.0 + s.drag.eta * cosxmdf) - s.drag.delmo);
    delomg + delm
}

fn higher_drag(s: NearEarth, t: f64, g: Secular, temp: f64, mm: f64, sinmm: f64) -> Secular
    ensures { result ≡ S.higher_drag s t g temp mm sinmm }
{
    let t2 = t * t;
    let t3 = t2 * t;
    let t4 = t3 * t;
    let tempa = g.tempa - s.higher.d2 * t2 - s.higher.d3 * t3 - s.higher.d4 * t4;
    let tempe = g.tempe + s.elements.bstar * s.drag.cc5 * (sinmm - s.drag.sinmao);
    let templ = g.templ + s.higher.t3cof * t3 + t4 * (s.higher.t4cof + t * s.higher.t5cof);
    Secular {
        mm,
        argpm: g.argpm - temp,
        nodem: g.nodem,
        tempa,
        tempe,
        templ,
    }
}

fn dragged(s: NearEarth, t: f64, g: Secular) -> Secular
    ensures { result ≡ S.dragged s t g }
{
    let temp = delomg_delm(s, t, cos(g.mm));
    let mm = g.mm + temp;
    higher_drag(s, t, g, temp, mm, sin(mm))
}

pub fn secular(s: NearEarth, tsince: Minutes) -> Secular
    ensures { result ≡ S.secular s tsince }
{
    let t = tsince.0;
    let g = gravity(s, t);
    if s.isimp {
        return g;
    }
    dragged(s, t, g)
}

// Refusal 10.
pub fn no_motion(nm: f64) -> bool
    ensures { result ≡ S.no_motion nm }
{
    nm <= 0.0
}

// Of pow(xke / nm, x2o3) and em.
pub fn mean(a: f64, em: f64, g: Secular) -> Mean
    ensures { result ≡ K.mean_from a em g }
{
    Mean {
        am: a * g.tempa * g.tempa,
        em: em - g.tempe,
    }
}

// Refusal 11.
pub fn outside(m: Mean) -> bool
    ensures { result ≡ S.outside m }
{
    (m.em >= 1.0) | (m.em < -0.001) | (m.am < 0.95)
}

pub fn mended(em: f64) -> f64
    ensures { result ≡ S.mended em }
{
    if em < 0.0 { 1.0e-6 } else { em }
}

pub fn angles(no: f64, s: Secular) -> Angles
    ensures { result ≡ S.angles no s }
{
    let mm = s.mm + no * s.templ;
    let xlm = mm + s.argpm + s.nodem;
    let nodem = rem_turn(s.nodem);
    let argpm = rem_turn(s.argpm);
    let xlm = rem_turn(xlm);
    let mm = rem_turn(xlm - argpm - nodem);
    Angles { nodem, argpm, mm }
}
