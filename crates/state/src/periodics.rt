// 002's sgp4: the long- and short-period terms.
ghost use Rattle.std.specs.Prelude.{◌≡◌};
ghost use Rattle.state.specs.Ahead as W;
ghost use Rattle.state.specs.Periodics as P;

use crate::parts::{Ahead, Anomaly, InPlane, Latus, Long, Perturbed, Plane, Short};
use elementary::{atan2, rem_turn, sin_cos, sqrt};
use satellite::Terms;
use wgs72::{J2, xke};

pub fn long_period(p: Perturbed, am: f64, k: Terms) -> Long
    ensures { result ≡ P.long_period p am k }
{
    let w = sin_cos(p.argpp);
    let axnl = p.ep * w.cos;
    let temp = 1.0 / (am * (1.0 - p.ep * p.ep));
    let aynl = p.ep * w.sin + temp * k.aycof;
    let xl = p.mp + p.argpp + p.nodep + temp * k.xlcof * axnl;
    let u = rem_turn(xl - p.nodep);
    Long { axnl, aynl, u }
}

pub fn latus(q: Long, am: f64) -> Latus
    ensures { result ≡ P.latus q am }
{
    let el2 = q.axnl * q.axnl + q.aynl * q.aynl;
    Latus {
        el2,
        pl: am * (1.0 - el2),
    }
}

// What does not wait for Kepler's equation. The root of am serves nm and the radial velocity.
pub fn ahead(am: f64, l: Latus) -> Ahead
    ensures { result ≡ W.ahead_of am l }
{
    let root = sqrt(am);
    let nm = xke() / (am * root);
    let rootpl = sqrt(l.pl);
    let betal = sqrt(1.0 - l.el2);
    Ahead {
        root,
        nm,
        rootpl,
        betal,
    }
}

// Refusal 13.
pub fn negative_latus(l: Latus) -> bool
    ensures { result ≡ P.negative_latus l }
{
    l.pl < 0.0
}

// Up to the arctangent.
pub fn in_plane(q: Long, e: Anomaly, am: f64, a: Ahead) -> InPlane
    ensures { result ≡ W.in_plane q e am a }
{
    let ecose = q.axnl * e.coseo1 + q.aynl * e.sineo1;
    let esine = q.axnl * e.sineo1 - q.aynl * e.coseo1;
    let rl = am * (1.0 - ecose);
    let rdotl = a.root * esine / rl;
    let rvdotl = a.rootpl / rl;
    let temp = esine / (1.0 + a.betal);
    let sinu = am / rl * (e.sineo1 - q.aynl - q.axnl * temp);
    let cosu = am / rl * (e.coseo1 - q.axnl + q.aynl * temp);
    InPlane {
        rl,
        rdotl,
        rvdotl,
        sinu,
        cosu,
    }
}

// From the arctangent on.
pub fn plane_of(i: InPlane, su: f64, l: Latus, betal: f64) -> Plane
    ensures { result ≡ W.plane_of i su l betal }
{
    let sin2u = (i.cosu + i.cosu) * i.sinu;
    let cos2u = 1.0 - 2.0 * i.sinu * i.sinu;
    let temp = 1.0 / l.pl;
    let temp1 = 0.5 * J2 * temp;
    Plane {
        rl: i.rl,
        rdotl: i.rdotl,
        rvdotl: i.rvdotl,
        betal,
        su,
        sin2u,
        cos2u,
        temp1,
        temp2: temp1 * temp,
    }
}

pub fn plane(q: Long, e: Anomaly, am: f64, l: Latus, a: Ahead) -> Plane
    ensures { result ≡ W.plane_from q e am l a }
{
    let i = in_plane(q, e, am, a);
    let su = atan2(i.sinu, i.cosu);
    plane_of(i, su, l, a.betal)
}

pub fn short_period(p: Perturbed, nm: f64, k: Terms, l: Plane) -> Short
    ensures { result ≡ P.short_period p nm k l }
{
    let mrt = l.rl * (1.0 - 1.5 * l.temp2 * l.betal * k.con41) + 0.5 * l.temp1 * k.x1mth2 * l.cos2u;
    let su = l.su - 0.25 * l.temp2 * k.x7thm1 * l.sin2u;
    let xnode = p.nodep + 1.5 * l.temp2 * p.cosip * l.sin2u;
    let xinc = p.xincp + 1.5 * l.temp2 * p.cosip * p.sinip * l.cos2u;
    let mvt = l.rdotl - nm * l.temp1 * k.x1mth2 * l.sin2u / xke();
    let rvdot = l.rvdotl + nm * l.temp1 * (k.x1mth2 * l.cos2u + 1.5 * k.con41) / xke();
    Short {
        mrt,
        su,
        xnode,
        xinc,
        mvt,
        rvdot,
    }
}

// Refusal 14.
pub fn decayed(s: Short) -> bool
    ensures { result ≡ P.decayed s }
{
    s.mrt < 1.0
}
