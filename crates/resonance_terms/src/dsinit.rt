// The resonance part of 002's dsinit: the kind, its coefficients, and what the integration starts with.
ghost use Rattle.std.specs.Prelude.{◌≡◌};
ghost use Rattle.resonance_terms.specs.Dsinit as D;
ghost use Rattle.resonance_terms.specs.Ahead as W;

use instant::{Minutes, Radians};
use satellite::{HalfDay, Integrator, OneDay, Resonance, SecularRates};

// 002's rptim, the Earth's turning in rad/min.
const RPTIM: f64 = 4.37526908801129966e-3;

// What the coefficients rest on, as dscom leaves it; ecco and eccsq are the record's.
#[derive(Clone, Copy)]
pub struct Orbit {
    pub sinim: f64,
    pub cosim: f64,
    pub em: f64,
    pub emsq: f64,
    pub nm: f64,
    pub ecco: f64,
    pub eccsq: f64,
}

// The elements and rates at the epoch.
#[derive(Clone, Copy)]
pub struct Epoch {
    pub mo: f64,
    pub nodeo: f64,
    pub argpo: f64,
    pub no: f64,
    pub mdot: f64,
    pub nodedot: f64,
    pub argpdot: f64,
    pub xpidot: f64,
    pub gsto: f64,
}

#[derive(Clone, Copy)]
pub struct Start {
    pub xlamo: f64,
    pub xfact: f64,
}

#[derive(Clone, Copy)]
pub struct Low {
    pub g211: f64,
    pub g310: f64,
    pub g322: f64,
    pub g410: f64,
    pub g422: f64,
    pub g520: f64,
}

#[derive(Clone, Copy)]
pub struct High {
    pub g533: f64,
    pub g521: f64,
    pub g532: f64,
}

#[derive(Clone, Copy)]
pub struct Inclined {
    pub f220: f64,
    pub f221: f64,
    pub f321: f64,
    pub f322: f64,
    pub f441: f64,
    pub f442: f64,
    pub f522: f64,
    pub f523: f64,
    pub f542: f64,
    pub f543: f64,
}

// 002's irez 1.
fn is_one_day(nm: f64) -> bool
    ensures { result ≡ D.one_day nm }
{
    (nm < 0.0052359877) & (nm > 0.0034906585)
}

// 002's irez 2.
fn is_half_day(nm: f64, em: f64) -> bool
    ensures { result ≡ D.half_day nm em }
{
    (nm >= 8.26e-3) & (nm <= 9.24e-3) & (em >= 0.5)
}

fn one_day_of(o: Orbit, aonv: f64) -> OneDay
    ensures { result ≡ D.one_day_of o aonv }
{
    let emsq = o.emsq;
    let g200 = 1.0 + emsq * (-2.5 + 0.8125 * emsq);
    let g310 = 1.0 + 2.0 * emsq;
    let g300 = 1.0 + emsq * (-6.0 + 6.60937 * emsq);
    let f220 = 0.75 * (1.0 + o.cosim) * (1.0 + o.cosim);
    let f311 = 0.9375 * o.sinim * o.sinim * (1.0 + 3.0 * o.cosim) - 0.75 * (1.0 + o.cosim);
    let f330 = 1.0 + o.cosim;
    let f330 = 1.875 * f330 * f330 * f330;
    let del1 = 3.0 * o.nm * o.nm * aonv * aonv;
    OneDay {
        del1: del1 * f311 * g310 * 2.1460748e-6 * aonv,
        del2: 2.0 * del1 * f220 * g200 * 1.7891679e-6,
        del3: 3.0 * del1 * f330 * g300 * 2.2123015e-7 * aonv,
    }
}

fn g520_of(em: f64, emsq: f64, eoc: f64) -> f64
    ensures { result ≡ D.g520_of em emsq eoc }
{
    if em > 0.715 {
        return -5149.66 + 29936.92 * em - 54087.36 * emsq + 31324.56 * eoc;
    }
    1464.74 - 4664.75 * em + 3763.64 * emsq
}

fn low_of(em: f64, emsq: f64, eoc: f64) -> Low
    ensures { result ≡ D.low_of em emsq eoc }
{
    let g520 = g520_of(em, emsq, eoc);
    if em <= 0.65 {
        return Low {
            g211: 3.616 - 13.2470 * em + 16.2900 * emsq,
            g310: -19.302 + 117.3900 * em - 228.4190 * emsq + 156.5910 * eoc,
            g322: -18.9068 + 109.7927 * em - 214.6334 * emsq + 146.5816 * eoc,
            g410: -41.122 + 242.6940 * em - 471.0940 * emsq + 313.9530 * eoc,
            g422: -146.407 + 841.8800 * em - 1629.014 * emsq + 1083.4350 * eoc,
            g520: -532.114 + 3017.977 * em - 5740.032 * emsq + 3708.2760 * eoc,
        };
    }
    Low {
        g211: -72.099 + 331.819 * em - 508.738 * emsq + 266.724 * eoc,
        g310: -346.844 + 1582.851 * em - 2415.925 * emsq + 1246.113 * eoc,
        g322: -342.585 + 1554.908 * em - 2366.899 * emsq + 1215.972 * eoc,
        g410: -1052.797 + 4758.686 * em - 7193.992 * emsq + 3651.957 * eoc,
        g422: -3581.690 + 16178.110 * em - 24462.770 * emsq + 12422.520 * eoc,
        g520,
    }
}

fn high_of(em: f64, emsq: f64, eoc: f64) -> High
    ensures { result ≡ D.high_of em emsq eoc }
{
    if em < 0.7 {
        return High {
            g533: -919.22770 + 4988.6100 * em - 9064.7700 * emsq + 5542.21 * eoc,
            g521: -822.71072 + 4568.6173 * em - 8491.4146 * emsq + 5337.524 * eoc,
            g532: -853.66600 + 4690.2500 * em - 8624.7700 * emsq + 5341.4 * eoc,
        };
    }
    High {
        g533: -37995.780 + 161616.52 * em - 229838.20 * emsq + 109377.94 * eoc,
        g521: -51752.104 + 218913.95 * em - 309468.16 * emsq + 146349.42 * eoc,
        g532: -40023.880 + 170470.89 * em - 242699.48 * emsq + 115605.82 * eoc,
    }
}

fn inclined_of(o: Orbit) -> Inclined
    ensures { result ≡ D.inclined_of o }
{
    let cosisq = o.cosim * o.cosim;
    let sini2 = o.sinim * o.sinim;
    let f220 = 0.75 * (1.0 + 2.0 * o.cosim + cosisq);
    let f221 = 1.5 * sini2;
    let f321 = 1.875 * o.sinim * (1.0 - 2.0 * o.cosim - 3.0 * cosisq);
    let f322 = -1.875 * o.sinim * (1.0 + 2.0 * o.cosim - 3.0 * cosisq);
    let f441 = 35.0 * sini2 * f220;
    let f442 = 39.3750 * sini2 * sini2;
    let f522 = 9.84375
        * o.sinim
        * (sini2 * (1.0 - 2.0 * o.cosim - 5.0 * cosisq)
            + 0.33333333 * (-2.0 + 4.0 * o.cosim + 6.0 * cosisq));
    let f523 = o.sinim
        * (4.92187512 * sini2 * (-2.0 - 4.0 * o.cosim + 10.0 * cosisq)
            + 6.56250012 * (1.0 + 2.0 * o.cosim - 3.0 * cosisq));
    let f542 = 29.53125
        * o.sinim
        * (2.0 - 8.0 * o.cosim + cosisq * (-12.0 + 8.0 * o.cosim + 10.0 * cosisq));
    let f543 = 29.53125
        * o.sinim
        * (-2.0 - 8.0 * o.cosim + cosisq * (12.0 + 8.0 * o.cosim - 10.0 * cosisq));
    Inclined {
        f220,
        f221,
        f321,
        f322,
        f441,
        f442,
        f522,
        f523,
        f542,
        f543,
    }
}

fn half_day_sum(f: Inclined, g: Low, k: High, g201: f64, nm: f64, aonv: f64) -> HalfDay
    ensures { result ≡ D.half_day_sum f g k g201 nm aonv }
{
    let xno2 = nm * nm;
    let ainv2 = aonv * aonv;
    let temp1 = 3.0 * xno2 * ainv2;
    let temp = temp1 * 1.7891679e-6;
    let d2201 = temp * f.f220 * g201;
    let d2211 = temp * f.f221 * g.g211;
    let temp1 = temp1 * aonv;
    let temp = temp1 * 3.7393792e-7;
    let d3210 = temp * f.f321 * g.g310;
    let d3222 = temp * f.f322 * g.g322;
    let temp1 = temp1 * aonv;
    let temp = 2.0 * temp1 * 7.3636953e-9;
    let d4410 = temp * f.f441 * g.g410;
    let d4422 = temp * f.f442 * g.g422;
    let temp1 = temp1 * aonv;
    let temp = temp1 * 1.1428639e-7;
    let d5220 = temp * f.f522 * g.g520;
    let d5232 = temp * f.f523 * k.g532;
    let temp = 2.0 * temp1 * 2.1765803e-9;
    let d5421 = temp * f.f542 * k.g521;
    let d5433 = temp * f.f543 * k.g533;
    HalfDay {
        d2201,
        d2211,
        d3210,
        d3222,
        d4410,
        d4422,
        d5220,
        d5232,
        d5421,
        d5433,
    }
}

fn half_day_of(o: Orbit, aonv: f64) -> HalfDay
    ensures { result ≡ D.half_day_of o aonv }
{
    let em = o.ecco;
    let emsq = o.eccsq;
    let eoc = em * emsq;
    let g201 = -0.306 - (em - 0.64) * 0.440;
    let f = inclined_of(o);
    let g = low_of(em, emsq, eoc);
    let k = high_of(em, emsq, eoc);
    half_day_sum(f, g, k, g201, o.nm, aonv)
}

fn aonv_of(nm: f64) -> f64
    ensures { result ≡ D.aonv_of nm }
{
    elementary::two_thirds(nm / wgs72::xke())
}

// The longest step of dsinit, of the mean motion and the eccentricity: begun ahead, and only where there
// is resonance, as 002 has it. 0.0 is for what does not ask for it.
pub fn aonv_ahead(nm: f64, em: f64) -> f64
    ensures { result ≡ W.aonv_ahead nm em }
{
    if is_half_day(nm, em) | is_one_day(nm) {
        return aonv_of(nm);
    }
    0.0
}

fn kind_of(o: Orbit, aonv: f64) -> Resonance
    ensures { result ≡ D.kind_of o aonv }
{
    let nm = o.nm;
    let em = o.em;
    if is_half_day(nm, em) {
        return Resonance::HalfDay(half_day_of(o, aonv));
    }
    if is_one_day(nm) {
        return Resonance::OneDay(one_day_of(o, aonv));
    }
    Resonance::None
}

// Also dspace's theta, at its time.
pub fn theta_of(gsto: Radians, tc: Minutes) -> Radians
    ensures { result.0 ≡ D.theta_of gsto.0 tc.0 }
{
    Radians(elementary::rem_turn(gsto.0 + tc.0 * RPTIM))
}

fn half_day_start(e: Epoch, s: SecularRates, theta: f64) -> Start
    ensures { result ≡ D.half_day_start e s theta }
{
    Start {
        xlamo: elementary::rem_turn(e.mo + e.nodeo + e.nodeo - theta - theta),
        xfact: e.mdot + s.dmdt + 2.0 * (e.nodedot + s.dnodt - RPTIM) - e.no,
    }
}

fn one_day_start(e: Epoch, s: SecularRates, theta: f64) -> Start
    ensures { result ≡ D.one_day_start e s theta }
{
    Start {
        xlamo: elementary::rem_turn(e.mo + e.nodeo + e.argpo - theta),
        xfact: e.mdot + e.xpidot - RPTIM + s.dmdt + s.domdt + s.dnodt - e.no,
    }
}

fn start_of(kind: Resonance, e: Epoch, s: SecularRates, theta: f64) -> Start
    ensures { result ≡ D.start_of kind e s theta }
{
    match kind {
        Resonance::None => Start {
            xlamo: 0.0,
            xfact: 0.0,
        },
        Resonance::OneDay(_) => one_day_start(e, s, theta),
        Resonance::HalfDay(_) => half_day_start(e, s, theta),
    }
}

// `aonv` is aonv_ahead of the orbit; `tc` is 0 at set-up.
pub fn dsinit(o: Orbit, aonv: f64, e: Epoch, s: SecularRates, tc: Minutes) -> Integrator
    ensures { result ≡ D.dsinit_from o aonv e s tc.0 }
{
    let resonance = kind_of(o, aonv);
    let theta = theta_of(Radians(e.gsto), tc);
    let start = start_of(resonance, e, s, theta.0);
    Integrator {
        resonance,
        xlamo: start.xlamo,
        xfact: start.xfact,
        no: e.no,
        argpo: e.argpo,
        argpdot: e.argpdot,
        gsto: e.gsto,
    }
}
