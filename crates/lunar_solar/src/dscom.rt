// 002's dscom: what the secular rates and the periodic terms of the Sun and the Moon rest on.
ghost use Rattle.std.specs.Prelude.{◌≡◌};
ghost use Rattle.lunar_solar.specs.Dscom as D;

use instant::{Days, Minutes, Radians};
use satellite::{LunarSolar, Periodics};

// Sines and cosines of the satellite's own angles.
#[derive(Clone, Copy)]
pub struct Angles {
    pub snodm: f64,
    pub cnodm: f64,
    pub sinomm: f64,
    pub cosomm: f64,
    pub sinim: f64,
    pub cosim: f64,
}

// The Moon's angles, which are the epoch's alone.
#[derive(Clone, Copy)]
pub struct Lunar {
    pub zcosgl: f64,
    pub zsingl: f64,
    pub zcosil: f64,
    pub zsinil: f64,
    pub zcoshl: f64,
    pub zsinhl: f64,
}

#[derive(Clone, Copy)]
pub struct Shape {
    pub nm: f64,
    pub em: f64,
    pub emsq: f64,
    pub betasq: f64,
    pub rtemsq: f64,
}

// The Sun or the Moon, as 002's loop takes it.
#[derive(Clone, Copy)]
pub struct Body {
    pub zcosg: f64,
    pub zsing: f64,
    pub zcosi: f64,
    pub zsini: f64,
    pub zcosh: f64,
    pub zsinh: f64,
    pub cc: f64,
}

#[derive(Clone, Copy)]
pub struct Axes {
    pub a1: f64,
    pub a2: f64,
    pub a3: f64,
    pub a4: f64,
    pub a5: f64,
    pub a6: f64,
    pub x1: f64,
    pub x2: f64,
    pub x3: f64,
    pub x4: f64,
    pub x5: f64,
    pub x6: f64,
    pub x7: f64,
    pub x8: f64,
}

// s1 to s7 of one body; 002 has the Sun's as ss1 to ss7.
#[derive(Clone, Copy)]
pub struct S {
    pub s1: f64,
    pub s2: f64,
    pub s3: f64,
    pub s4: f64,
    pub s5: f64,
    pub s6: f64,
    pub s7: f64,
}

// z1 to z33 of one body; 002 has the Sun's as sz1 to sz33.
#[derive(Clone, Copy)]
pub struct Z {
    pub z1: f64,
    pub z2: f64,
    pub z3: f64,
    pub z11: f64,
    pub z12: f64,
    pub z13: f64,
    pub z21: f64,
    pub z22: f64,
    pub z23: f64,
    pub z31: f64,
    pub z32: f64,
    pub z33: f64,
}

// What one turn of 002's loop gives.
#[derive(Clone, Copy)]
pub struct Pass {
    pub s: S,
    pub z: Z,
}

#[derive(Clone, Copy)]
pub struct Common {
    pub angles: Angles,
    pub shape: Shape,
    pub sun: Pass,
    pub moon: Pass,
    pub periodics: LunarSolar,
}

pub fn angles_of(argpp: Radians, inclp: Radians, nodep: Radians) -> Angles
    ensures { result ≡ D.angles_of argpp.0 inclp.0 nodep.0 }
{
    let node = elementary::sin_cos(nodep.0);
    let argp = elementary::sin_cos(argpp.0);
    let incl = elementary::sin_cos(inclp.0);
    Angles {
        snodm: node.sin,
        cnodm: node.cos,
        sinomm: argp.sin,
        cosomm: argp.cos,
        sinim: incl.sin,
        cosim: incl.cos,
    }
}

fn shape_of(ep: f64, np: f64) -> Shape
    ensures { result ≡ D.shape_of ep np }
{
    let nm = np;
    let em = ep;
    let emsq = em * em;
    let betasq = 1.0 - emsq;
    let rtemsq = elementary::sqrt(betasq);
    Shape {
        nm,
        em,
        emsq,
        betasq,
        rtemsq,
    }
}

fn day_of(epoch: Days, tc: Minutes) -> Days
    ensures { result.0 ≡ D.day_of epoch.0 tc.0 }
{
    Days(epoch.0 + 18261.5 + tc.0 / 1440.0)
}

fn gam_of(day: Days) -> f64
    ensures { result ≡ D.gam_of day.0 }
{
    5.8351514 + 0.0019443680 * day.0
}

fn sun_of(o: Angles) -> Body
    ensures { result ≡ D.sun_of o }
{
    Body {
        zcosg: 0.1945905,
        zsing: -0.98088458,
        zcosi: 0.91744867,
        zsini: 0.39785416,
        zcosh: o.cnodm,
        zsinh: o.snodm,
        cc: 2.9864797e-6,
    }
}

pub fn lunar_of(epoch: Days, tc: Minutes) -> Lunar
    ensures { result ≡ D.lunar_of epoch.0 tc.0 }
{
    let day = day_of(epoch, tc);
    let gam = gam_of(day);
    let xnodce = elementary::rem_turn(4.5236020 - 9.2422029e-4 * day.0);
    let tem = elementary::sin_cos(xnodce);
    let stem = tem.sin;
    let ctem = tem.cos;
    let zcosil = 0.91375164 - 0.03568096 * ctem;
    let zsinil = elementary::sqrt(1.0 - zcosil * zcosil);
    let zsinhl = 0.089683511 * stem / zsinil;
    let zcoshl = elementary::sqrt(1.0 - zsinhl * zsinhl);
    let zx = 0.39785416 * stem / zsinil;
    let zy = zcoshl * ctem + 0.91744867 * zsinhl * stem;
    let zx = elementary::atan2(zx, zy);
    let zx = gam + zx - xnodce;
    let gl = elementary::sin_cos(zx);
    Lunar {
        zcosgl: gl.cos,
        zsingl: gl.sin,
        zcosil,
        zsinil,
        zcoshl,
        zsinhl,
    }
}

// zcosh of the Moon's pass, 2120.
fn moon_zcosh(o: Angles, l: Lunar) -> f64
    ensures { result ≡ (D.moon_of o l).zcosh }
{
    l.zcoshl * o.cnodm + l.zsinhl * o.snodm
}

fn moon_of(o: Angles, l: Lunar) -> Body
    ensures { result ≡ D.moon_of o l }
{
    Body {
        zcosg: l.zcosgl,
        zsing: l.zsingl,
        zcosi: l.zcosil,
        zsini: l.zsinil,
        zcosh: moon_zcosh(o, l),
        zsinh: o.snodm * l.zcoshl - o.cnodm * l.zsinhl,
        cc: 4.7968065e-7,
    }
}

fn axes_of(b: Body, o: Angles) -> Axes
    ensures { result ≡ D.axes_of b o }
{
    let a1 = b.zcosg * b.zcosh + b.zsing * b.zcosi * b.zsinh;
    let a3 = -b.zsing * b.zcosh + b.zcosg * b.zcosi * b.zsinh;
    let a7 = -b.zcosg * b.zsinh + b.zsing * b.zcosi * b.zcosh;
    let a8 = b.zsing * b.zsini;
    let a9 = b.zsing * b.zsinh + b.zcosg * b.zcosi * b.zcosh;
    let a10 = b.zcosg * b.zsini;
    let a2 = o.cosim * a7 + o.sinim * a8;
    let a4 = o.cosim * a9 + o.sinim * a10;
    let a5 = -o.sinim * a7 + o.cosim * a8;
    let a6 = -o.sinim * a9 + o.cosim * a10;
    let x1 = a1 * o.cosomm + a2 * o.sinomm;
    let x2 = a3 * o.cosomm + a4 * o.sinomm;
    let x3 = -a1 * o.sinomm + a2 * o.cosomm;
    let x4 = -a3 * o.sinomm + a4 * o.cosomm;
    let x5 = a5 * o.sinomm;
    let x6 = a6 * o.sinomm;
    let x7 = a5 * o.cosomm;
    let x8 = a6 * o.cosomm;
    Axes {
        a1,
        a2,
        a3,
        a4,
        a5,
        a6,
        x1,
        x2,
        x3,
        x4,
        x5,
        x6,
        x7,
        x8,
    }
}

fn z_of(x: Axes, h: Shape) -> Z
    ensures { result ≡ D.z_of x h }
{
    let z31 = 12.0 * x.x1 * x.x1 - 3.0 * x.x3 * x.x3;
    let z32 = 24.0 * x.x1 * x.x2 - 6.0 * x.x3 * x.x4;
    let z33 = 12.0 * x.x2 * x.x2 - 3.0 * x.x4 * x.x4;
    let z1 = 3.0 * (x.a1 * x.a1 + x.a2 * x.a2) + z31 * h.emsq;
    let z2 = 6.0 * (x.a1 * x.a3 + x.a2 * x.a4) + z32 * h.emsq;
    let z3 = 3.0 * (x.a3 * x.a3 + x.a4 * x.a4) + z33 * h.emsq;
    let z11 = -6.0 * x.a1 * x.a5 + h.emsq * (-24.0 * x.x1 * x.x7 - 6.0 * x.x3 * x.x5);
    let z12 = -6.0 * (x.a1 * x.a6 + x.a3 * x.a5)
        + h.emsq * (-24.0 * (x.x2 * x.x7 + x.x1 * x.x8) - 6.0 * (x.x3 * x.x6 + x.x4 * x.x5));
    let z13 = -6.0 * x.a3 * x.a6 + h.emsq * (-24.0 * x.x2 * x.x8 - 6.0 * x.x4 * x.x6);
    let z21 = 6.0 * x.a2 * x.a5 + h.emsq * (24.0 * x.x1 * x.x5 - 6.0 * x.x3 * x.x7);
    let z22 = 6.0 * (x.a4 * x.a5 + x.a2 * x.a6)
        + h.emsq * (24.0 * (x.x2 * x.x5 + x.x1 * x.x6) - 6.0 * (x.x4 * x.x7 + x.x3 * x.x8));
    let z23 = 6.0 * x.a4 * x.a6 + h.emsq * (24.0 * x.x2 * x.x6 - 6.0 * x.x4 * x.x8);
    Z {
        z1: z1 + z1 + h.betasq * z31,
        z2: z2 + z2 + h.betasq * z32,
        z3: z3 + z3 + h.betasq * z33,
        z11,
        z12,
        z13,
        z21,
        z22,
        z23,
        z31,
        z32,
        z33,
    }
}

fn s_of(x: Axes, h: Shape, cc: f64) -> S
    ensures { result ≡ D.s_of x h cc }
{
    let xnoi = 1.0 / h.nm;
    let s3 = cc * xnoi;
    let s2 = -0.5 * s3 / h.rtemsq;
    let s4 = s3 * h.rtemsq;
    let s1 = -15.0 * h.em * s4;
    let s5 = x.x1 * x.x3 + x.x2 * x.x4;
    let s6 = x.x2 * x.x3 + x.x1 * x.x4;
    let s7 = x.x2 * x.x4 - x.x1 * x.x3;
    S {
        s1,
        s2,
        s3,
        s4,
        s5,
        s6,
        s7,
    }
}

fn pass_of(b: Body, o: Angles, h: Shape) -> Pass
    ensures { result ≡ D.pass_of b o h }
{
    let x = axes_of(b, o);
    Pass {
        s: s_of(x, h, b.cc),
        z: z_of(x, h),
    }
}

fn periodics_of(p: Pass, emsq: f64, ze: f64) -> Periodics
    ensures { result ≡ D.periodics_of p emsq ze }
{
    Periodics {
        e2: 2.0 * p.s.s1 * p.s.s6,
        e3: 2.0 * p.s.s1 * p.s.s7,
        i2: 2.0 * p.s.s2 * p.z.z12,
        i3: 2.0 * p.s.s2 * (p.z.z13 - p.z.z11),
        l2: -2.0 * p.s.s3 * p.z.z2,
        l3: -2.0 * p.s.s3 * (p.z.z3 - p.z.z1),
        l4: -2.0 * p.s.s3 * (-21.0 - 9.0 * emsq) * ze,
        gh2: 2.0 * p.s.s4 * p.z.z32,
        gh3: 2.0 * p.s.s4 * (p.z.z33 - p.z.z31),
        gh4: -18.0 * p.s.s4 * ze,
        h2: -2.0 * p.s.s2 * p.z.z22,
        h3: -2.0 * p.s.s2 * (p.z.z23 - p.z.z21),
    }
}

fn zmol_of(day: Days, gam: f64) -> f64
    ensures { result ≡ D.zmol_of day.0 gam }
{
    elementary::rem_turn(4.7199672 + 0.22997150 * day.0 - gam)
}

fn zmos_of(day: Days) -> f64
    ensures { result ≡ D.zmos_of day.0 }
{
    elementary::rem_turn(6.2565837 + 0.017201977 * day.0)
}

fn both_of(sun: Pass, moon: Pass, emsq: f64, day: Days, gam: f64) -> LunarSolar
    ensures { result ≡ D.both_of sun moon emsq day.0 gam }
{
    LunarSolar {
        sun: periodics_of(sun, emsq, 0.01675),
        moon: periodics_of(moon, emsq, 0.05490),
        zmos: zmos_of(day),
        zmol: zmol_of(day, gam),
    }
}

// The solar pass, then the lunar pass; `epoch` counts days as 002's sgp4init does. The angles come
// first, from angles_of and lunar_of: nothing else is needed for them, so that they can begin early.
pub fn dscom(angles: Angles, lunar: Lunar, epoch: Days, ep: f64, tc: Minutes, np: f64) -> Common
    ensures { result ≡ D.dscom_from angles lunar epoch.0 ep tc.0 np }
{
    let shape = shape_of(ep, np);
    let day = day_of(epoch, tc);
    let gam = gam_of(day);
    let sun = pass_of(sun_of(angles), angles, shape);
    let moon = pass_of(moon_of(angles, lunar), angles, shape);
    let periodics = both_of(sun, moon, shape.emsq, day, gam);
    Common {
        angles,
        shape,
        sun,
        moon,
        periodics,
    }
}
