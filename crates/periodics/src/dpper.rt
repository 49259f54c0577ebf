// 002's dpper: the lunar-solar periodics at a time.
ghost use Rattle.std.specs.Prelude.{◌≡◌, false};
ghost use Rattle.elementary.specs.Angle.{atan2_of};
ghost use Rattle.periodics.specs.Dpper as D;

use instant::Minutes;
use satellite::{LunarSolar, Periodics};

pub mod pairs;

const PI: f64 = 3.141592653589793;

const TWOPI: f64 = 6.283185307179586;

#[derive(Clone, Copy)]
pub struct Factors {
    pub sinzf: f64,
    pub f2: f64,
    pub f3: f64,
}

// ses, sis, sls, sghs, shs of 002 for the Sun, sel, sil, sll, sghl, shll for the Moon.
#[derive(Clone, Copy)]
pub struct Sums {
    pub e: f64,
    pub i: f64,
    pub l: f64,
    pub gh: f64,
    pub h: f64,
}

#[derive(Clone, Copy)]
pub struct Changes {
    pub pe: f64,
    pub pinc: f64,
    pub pl: f64,
    pub pgh: f64,
    pub ph: f64,
}

// alfdp and betdp of 002.
#[derive(Clone, Copy)]
pub struct Point {
    pub alfdp: f64,
    pub betdp: f64,
}

#[derive(Clone, Copy)]
pub struct Perturbed {
    pub ep: f64,
    pub inclp: f64,
    pub nodep: f64,
    pub argpp: f64,
    pub mp: f64,
}

fn factors_of(zm: f64, ze: f64) -> Factors
    ensures { result ≡ D.factors_of zm ze }
{
    let zf = elementary::sin_cos(zm + 2.0 * ze * elementary::sin(zm));
    let sinzf = zf.sin;
    let f2 = 0.5 * sinzf * sinzf - 0.25;
    let f3 = -0.5 * sinzf * zf.cos;
    Factors { sinzf, f2, f3 }
}

fn sums_of(p: Periodics, w: Factors) -> Sums
    ensures { result ≡ D.sums_of p w }
{
    Sums {
        e: p.e2 * w.f2 + p.e3 * w.f3,
        i: p.i2 * w.f2 + p.i3 * w.f3,
        l: p.l2 * w.f2 + p.l3 * w.f3 + p.l4 * w.sinzf,
        gh: p.gh2 * w.f2 + p.gh3 * w.f3 + p.gh4 * w.sinzf,
        h: p.h2 * w.f2 + p.h3 * w.f3,
    }
}

fn changes_of(s: Sums, m: Sums) -> Changes
    ensures { result ≡ D.changes_of s m }
{
    Changes {
        pe: s.e + m.e - 0.0,
        pinc: s.i + m.i - 0.0,
        pl: s.l + m.l - 0.0,
        pgh: s.gh + m.gh - 0.0,
        ph: s.h + m.h - 0.0,
    }
}

fn changes_at(ls: LunarSolar, t: f64) -> Changes
    ensures { result ≡ D.changes_at false ls t }
{
    let sun = ls.sun;
    let moon = ls.moon;
    let ws = factors_of(ls.zmos + 1.19459e-5 * t, 0.01675);
    let s = sums_of(sun, ws);
    let wl = factors_of(ls.zmol + 1.5835218e-4 * t, 0.05490);
    let m = sums_of(moon, wl);
    changes_of(s, m)
}

fn inclined(k: Changes, x: Perturbed) -> Perturbed
    ensures { result ≡ D.inclined_of k x }
{
    Perturbed {
        ep: x.ep + k.pe,
        inclp: x.inclp + k.pinc,
        ..x
    }
}

fn direct(k: Changes, x: Perturbed, sinip: f64, cosip: f64) -> Perturbed
    ensures { result ≡ D.direct_of k x sinip cosip }
{
    let ph = k.ph / sinip;
    let pgh = k.pgh - cosip * ph;
    Perturbed {
        nodep: x.nodep + ph,
        argpp: x.argpp + pgh,
        mp: x.mp + k.pl,
        ..x
    }
}

// The point whose angle Lyddane's node is.
fn lyddane_point(k: Changes, x: Perturbed, sinip: f64, cosip: f64) -> Point
    ensures { atan2_of result.alfdp result.betdp ≡ D.lyddane_node k x sinip cosip }
{
    let op = elementary::sin_cos(x.nodep);
    let sinop = op.sin;
    let cosop = op.cos;
    let alfdp = sinip * sinop;
    let betdp = sinip * cosop;
    let dalf = k.ph * cosop + k.pinc * cosip * sinop;
    let dbet = -k.ph * sinop + k.pinc * cosip * cosop;
    Point {
        alfdp: alfdp + dalf,
        betdp: betdp + dbet,
    }
}

fn lyddane_node(k: Changes, x: Perturbed, sinip: f64, cosip: f64) -> f64
    ensures { result ≡ D.lyddane_node k x sinip cosip }
{
    let p = lyddane_point(k, x, sinip, cosip);
    elementary::atan2(p.alfdp, p.betdp)
}

fn turn_of(xnoh: f64, nodep: f64, apart: f64) -> f64
    ensures { result ≡ D.turn_of xnoh nodep apart }
{
    if apart > PI {
        if nodep < xnoh {
            return nodep + TWOPI;
        }
        return nodep - TWOPI;
    }
    nodep
}

// Of the node before it is brought to the turn of the old one.
fn lyddane_at(node: f64, k: Changes, x: Perturbed, sinip: f64, cosip: f64) -> Perturbed
    requires { node ≡ D.lyddane_node k x sinip cosip }
    ensures { result ≡ D.lyddane_of k x sinip cosip }
{
    let xnoh = elementary::rem_turn(x.nodep);
    let xls = x.mp + x.argpp + cosip * xnoh;
    let dls = k.pl + k.pgh - k.pinc * xnoh * sinip;
    let xls = xls + dls;
    let apart = elementary::abs(xnoh - node);
    let nodep = turn_of(xnoh, node, apart);
    let mp = x.mp + k.pl;
    Perturbed {
        nodep,
        argpp: xls - mp - cosip * nodep,
        mp,
        ..x
    }
}

fn lyddane(k: Changes, x: Perturbed, sinip: f64, cosip: f64) -> Perturbed
    ensures { result ≡ D.lyddane_of k x sinip cosip }
{
    let node = lyddane_node(k, x, sinip, cosip);
    lyddane_at(node, k, x, sinip, cosip)
}

fn applied(k: Changes, x: Perturbed, sinip: f64, cosip: f64) -> Perturbed
    ensures { result ≡ D.applied_of k x sinip cosip }
{
    if x.inclp >= 0.2 {
        return direct(k, x, sinip, cosip);
    }
    lyddane(k, x, sinip, cosip)
}

// 002's call with init 'n'. Its call with 'y', at set-up, changes nothing.
pub fn dpper(ls: LunarSolar, t: Minutes, x: Perturbed) -> Perturbed
    ensures { result ≡ D.dpper_of false ls t x }
{
    let k = changes_at(ls, t.0);
    let y = inclined(k, x);
    let ip = elementary::sin_cos(y.inclp);
    applied(k, y, ip.sin, ip.cos)
}
