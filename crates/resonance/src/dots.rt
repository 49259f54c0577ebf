// The derivatives of 002's dspace.
ghost use Rattle.std.specs.Prelude.{◌≡◌};
ghost use Rattle.resonance.specs.Dots as D;

use elementary::{SinCos, sin_cos};
use satellite::{HalfDay, OneDay, Resonance};

#[derive(Clone, Copy)]
pub struct Dots {
    pub xndt: f64,
    pub xldot: f64,
    pub xnddt: f64,
}

// The arguments of the half-day terms, named by their coefficients.
#[derive(Clone, Copy)]
pub struct Phases {
    pub p2201: f64,
    pub p2211: f64,
    pub p3210: f64,
    pub p3222: f64,
    pub p4410: f64,
    pub p4422: f64,
    pub p5220: f64,
    pub p5232: f64,
    pub p5421: f64,
    pub p5433: f64,
}

// The sine and the cosine of each of the ten.
#[derive(Clone, Copy)]
pub struct Waves {
    pub w2201: SinCos,
    pub w2211: SinCos,
    pub w3210: SinCos,
    pub w3222: SinCos,
    pub w4410: SinCos,
    pub w4422: SinCos,
    pub w5220: SinCos,
    pub w5232: SinCos,
    pub w5421: SinCos,
    pub w5433: SinCos,
}

fn one_day_dots(d: OneDay, xli: f64, xni: f64, xfact: f64) -> Dots
    ensures { result ≡ D.one_day_dots d xli xni xfact }
{
    let a = sin_cos(xli - 0.13130908);
    let b = sin_cos(2.0 * (xli - 2.8843198));
    let c = sin_cos(3.0 * (xli - 0.37448087));
    let xndt = d.del1 * a.sin + d.del2 * b.sin + d.del3 * c.sin;
    let xldot = xni + xfact;
    let xnddt = d.del1 * a.cos + 2.0 * d.del2 * b.cos + 3.0 * d.del3 * c.cos;
    Dots {
        xndt,
        xldot,
        xnddt: xnddt * xldot,
    }
}

fn phases_of(xomi: f64, xli: f64) -> Phases
    ensures { result ≡ D.phases_of xomi xli }
{
    let x2omi = xomi + xomi;
    let x2li = xli + xli;
    Phases {
        p2201: x2omi + xli - 5.7686396,
        p2211: xli - 5.7686396,
        p3210: xomi + xli - 0.95240898,
        p3222: -xomi + xli - 0.95240898,
        p4410: x2omi + x2li - 1.8014998,
        p4422: x2li - 1.8014998,
        p5220: xomi + xli - 1.0508330,
        p5232: -xomi + xli - 1.0508330,
        p5421: xomi + x2li - 4.4108898,
        p5433: -xomi + x2li - 4.4108898,
    }
}

fn waves_of(p: Phases) -> Waves
    ensures { result ≡ D.waves_of p }
{
    Waves {
        w2201: sin_cos(p.p2201),
        w2211: sin_cos(p.p2211),
        w3210: sin_cos(p.p3210),
        w3222: sin_cos(p.p3222),
        w4410: sin_cos(p.p4410),
        w4422: sin_cos(p.p4422),
        w5220: sin_cos(p.p5220),
        w5232: sin_cos(p.p5232),
        w5421: sin_cos(p.p5421),
        w5433: sin_cos(p.p5433),
    }
}

fn half_day_sums(h: HalfDay, w: Waves, xldot: f64) -> Dots
    ensures { result ≡ D.half_day_sums h w xldot }
{
    let xndt = h.d2201 * w.w2201.sin
        + h.d2211 * w.w2211.sin
        + h.d3210 * w.w3210.sin
        + h.d3222 * w.w3222.sin
        + h.d4410 * w.w4410.sin
        + h.d4422 * w.w4422.sin
        + h.d5220 * w.w5220.sin
        + h.d5232 * w.w5232.sin
        + h.d5421 * w.w5421.sin
        + h.d5433 * w.w5433.sin;
    let xnddt = h.d2201 * w.w2201.cos
        + h.d2211 * w.w2211.cos
        + h.d3210 * w.w3210.cos
        + h.d3222 * w.w3222.cos
        + h.d5220 * w.w5220.cos
        + h.d5232 * w.w5232.cos
        + 2.0
            * (h.d4410 * w.w4410.cos
                + h.d4422 * w.w4422.cos
                + h.d5421 * w.w5421.cos
                + h.d5433 * w.w5433.cos);
    Dots {
        xndt,
        xldot,
        xnddt: xnddt * xldot,
    }
}

fn half_day_dots(h: HalfDay, xli: f64, xni: f64, xfact: f64, xomi: f64) -> Dots
    ensures { result ≡ D.half_day_dots h xli xni xfact xomi }
{
    let p = phases_of(xomi, xli);
    let w = waves_of(p);
    half_day_sums(h, w, xni + xfact)
}

pub(crate) fn dots_of(kind: Resonance, xli: f64, xni: f64, xfact: f64, xomi: f64) -> Dots
    ensures { result ≡ D.dots_of kind xli xni xfact xomi }
{
    match kind {
        Resonance::None => Dots {
            xndt: 0.0,
            xldot: 0.0,
            xnddt: 0.0,
        },
        Resonance::OneDay(d) => one_day_dots(d, xli, xni, xfact),
        Resonance::HalfDay(h) => half_day_dots(h, xli, xni, xfact, xomi),
    }
}
