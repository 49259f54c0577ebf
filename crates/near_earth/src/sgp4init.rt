// 002's sgp4init but for deep space.
ghost use Rattle.std.specs.Prelude.{◌≡◌};
ghost use Rattle.near_earth.specs.Kept.{kept};
ghost use Rattle.near_earth.specs.Sgp4init as N;

use crate::initl::guard;
use crate::parts::{Atmosphere, Initl, Shape};
use crate::powers::{pow3, pow4};
use elementary::{abs, cos, seven_halves, sin_cos};
use satellite::{Drag, Elements, Higher, Kept, NearEarth, Rates, Terms};
use wgs72::{J2, J4, RADIUSEARTHKM, j3oj2, qzms2t, ss, temp4, x2o3};

fn simple(rp: f64) -> bool
    ensures { result ≡ N.simple rp }
{
    rp < 220.0 / RADIUSEARTHKM + 1.0
}

fn altered(sfour: f64) -> Atmosphere
    ensures { result ≡ N.altered sfour }
{
    let qzms24 = pow4((120.0 - sfour) / RADIUSEARTHKM);
    Atmosphere {
        sfour: sfour / RADIUSEARTHKM + 1.0,
        qzms24,
    }
}

fn atmosphere(rp: f64) -> Atmosphere
    ensures { result ≡ N.atmosphere rp }
{
    let perige = (rp - 1.0) * RADIUSEARTHKM;
    if perige < 156.0 {
        if perige < 98.0 {
            return altered(20.0);
        }
        return altered(perige - 78.0);
    }
    let sfour = ss();
    let qzms24 = qzms2t();
    Atmosphere { sfour, qzms24 }
}

fn shape(ao: f64, ecco: f64, a: Atmosphere) -> Shape
    ensures { result ≡ N.shape ao ecco a }
{
    let tsi = 1.0 / (ao - a.sfour);
    let eta = ao * ecco * tsi;
    let etasq = eta * eta;
    let eeta = ecco * eta;
    let psisq = abs(1.0 - etasq);
    let coef = a.qzms24 * pow4(tsi);
    let coef1 = coef / seven_halves(psisq);
    Shape {
        tsi,
        eta,
        etasq,
        eeta,
        psisq,
        coef,
        coef1,
    }
}

fn cc2(i: Initl, s: Shape) -> f64
    ensures { result ≡ N.cc2 i s }
{
    s.coef1
        * i.no
        * (i.ao * (1.0 + 1.5 * s.etasq + s.eeta * (4.0 + s.etasq))
            + 0.375 * J2 * s.tsi / s.psisq * i.con41 * (8.0 + 3.0 * s.etasq * (8.0 + s.etasq)))
}

fn cc3(ecco: f64, i: Initl, s: Shape) -> f64
    ensures { result ≡ N.cc3 ecco i s }
{
    if ecco > 1.0e-4 {
        return -2.0 * s.coef * s.tsi * j3oj2() * i.no * i.sinio / ecco;
    }
    0.0
}

fn cc4(ecco: f64, cos2argpo: f64, x1mth2: f64, i: Initl, s: Shape) -> f64
    ensures { result ≡ N.cc4 ecco cos2argpo x1mth2 i s }
{
    2.0 * i.no
        * s.coef1
        * i.ao
        * i.omeosq
        * (s.eta * (2.0 + 0.5 * s.etasq) + ecco * (0.5 + 2.0 * s.etasq)
            - J2 * s.tsi / (i.ao * s.psisq)
                * (-3.0 * i.con41 * (1.0 - 2.0 * s.eeta + s.etasq * (1.5 - 0.5 * s.eeta))
                    + 0.75 * x1mth2 * (2.0 * s.etasq - s.eeta * (1.0 + s.etasq)) * cos2argpo))
}

fn cc5(i: Initl, s: Shape) -> f64
    ensures { result ≡ N.cc5 i s }
{
    2.0 * s.coef1 * i.ao * i.omeosq * (1.0 + 2.75 * (s.etasq + s.eeta) + s.eeta * s.etasq)
}

fn rates(i: Initl, cc1: f64) -> Rates
    ensures { result ≡ N.rates i cc1 }
{
    let pinvsq = 1.0 / i.posq;
    let cosio4 = i.cosio2 * i.cosio2;
    let temp1 = 1.5 * J2 * pinvsq * i.no;
    let temp2 = 0.5 * temp1 * J2 * pinvsq;
    let temp3 = -0.46875 * J4 * pinvsq * pinvsq * i.no;
    let mdot = i.no
        + 0.5 * temp1 * i.rteosq * i.con41
        + 0.0625 * temp2 * i.rteosq * (13.0 - 78.0 * i.cosio2 + 137.0 * cosio4);
    let argpdot = -0.5 * temp1 * i.con42
        + 0.0625 * temp2 * (7.0 - 114.0 * i.cosio2 + 395.0 * cosio4)
        + temp3 * (3.0 - 36.0 * i.cosio2 + 49.0 * cosio4);
    let xhdot1 = -temp1 * i.cosio;
    let nodedot = xhdot1
        + (0.5 * temp2 * (4.0 - 19.0 * i.cosio2) + 2.0 * temp3 * (3.0 - 7.0 * i.cosio2)) * i.cosio;
    let nodecf = 3.5 * i.omeosq * xhdot1 * cc1;
    Rates {
        mdot,
        argpdot,
        nodedot,
        nodecf,
    }
}

fn xmcof(ecco: f64, bstar: f64, s: Shape) -> f64
    ensures { result ≡ N.xmcof ecco bstar s }
{
    if ecco > 1.0e-4 {
        return -x2o3() * s.coef * bstar / s.eeta;
    }
    0.0
}

fn drag(el: Elements, i: Initl, s: Shape) -> Drag
    ensures { result ≡ N.drag el i s }
{
    let cc1 = el.bstar * cc2(i, s);
    let cc4 = cc4(el.ecco, cos(2.0 * el.argpo), 1.0 - i.cosio2, i, s);
    let cc5 = cc5(i, s);
    let omgcof = el.bstar * cc3(el.ecco, i, s) * cos(el.argpo);
    let xmcof = xmcof(el.ecco, el.bstar, s);
    let mo = sin_cos(el.mo);
    let delmo = pow3(1.0 + s.eta * mo.cos);
    Drag {
        eta: s.eta,
        cc1,
        cc4,
        cc5,
        omgcof,
        xmcof,
        t2cof: 1.5 * cc1,
        delmo,
        sinmao: mo.sin,
    }
}

pub fn xlcof(sinio: f64, cosio: f64) -> f64
    ensures { result ≡ N.xlcof sinio cosio }
{
    let top = -0.25 * j3oj2() * sinio * (3.0 + 5.0 * cosio);
    let away = abs(cosio + 1.0);
    if away > 1.5e-12 {
        return top / (1.0 + cosio);
    }
    top / temp4()
}

pub fn aycof(sinio: f64) -> f64
    ensures { result ≡ N.aycof sinio }
{
    -0.5 * j3oj2() * sinio
}

fn terms(i: Initl) -> Terms
    ensures { result ≡ N.terms i }
{
    let xlcof = xlcof(i.sinio, i.cosio);
    let aycof = aycof(i.sinio);
    Terms {
        con41: i.con41,
        x1mth2: 1.0 - i.cosio2,
        x7thm1: 7.0 * i.cosio2 - 1.0,
        xlcof,
        aycof,
    }
}

fn higher(isimp: bool, ao: f64, sfour: f64, tsi: f64, cc1: f64) -> Higher
    ensures { result ≡ N.higher isimp ao sfour tsi cc1 }
{
    if isimp {
        return Higher {
            d2: 0.0,
            d3: 0.0,
            d4: 0.0,
            t3cof: 0.0,
            t4cof: 0.0,
            t5cof: 0.0,
        };
    }
    let cc1sq = cc1 * cc1;
    let d2 = 4.0 * ao * tsi * cc1sq;
    let temp = d2 * tsi * cc1 / 3.0;
    let d3 = (17.0 * ao + sfour) * temp;
    let d4 = 0.5 * temp * ao * tsi * (221.0 * ao + 31.0 * sfour) * cc1;
    let t3cof = d2 + 2.0 * cc1sq;
    let t4cof = 0.25 * (3.0 * d3 + cc1 * (12.0 * d2 + 10.0 * cc1sq));
    let t5cof = 0.2
        * (3.0 * d4 + 12.0 * cc1 * d3 + 6.0 * d2 * d2 + 15.0 * cc1sq * (2.0 * d2 + cc1sq));
    Higher {
        d2,
        d3,
        d4,
        t3cof,
        t4cof,
        t5cof,
    }
}

fn recovered(el: Elements, i: Initl) -> Elements
    ensures { result ≡ N.recovered el i }
{
    Elements { no: i.no, ..el }
}

// What sgp4 would compute at every time and always the same.
fn kept(i: Initl) -> Kept
    ensures { result ≡ kept i }
{
    Kept {
        ao: i.ao,
        sinio: i.sinio,
        cosio: i.cosio,
    }
}

fn filled(el: Elements, i: Initl, deep: bool) -> NearEarth
    ensures { result ≡ N.filled el i deep }
{
    let a = atmosphere(i.rp);
    let s = shape(i.ao, el.ecco, a);
    let drag = drag(el, i, s);
    let isimp = simple(i.rp) | deep;
    let higher = higher(isimp, i.ao, a.sfour, s.tsi, drag.cc1);
    let rates = rates(i, drag.cc1);
    let terms = terms(i);
    let kept = kept(i);
    let elements = recovered(el, i);
    NearEarth {
        elements,
        isimp,
        drag,
        higher,
        rates,
        terms,
        kept,
    }
}

fn zeroed(el: Elements, i: Initl) -> NearEarth
    ensures { result ≡ N.zeroed el i }
{
    let drag = Drag {
        eta: 0.0,
        cc1: 0.0,
        cc4: 0.0,
        cc5: 0.0,
        omgcof: 0.0,
        xmcof: 0.0,
        t2cof: 0.0,
        delmo: 0.0,
        sinmao: 0.0,
    };
    let higher = Higher {
        d2: 0.0,
        d3: 0.0,
        d4: 0.0,
        t3cof: 0.0,
        t4cof: 0.0,
        t5cof: 0.0,
    };
    let rates = Rates {
        mdot: 0.0,
        argpdot: 0.0,
        nodedot: 0.0,
        nodecf: 0.0,
    };
    let terms = Terms {
        con41: i.con41,
        x1mth2: 0.0,
        x7thm1: 0.0,
        xlcof: 0.0,
        aycof: 0.0,
    };
    let kept = kept(i);
    let elements = recovered(el, i);
    NearEarth {
        elements,
        isimp: false,
        drag,
        higher,
        rates,
        terms,
        kept,
    }
}

// Of the elements, what initl gives for them, and whether they are deep space.
pub fn near_earth(el: Elements, i: Initl, deep: bool) -> NearEarth
    ensures { result ≡ N.near_earth el i deep }
{
    if guard(i) {
        return filled(el, i, deep);
    }
    zeroed(el, i)
}
