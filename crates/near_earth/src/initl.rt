// 002's initl.
ghost use Rattle.std.specs.Prelude.{◌≡◌};
ghost use Rattle.near_earth.specs.Initl as I;

use crate::parts::Initl;
use elementary::{sin_cos, sqrt, two_thirds};
use instant::Radians;
use wgs72::{J2, xke};

fn unkozai(no: f64, ak: f64, cosio2: f64, rteosq: f64, omeosq: f64) -> f64
    ensures { result ≡ I.unkozai no ak cosio2 rteosq omeosq }
{
    let d1 = 0.75 * J2 * (3.0 * cosio2 - 1.0) / (rteosq * omeosq);
    let del = d1 / (ak * ak);
    let adel = ak * (1.0 - del * del - del * (1.0 / 3.0 + 134.0 * del * del / 81.0));
    let del = d1 / (adel * adel);
    no / (1.0 + del)
}

pub fn initl(ecco: f64, inclo: Radians, no: f64) -> Initl
    ensures { result ≡ I.initl ecco inclo.0 no }
{
    let eccsq = ecco * ecco;
    let omeosq = 1.0 - eccsq;
    let rteosq = sqrt(omeosq);
    let io = sin_cos(inclo.0);
    let cosio = io.cos;
    let cosio2 = cosio * cosio;
    let ak = two_thirds(xke() / no);
    let no = unkozai(no, ak, cosio2, rteosq, omeosq);
    let ao = two_thirds(xke() / no);
    let sinio = io.sin;
    let po = ao * omeosq;
    let con42 = 1.0 - 5.0 * cosio2;
    let con41 = -con42 - cosio2 - cosio2;
    let posq = po * po;
    let rp = ao * (1.0 - ecco);
    Initl {
        no,
        ao,
        con41,
        con42,
        cosio,
        cosio2,
        eccsq,
        omeosq,
        posq,
        rp,
        rteosq,
        sinio,
    }
}

pub fn guard(i: Initl) -> bool
    ensures { result ≡ I.guard i }
{
    (i.omeosq >= 0.0) | (i.no >= 0.0)
}

// A period of 225 minutes or more.
pub fn is_deep_space(i: Initl) -> bool
    ensures { result ≡ I.deep_space i }
{
    guard(i) & (6.283185307179586 / i.no >= 225.0)
}
