// The opened satellite's parts, as structs alone: 002's record (its struct elsetrec) under 002's names.
#![tactic(auto)]

use instant::Instant;

// The elements that sgp4init is handed. An opened satellite has them too, `no` then being the mean
// motion that initl recovers: 002 writes it over the one handed in.
#[derive(Clone, Copy)]
pub struct Elements {
    pub bstar: f64,
    pub ecco: f64,
    pub argpo: f64,
    pub inclo: f64,
    pub mo: f64,
    pub no: f64,
    pub nodeo: f64,
}

// The drag terms.
#[derive(Clone, Copy)]
pub struct Drag {
    pub eta: f64,
    pub cc1: f64,
    pub cc4: f64,
    pub cc5: f64,
    pub omgcof: f64,
    pub xmcof: f64,
    pub t2cof: f64,
    pub delmo: f64,
    pub sinmao: f64,
}

// The drag terms of higher powers of time: zeros where isimp is 1.
#[derive(Clone, Copy)]
pub struct Higher {
    pub d2: f64,
    pub d3: f64,
    pub d4: f64,
    pub t3cof: f64,
    pub t4cof: f64,
    pub t5cof: f64,
}

// The secular rates of the Earth's own gravity, and the drag on the node.
#[derive(Clone, Copy)]
pub struct Rates {
    pub mdot: f64,
    pub argpdot: f64,
    pub nodedot: f64,
    pub nodecf: f64,
}

// What the long- and short-period terms take from the inclination. In deep space sgp4 makes them anew
// from the perturbed inclination at every time.
#[derive(Clone, Copy)]
pub struct Terms {
    pub con41: f64,
    pub x1mth2: f64,
    pub x7thm1: f64,
    pub xlcof: f64,
    pub aycof: f64,
}

// What sgp4 computes at every time and always the same: pow(xke / no, x2o3), sin(inclo), cos(inclo).
// Not in 002's record.
#[derive(Clone, Copy)]
pub struct Kept {
    pub ao: f64,
    pub sinio: f64,
    pub cosio: f64,
}

// All that a near-Earth satellite is made of; a deep-space satellite has it too. isimp is 1 in deep
// space and where the perigee is below 220 km.
#[derive(Clone, Copy)]
pub struct NearEarth {
    pub elements: Elements,
    pub isimp: bool,
    pub drag: Drag,
    pub higher: Higher,
    pub rates: Rates,
    pub terms: Terms,
    pub kept: Kept,
}

// What dscom keeps of one body, the Sun or the Moon, for dpper. 002 has these twice: for the Sun as
// se2, se3, si2, si3, sl2, sl3, sl4, sgh2, sgh3, sgh4, sh2, sh3, and for the Moon as
// ee2, e3, xi2, xi3, xl2, xl3, xl4, xgh2, xgh3, xgh4, xh2, xh3.
#[derive(Clone, Copy)]
pub struct Periodics {
    pub e2: f64,
    pub e3: f64,
    pub i2: f64,
    pub i3: f64,
    pub l2: f64,
    pub l3: f64,
    pub l4: f64,
    pub gh2: f64,
    pub gh3: f64,
    pub gh4: f64,
    pub h2: f64,
    pub h3: f64,
}

// Both bodies' terms and their mean longitudes at the epoch.
#[derive(Clone, Copy)]
pub struct LunarSolar {
    pub sun: Periodics,
    pub moon: Periodics,
    pub zmos: f64,
    pub zmol: f64,
}

// The secular rates of the Sun and the Moon together.
#[derive(Clone, Copy)]
pub struct SecularRates {
    pub dedt: f64,
    pub didt: f64,
    pub dmdt: f64,
    pub dnodt: f64,
    pub domdt: f64,
}

#[derive(Clone, Copy)]
pub struct OneDay {
    pub del1: f64,
    pub del2: f64,
    pub del3: f64,
}

#[derive(Clone, Copy)]
pub struct HalfDay {
    pub d2201: f64,
    pub d2211: f64,
    pub d3210: f64,
    pub d3222: f64,
    pub d4410: f64,
    pub d4422: f64,
    pub d5220: f64,
    pub d5232: f64,
    pub d5421: f64,
    pub d5433: f64,
}

#[derive(Clone, Copy)]
pub enum Resonance {
    None,
    OneDay(OneDay),
    HalfDay(HalfDay),
}

// What the integration rests on.
#[derive(Clone, Copy)]
pub struct Integrator {
    pub resonance: Resonance,
    pub xlamo: f64,
    pub xfact: f64,
    pub no: f64,
    pub argpo: f64,
    pub argpdot: f64,
    pub gsto: f64,
}

// What a deep-space satellite has besides.
#[derive(Clone, Copy)]
pub struct DeepSpace {
    pub rates: SecularRates,
    pub periodics: LunarSolar,
    pub integrator: Integrator,
}

// 002's method: 'n' or 'd'.
#[derive(Clone, Copy)]
pub enum Method {
    NearEarth,
    DeepSpace(DeepSpace),
}

// Everything about an opened satellite that no request changes. The epoch, which 002 keeps as jdsatepoch,
// is the record's instant: from it a request put by instant counts its time.
#[derive(Clone, Copy)]
pub struct Model {
    pub near: NearEarth,
    pub method: Method,
    pub epoch: Instant,
}
