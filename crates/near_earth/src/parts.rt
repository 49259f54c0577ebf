// What one step of the set-up hands to the next, under 002's names.

// What initl gives.
#[derive(Clone, Copy)]
pub struct Initl {
    pub no: f64,
    pub ao: f64,
    pub con41: f64,
    pub con42: f64,
    pub cosio: f64,
    pub cosio2: f64,
    pub eccsq: f64,
    pub omeosq: f64,
    pub posq: f64,
    pub rp: f64,
    pub rteosq: f64,
    pub sinio: f64,
}

// sgp4init: the heights of the density function.
#[derive(Clone, Copy)]
pub struct Atmosphere {
    pub sfour: f64,
    pub qzms24: f64,
}

// sgp4init: what the drag terms are made of.
#[derive(Clone, Copy)]
pub struct Shape {
    pub tsi: f64,
    pub eta: f64,
    pub etasq: f64,
    pub eeta: f64,
    pub psisq: f64,
    pub coef: f64,
    pub coef1: f64,
}
