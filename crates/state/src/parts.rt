// What one step of sgp4 hands to the next, under 002's names.
use satellite::Terms;

// The angles and the drag at a time.
#[derive(Clone, Copy)]
pub struct Secular {
    pub mm: f64,
    pub argpm: f64,
    pub nodem: f64,
    pub tempa: f64,
    pub tempe: f64,
    pub templ: f64,
}

// The mean semi-major axis and eccentricity.
#[derive(Clone, Copy)]
pub struct Mean {
    pub am: f64,
    pub em: f64,
}

// The mean angles, each less whole turns.
#[derive(Clone, Copy)]
pub struct Angles {
    pub nodem: f64,
    pub argpm: f64,
    pub mm: f64,
}

// The elements with the lunar-solar periodics.
#[derive(Clone, Copy)]
pub struct Perturbed {
    pub ep: f64,
    pub xincp: f64,
    pub argpp: f64,
    pub nodep: f64,
    pub mp: f64,
    pub sinip: f64,
    pub cosip: f64,
}

// What the long-period terms begin with.
#[derive(Clone, Copy)]
pub struct Ready {
    pub p: Perturbed,
    pub am: f64,
    pub k: Terms,
}

// With the long-period terms.
#[derive(Clone, Copy)]
pub struct Long {
    pub axnl: f64,
    pub aynl: f64,
    pub u: f64,
}

// The eccentric anomaly after some rounds, the last correction, and the sine and cosine that
// the last round took.
#[derive(Clone, Copy)]
pub struct Anomaly {
    pub eo1: f64,
    pub tem5: f64,
    pub sineo1: f64,
    pub coseo1: f64,
    pub rounds: u8,
}

// The semi-latus rectum, with el2, of which it is made.
#[derive(Clone, Copy)]
pub struct Latus {
    pub el2: f64,
    pub pl: f64,
}

// What does not wait for Kepler's equation and is begun before it: the roots of am, pl and 1 - el2, and
// the mean motion nm of am.
#[derive(Clone, Copy)]
pub struct Ahead {
    pub root: f64,
    pub nm: f64,
    pub rootpl: f64,
    pub betal: f64,
}

// What is known of a time once Kepler's equation is solved.
#[derive(Clone, Copy)]
pub struct Solved {
    pub p: Perturbed,
    pub am: f64,
    pub k: Terms,
    pub q: Long,
    pub e: Anomaly,
    pub l: Latus,
    pub a: Ahead,
}

// Position and velocity in the orbit's plane, but for the angle of sinu and cosu.
#[derive(Clone, Copy)]
pub struct InPlane {
    pub rl: f64,
    pub rdotl: f64,
    pub rvdotl: f64,
    pub sinu: f64,
    pub cosu: f64,
}

// Position and velocity in the orbit's plane.
#[derive(Clone, Copy)]
pub struct Plane {
    pub rl: f64,
    pub rdotl: f64,
    pub rvdotl: f64,
    pub betal: f64,
    pub su: f64,
    pub sin2u: f64,
    pub cos2u: f64,
    pub temp1: f64,
    pub temp2: f64,
}

// With the short-period terms.
#[derive(Clone, Copy)]
pub struct Short {
    pub mrt: f64,
    pub su: f64,
    pub xnode: f64,
    pub xinc: f64,
    pub mvt: f64,
    pub rvdot: f64,
}
