// The state of a satellite at a time: 002's sgp4 over both of its methods, as document 01's row. Each
// function is, bit for bit, its definition in specs/, where the comments give 002's lines. Any satellite
// may be handed in; of one that was opened the row is 002's own (specs/Claims).
#![tactic(auto)]

ghost use Rattle.std.specs.Prelude.{◌≡◌};
ghost use Rattle.sgp4.specs.Sgp4 as S;
ghost use Rattle.sgp4.specs.Row as R;
ghost use Rattle.sgp4.specs.Kept as K;

use deep_space::deep_space;
use instant::{Microseconds, Minutes, to_minutes};
use resonance::place::Place;
use satellite::{Integrator, Method, Model, NearEarth, Resonance};
use state::answer::{Answer, number};

pub mod deep_space;
pub mod pairs;

// A refusal number (0 when answered), position in km, velocity in km/s, and the Kepler rounds.
#[derive(Clone, Copy)]
pub struct Row {
    pub refusal: u8,
    pub x: f64,
    pub y: f64,
    pub z: f64,
    pub vx: f64,
    pub vy: f64,
    pub vz: f64,
    pub rounds: u8,
}

fn state_by(s: NearEarth, method: Method, p: Place, t: Minutes) -> Answer
    ensures { result ≡ K.state_by_from s method p t }
{
    match method {
        Method::NearEarth => state::sgp4::sgp4(s, t),
        Method::DeepSpace(d) => deep_space(s, d, p, t),
    }
}

// The state at `t`; `p` is the position of the whole strides that `t` needs.
pub fn state_at(model: Model, p: Place, t: Minutes) -> Answer
    ensures { result ≡ K.state_from model p t }
{
    let near = model.near;
    let method = model.method;
    state_by(near, method, p, t)
}

fn no_integrator() -> Integrator
    ensures { result ≡ S.no_integrator }
{
    Integrator {
        resonance: Resonance::None,
        xlamo: 0.0,
        xfact: 0.0,
        no: 0.0,
        argpo: 0.0,
        argpdot: 0.0,
        gsto: 0.0,
    }
}

// What the strides of any satellite are counted and taken by.
pub fn integrator_of(model: Model) -> Integrator
    ensures { result ≡ S.integrator_of model }
{
    let method = model.method;
    match method {
        Method::NearEarth => no_integrator(),
        Method::DeepSpace(d) => d.integrator,
    }
}

pub fn refused_row(number: u8) -> Row
    ensures { result ≡ R.refused_row number }
{
    Row {
        refusal: number,
        x: 0.0,
        y: 0.0,
        z: 0.0,
        vx: 0.0,
        vy: 0.0,
        vz: 0.0,
        rounds: 0,
    }
}

// What 002's sgp4 answers, as a row.
pub fn row_of(answer: Answer) -> Row
    ensures { result ≡ R.row_of answer }
{
    match answer {
        Ok((s, rounds)) => Row {
            refusal: 0,
            x: s.rx,
            y: s.ry,
            z: s.rz,
            vx: s.vx,
            vy: s.vy,
            vz: s.vz,
            rounds,
        },
        Err(why) => refused_row(number(why)),
    }
}

// The row of a time in range; `p` is the position of the whole strides that it needs.
pub fn row_at(model: Model, p: Place, t: Microseconds) -> Row
    ensures { result ≡ K.row_from model p t.0 }
{
    row_of(state_at(model, p, to_minutes(t)))
}
