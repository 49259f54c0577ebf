// What opening a record comes to in a word: the kind of the satellite, or why there is none; and how deep
// a perigee lies.
#![tactic(auto)]

ghost use Rattle.std.specs.Prelude.{◌≡◌};
ghost use Rattle.opening.specs.Opening.{open_of};
ghost use Rattle.satellite_kind.specs.Kind as K;

use instant::Radians;
use near_earth::initl::initl;
use opening::elements::elements_of;
use opening::opening::{Refusal, Satellite, open};
use satellite::{Method, Resonance};
use tle::Record;
use wgs72::RADIUSEARTHKM;

// Document 01's kinds of satellites, and refusals 7, 8 and 16.
#[derive(Clone, Copy)]
pub enum Kind {
    NearEarth,
    DeepSpace,
    OneDay,
    HalfDay,
    Perigee,
    NotFinite,
    NoRecord,
}

fn resonance_kind(resonance: Resonance) -> Kind
    ensures { result ≡ K.resonance_kind resonance }
{
    match resonance {
        Resonance::None => Kind::DeepSpace,
        Resonance::OneDay(_) => Kind::OneDay,
        Resonance::HalfDay(_) => Kind::HalfDay,
    }
}

fn method_kind(method: Method) -> Kind
    ensures { result ≡ K.method_kind method }
{
    match method {
        Method::NearEarth => Kind::NearEarth,
        Method::DeepSpace(d) => {
            let integrator = d.integrator;
            let resonance = integrator.resonance;
            resonance_kind(resonance)
        }
    }
}

fn refusal_kind(why: Refusal) -> Kind
    ensures { result ≡ K.refusal_kind why }
{
    match why {
        Refusal::Record => Kind::NoRecord,
        Refusal::Perigee => Kind::Perigee,
        Refusal::NotFinite => Kind::NotFinite,
    }
}

fn opening_kind(opening: Result<Satellite, Refusal>) -> Kind
    ensures { result ≡ K.opening_kind opening }
{
    match opening {
        Ok(s) => {
            let model = s.model;
            let method = model.method;
            method_kind(method)
        }
        Err(why) => refusal_kind(why),
    }
}

pub fn kind_of(r: Record) -> Kind
    ensures { result ≡ K.opening_kind (open_of r) }
{
    opening_kind(open(r))
}

// How many km the perigee at the epoch, by which refusal 7 is judged, lies below the ground.
pub fn perigee_depth(r: Record) -> f64
    ensures { result ≡ K.perigee_depth r }
{
    let el = elements_of(r);
    let i = initl(el.ecco, Radians(el.inclo), el.no);
    (1.0 - i.rp) * RADIUSEARTHKM
}
