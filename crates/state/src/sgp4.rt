// 002's sgp4 for a near-Earth satellite, and its steps from the perturbed elements on.
ghost use Rattle.std.specs.Prelude.{◌≡◌};
ghost use Rattle.state.specs.Ahead as W;
ghost use Rattle.state.specs.Kept as K;
ghost use Rattle.state.specs.Sgp4 as R;

use crate::answer::{Answer, Refusal, State};
use crate::kepler::kepler;
use crate::orientation::{finite_state, state};
use crate::parts::{Ahead, Angles, Anomaly, Latus, Long, Mean, Perturbed, Secular, Short};
use crate::periodics::{ahead, decayed, latus, long_period, negative_latus, plane, short_period};
use crate::secular::{angles, mean, mended, no_motion, outside, secular};
use instant::Minutes;
use satellite::{NearEarth, Terms};

pub mod pairs;

fn given(s: State, rounds: u8) -> Answer
    ensures { result ≡ R.given s rounds }
{
    if finite_state(s) {
        return Ok((s, rounds));
    }
    Err(Refusal::NotFinite)
}

fn placed(s: Short, rounds: u8) -> Answer
    ensures { result ≡ R.placed s rounds }
{
    if decayed(s) {
        return Err(Refusal::Decayed);
    }
    given(state(s), rounds)
}

fn shortened(p: Perturbed, am: f64, k: Terms, q: Long, e: Anomaly, l: Latus, a: Ahead) -> Answer
    ensures { result ≡ W.shortened_from p am k q e l a }
{
    if negative_latus(l) {
        return Err(Refusal::SemiLatusRectum);
    }
    placed(short_period(p, a.nm, k, plane(q, e, am, l, a)), e.rounds)
}

// From the long-period terms on.
pub fn periodics(p: Perturbed, am: f64, k: Terms) -> Answer
    ensures { result ≡ R.periodics p am k }
{
    let q = long_period(p, am, k);
    let l = latus(q, am);
    let a = ahead(am, l);
    let e = kepler(q);
    shortened(p, am, k, q, e, l, a)
}

// A near-Earth satellite's perturbed elements are the mean ones.
fn unperturbed(s: NearEarth, em: f64, a: Angles) -> Perturbed
    ensures { result ≡ K.unperturbed_from s em a }
{
    let ep = mended(em);
    Perturbed {
        ep,
        xincp: s.elements.inclo,
        argpp: a.argpm,
        nodep: a.nodem,
        mp: a.mm,
        sinip: s.kept.sinio,
        cosip: s.kept.cosio,
    }
}

fn averaged(s: NearEarth, g: Secular, m: Mean) -> Answer
    ensures { result ≡ K.averaged_from s g m }
{
    if outside(m) {
        return Err(Refusal::MeanElements);
    }
    let p = unperturbed(s, m.em, angles(s.elements.no, g));
    let k = s.terms;
    periodics(p, m.am, k)
}

// The state at a time since the epoch.
pub fn sgp4(s: NearEarth, tsince: Minutes) -> Answer
    ensures { result ≡ K.sgp4_from s tsince }
{
    let g = secular(s, tsince);
    if no_motion(s.elements.no) {
        return Err(Refusal::MeanMotion);
    }
    averaged(s, g, mean(s.kept.ao, s.elements.ecco, g))
}
