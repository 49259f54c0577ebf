// Two times at once, which serves speed alone. A row is a chain of steps that wait for each other; the
// steps of two rows side by side fill each other's waits. Where either is refused there is no pair, and
// each is worked out by itself.
ghost use Rattle.std.specs.Prelude.{◌≡◌};
ghost use Rattle.state.specs.Two as W;

use crate::answer::Answer;
use crate::kepler::pairs::kepler_two;
use crate::orientation::state;
use crate::parts::{Mean, Plane, Ready, Secular, Short, Solved};
use crate::periodics::{
    ahead, decayed, in_plane, latus, long_period, negative_latus, plane_of, short_period,
};
use crate::secular::{angles, mean, no_motion, outside, secular};
use crate::sgp4::{given, unperturbed};
use elementary::{Two, atan2_two};
use instant::Minutes;
use satellite::NearEarth;

fn placed_two(s: Short, k: u8, u: Short, n: u8) -> Option<(Answer, Answer)>
    ensures { result ≡ W.placed_two s k u n }
{
    if decayed(s) | decayed(u) {
        return None;
    }
    let a = state(s);
    let b = state(u);
    Some((given(a, k), given(b, n)))
}

// Both in their planes.
fn planes(a: Solved, b: Solved) -> Two<Plane>
    ensures { (result.first ≡ W.plane_solved a) × (result.second ≡ W.plane_solved b) }
{
    let q = a.q;
    let e = a.e;
    let l = a.l;
    let ahead = a.a;
    let q2 = b.q;
    let e2 = b.e;
    let l2 = b.l;
    let ahead2 = b.a;
    let i = in_plane(q, e, a.am, ahead);
    let i2 = in_plane(q2, e2, b.am, ahead2);
    let su = atan2_two(i.sinu, i.cosu, i2.sinu, i2.cosu);
    let first = plane_of(i, su.first, l, ahead.betal);
    let second = plane_of(i2, su.second, l2, ahead2.betal);
    Two { first, second }
}

fn shortened_two(a: Solved, b: Solved) -> Option<(Answer, Answer)>
    ensures { result ≡ W.shortened_two a b }
{
    let p = a.p;
    let k = a.k;
    let l = a.l;
    let p2 = b.p;
    let k2 = b.k;
    let l2 = b.l;
    if negative_latus(l) | negative_latus(l2) {
        return None;
    }
    let both = planes(a, b);
    let c = both.first;
    let d = both.second;
    let s = short_period(p, a.a.nm, k, c);
    let u = short_period(p2, b.a.nm, k2, d);
    placed_two(s, a.e.rounds, u, b.e.rounds)
}

// From the long-period terms on.
fn periodics_two(a: Ready, b: Ready) -> Option<(Answer, Answer)>
    ensures { result ≡ W.periodics_two a b }
{
    let p = a.p;
    let am = a.am;
    let k = a.k;
    let p2 = b.p;
    let am2 = b.am;
    let k2 = b.k;
    let q = long_period(p, am, k);
    let q2 = long_period(p2, am2, k2);
    let l = latus(q, am);
    let l2 = latus(q2, am2);
    let first = ahead(am, l);
    let second = ahead(am2, l2);
    let solved = kepler_two(q, q2);
    let e = solved.first;
    let e2 = solved.second;
    let first = Solved {
        p,
        am,
        k,
        q,
        e,
        l,
        a: first,
    };
    let second = Solved {
        p: p2,
        am: am2,
        k: k2,
        q: q2,
        e: e2,
        l: l2,
        a: second,
    };
    shortened_two(first, second)
}

// The answers for two times that are ready for the long-period terms; None where either may be refused.
#[tactic(auto, unfolding(crate::specs::Two::pair_of))]
pub fn pair_of(r: Option<(Ready, Ready)>) -> Option<(Answer, Answer)>
    ensures { result ≡ W.pair_of r }
{
    let (a, b) = r?;
    periodics_two(a, b)
}

fn averaged_two(s: NearEarth, g: Secular, m: Mean, g2: Secular, m2: Mean) -> Option<(Ready, Ready)>
    ensures { result ≡ W.averaged_two s g m g2 m2 }
{
    if outside(m) | outside(m2) {
        return None;
    }
    let no = s.elements.no;
    let k = s.terms;
    let p = unperturbed(s, m.em, angles(no, g));
    let p2 = unperturbed(s, m2.em, angles(no, g2));
    Some((
        Ready { p, am: m.am, k },
        Ready {
            p: p2,
            am: m2.am,
            k,
        },
    ))
}

// A near-Earth satellite at two times since the epoch, up to the long-period terms; None where either is
// refused.
pub fn ready_two(s: NearEarth, t: Minutes, t2: Minutes) -> Option<(Ready, Ready)>
    ensures { result ≡ W.ready_two s t t2 }
{
    let g = secular(s, t);
    let g2 = secular(s, t2);
    if no_motion(s.elements.no) {
        return None;
    }
    let ao = s.kept.ao;
    let ecco = s.elements.ecco;
    averaged_two(s, g, mean(ao, ecco, g), g2, mean(ao, ecco, g2))
}
