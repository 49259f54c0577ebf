// 002's dspace from a position that the strides have reached: the secular update of the mean elements
// by the Sun and the Moon, and the last, partial step of the integration.
ghost use Rattle.std.specs.Prelude.{◌≡◌};
ghost use Rattle.resonance.specs.Dspace as D;

use crate::dots::Dots;
use crate::place::Place;
use instant::{Minutes, Radians};
use resonance_terms::dsinit::theta_of;
use satellite::{Integrator, Resonance, SecularRates};

// The mean elements that 002's dspace is handed and changes.
#[derive(Clone, Copy)]
pub struct Mean {
    pub nm: f64,
    pub em: f64,
    pub inclm: f64,
    pub argpm: f64,
    pub nodem: f64,
    pub mm: f64,
}

fn secular_update(s: SecularRates, m: Mean, t: f64) -> Mean
    ensures { result ≡ D.secular_update s m t }
{
    Mean {
        nm: m.nm,
        em: m.em + s.dedt * t,
        inclm: m.inclm + s.didt * t,
        argpm: m.argpm + s.domdt * t,
        nodem: m.nodem + s.dnodt * t,
        mm: m.mm + s.dmdt * t,
    }
}

fn nm_of(d: Dots, xni: f64, ft: f64) -> f64
    ensures { result ≡ D.nm_of d xni ft }
{
    xni + d.xndt * ft + d.xnddt * ft * ft * 0.5
}

fn xl_of(d: Dots, xli: f64, ft: f64) -> f64
    ensures { result ≡ D.xl_of d xli ft }
{
    xli + d.xldot * ft + d.xndt * ft * ft * 0.5
}

fn resonant_of(kind: Resonance, i: Integrator, nm: f64, xl: f64, theta: f64, m: Mean) -> Mean
    ensures { result ≡ D.resonant_of kind i nm xl theta m }
{
    match kind {
        Resonance::None => m,
        Resonance::OneDay(_) => Mean {
            nm: i.no + (nm - i.no),
            mm: xl - m.nodem - m.argpm + theta,
            ..m
        },
        Resonance::HalfDay(_) => Mean {
            nm: i.no + (nm - i.no),
            mm: xl - 2.0 * m.nodem + 2.0 * theta,
            ..m
        },
    }
}

// `p` is the position of the whole strides that the time `t` needs, and `d` are the derivatives there.
pub fn dspace_by(d: Dots, p: Place, i: Integrator, s: SecularRates, m: Mean, t: Minutes) -> Mean
    ensures { result ≡ D.dspace_by d p i s m t }
{
    let kind = i.resonance;
    let theta = theta_of(Radians(i.gsto), t);
    let ft = t.0 - p.atime();
    let nm = nm_of(d, p.xni, ft);
    let xl = xl_of(d, p.xli, ft);
    let updated = secular_update(s, m, t.0);
    resonant_of(kind, i, nm, xl, theta.0, updated)
}

pub fn dspace(p: Place, i: Integrator, s: SecularRates, m: Mean, t: Minutes) -> Mean
    ensures { result ≡ D.dspace_of p i s m t }
{
    let d = p.dots(i);
    dspace_by(d, p, i, s, m, t)
}
