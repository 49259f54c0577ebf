// Whether every number that sgp4init puts into 002's record is finite.
ghost use Rattle.std.specs.Prelude.{◌≡◌};
ghost use Rattle.near_earth.specs.Finite as F;

use elementary::is_finite;
use satellite::{Drag, Elements, Higher, NearEarth, Rates, Terms};

fn finite_elements(e: Elements) -> bool
    ensures { result ≡ F.finite_elements e }
{
    is_finite(e.bstar)
        & is_finite(e.ecco)
        & is_finite(e.argpo)
        & is_finite(e.inclo)
        & is_finite(e.mo)
        & is_finite(e.no)
        & is_finite(e.nodeo)
}

fn finite_drag(d: Drag) -> bool
    ensures { result ≡ F.finite_drag d }
{
    is_finite(d.eta)
        & is_finite(d.cc1)
        & is_finite(d.cc4)
        & is_finite(d.cc5)
        & is_finite(d.omgcof)
        & is_finite(d.xmcof)
        & is_finite(d.t2cof)
        & is_finite(d.delmo)
        & is_finite(d.sinmao)
}

fn finite_higher(h: Higher) -> bool
    ensures { result ≡ F.finite_higher h }
{
    is_finite(h.d2)
        & is_finite(h.d3)
        & is_finite(h.d4)
        & is_finite(h.t3cof)
        & is_finite(h.t4cof)
        & is_finite(h.t5cof)
}

fn finite_rates(r: Rates) -> bool
    ensures { result ≡ F.finite_rates r }
{
    is_finite(r.mdot) & is_finite(r.argpdot) & is_finite(r.nodedot) & is_finite(r.nodecf)
}

fn finite_terms(t: Terms) -> bool
    ensures { result ≡ F.finite_terms t }
{
    is_finite(t.con41)
        & is_finite(t.x1mth2)
        & is_finite(t.x7thm1)
        & is_finite(t.xlcof)
        & is_finite(t.aycof)
}

pub fn finite_near(n: NearEarth) -> bool
    ensures { result ≡ F.finite_near n }
{
    let elements = n.elements;
    let drag = n.drag;
    let higher = n.higher;
    let rates = n.rates;
    let terms = n.terms;
    finite_elements(elements)
        & finite_drag(drag)
        & finite_higher(higher)
        & finite_rates(rates)
        & finite_terms(terms)
}
