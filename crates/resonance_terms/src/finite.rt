// Whether every number kept of the resonance is finite: a part of refusal 8.
ghost use Rattle.std.specs.Prelude.{◌≡◌};
ghost use Rattle.resonance_terms.specs.Finite as F;

use elementary::is_finite;
use satellite::{HalfDay, Integrator, OneDay, Resonance};

fn finite_one_day(d: OneDay) -> bool
    ensures { result ≡ F.finite_one_day d }
{
    is_finite(d.del1) & is_finite(d.del2) & is_finite(d.del3)
}

fn finite_half_day(h: HalfDay) -> bool
    ensures { result ≡ F.finite_half_day h }
{
    is_finite(h.d2201)
        & is_finite(h.d2211)
        & is_finite(h.d3210)
        & is_finite(h.d3222)
        & is_finite(h.d4410)
        & is_finite(h.d4422)
        & is_finite(h.d5220)
        & is_finite(h.d5232)
        & is_finite(h.d5421)
        & is_finite(h.d5433)
}

fn finite_kind(kind: Resonance) -> bool
    ensures { result ≡ F.finite_kind kind }
{
    match kind {
        Resonance::None => true,
        Resonance::OneDay(d) => finite_one_day(d),
        Resonance::HalfDay(h) => finite_half_day(h),
    }
}

pub fn finite_integrator(i: Integrator) -> bool
    ensures { result ≡ F.finite_integrator i }
{
    let kind = i.resonance;
    finite_kind(kind)
        & is_finite(i.xlamo)
        & is_finite(i.xfact)
        & is_finite(i.no)
        & is_finite(i.argpo)
        & is_finite(i.argpdot)
        & is_finite(i.gsto)
}
