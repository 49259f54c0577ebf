// Whether every number kept of the Sun and the Moon is finite: a part of refusal 8.
ghost use Rattle.std.specs.Prelude.{◌≡◌};
ghost use Rattle.lunar_solar.specs.Finite as F;

use elementary::is_finite;
use satellite::{LunarSolar, Periodics, SecularRates};

fn finite_periodics(p: Periodics) -> bool
    ensures { result ≡ F.finite_periodics p }
{
    is_finite(p.e2)
        & is_finite(p.e3)
        & is_finite(p.i2)
        & is_finite(p.i3)
        & is_finite(p.l2)
        & is_finite(p.l3)
        & is_finite(p.l4)
        & is_finite(p.gh2)
        & is_finite(p.gh3)
        & is_finite(p.gh4)
        & is_finite(p.h2)
        & is_finite(p.h3)
}

pub fn finite_lunar_solar(ls: LunarSolar) -> bool
    ensures { result ≡ F.finite_lunar_solar ls }
{
    let sun = ls.sun;
    let moon = ls.moon;
    finite_periodics(sun) & finite_periodics(moon) & is_finite(ls.zmos) & is_finite(ls.zmol)
}

pub fn finite_rates(s: SecularRates) -> bool
    ensures { result ≡ F.finite_rates s }
{
    is_finite(s.dedt)
        & is_finite(s.didt)
        & is_finite(s.dmdt)
        & is_finite(s.dnodt)
        & is_finite(s.domdt)
}
