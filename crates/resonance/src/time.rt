// From a time to the strides that it needs.
ghost use Rattle.std.specs.Prelude.{◌≡◌};
ghost use Rattle.resonance.specs.Time as T;

use crate::place::Side;
use instant::{Microseconds, Strides, distance};
use satellite::{Integrator, Resonance};

pub fn side_of(t: Microseconds) -> Side
    ensures { result ≡ T.side_of t.0 }
{
    let x = t.0;
    if x < 0 { Side::Back } else { Side::Forward }
}

// Within 3,652 days of the epoch.
pub fn in_range(t: Microseconds) -> bool
    ensures { result ≡ T.in_range t.0 }
{
    distance(t) <= 315_532_800_000_000
}

fn is_resonant(kind: Resonance) -> bool
    ensures { result ≡ T.resonant kind }
{
    !matches!(kind, Resonance::None)
}

// The whole strides of 12 hours in a time's distance; none without resonance.
pub fn stride_need(i: Integrator, t: Microseconds) -> Strides
    ensures { result.0 ≡ T.stride_need i t.0 }
{
    let kind = i.resonance;
    let x = distance(t);
    if is_resonant(kind) {
        let n = x / 43_200_000_000;
        Strides(n as u32)
    } else {
        Strides(0)
    }
}
