// A position with the derivatives there, handed from one time of a list to the next, which serves speed
// alone: most times take no stride, and then the derivatives are those of the time before.
ghost use Rattle.std.specs.Prelude.{◌≡◌};
ghost use Rattle.resonance.specs.Held as E;

use crate::dots::Dots;
use crate::place::{Place, Side};
use instant::Strides;
use satellite::Integrator;

// The derivatives count only where they are known.
#[derive(Clone, Copy)]
pub struct Held {
    pub place: Place,
    pub dots: Dots,
    pub known: bool,
}

// A position whose derivatives are not known.
pub fn unknown(place: Place) -> Held
    ensures { result ≡ E.unknown place }
{
    Held {
        place,
        dots: Dots {
            xndt: 0.0,
            xldot: 0.0,
            xnddt: 0.0,
        },
        known: false,
    }
}

pub fn held_at(i: Integrator, place: Place) -> Held
    ensures { result ≡ E.held_at i place }
{
    let dots = place.dots(i);
    Held {
        place,
        dots,
        known: true,
    }
}

impl Held {
    // Whether a request for `m` strides on `side` takes none, and the derivatives are known.
    pub fn stays(self, side: Side, m: Strides) -> bool
        ensures { result ≡ E.stays self side m.0 }
    {
        let place = self.place;
        if !self.known {
            return false;
        }
        if place.strides.0 != m.0 {
            return false;
        }
        place.resumes(side, m)
    }
}
