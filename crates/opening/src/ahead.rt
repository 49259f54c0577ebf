// The longest steps of the deep-space set-up, begun ahead of the near-Earth part: a device for speed.
// `deep_space` has 002's steps, and proofs/AheadSame shows that they come to the same.
ghost use Rattle.std.specs.Prelude.{◌≡◌};
ghost use Rattle.opening.specs.Ahead as W;

use instant::{Days, Minutes, Radians};
use lunar_solar::dscom::{Angles, Lunar, angles_of, lunar_of};
use resonance_terms::dsinit::aonv_ahead;
use satellite::Elements;

// What deep space needs of the epoch, the elements and the mean motion alone. Its steps are long, and
// nothing of the near-Earth part waits for them, nor they for it: begun first, they run beside it.
#[derive(Clone, Copy)]
pub struct Ahead {
    pub aonv: f64,
    pub angles: Angles,
    pub lunar: Lunar,
}

// `no` is the recovered mean motion.
pub fn ahead_of(epoch: Days, el: Elements, no: f64) -> Ahead
    ensures { result ≡ W.ahead_of epoch.0 el no }
{
    let aonv = aonv_ahead(no, el.ecco);
    let lunar = lunar_of(epoch, Minutes(0.0));
    let angles = angles_of(Radians(el.argpo), Radians(el.inclo), Radians(el.nodeo));
    Ahead {
        aonv,
        angles,
        lunar,
    }
}
