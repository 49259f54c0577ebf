// Kepler's equation for two times, round by round, which serves speed alone: a round is a chain of steps
// that wait for each other, and the rounds of two times side by side fill each other's waits.
ghost use Rattle.std.specs.Prelude.{◌≡◌};
ghost use Rattle.state.specs.Kepler as P;
ghost use Rattle.state.specs.Two as W;

use crate::kepler::{begun, corrected, unsettled};
use crate::parts::{Anomaly, Long};
use elementary::Two;

// The k-th round, where one is left to do.
fn gone_on(q: Long, a: Anomaly, k: u8) -> Anomaly
    ensures { result ≡ W.gone_on q a k }
{
    if unsettled(a) {
        return corrected(q, a.eo1, k);
    }
    a
}

pub fn kepler_two(q: Long, q2: Long) -> Two<Anomaly>
    ensures { (result.first ≡ P.kepler q) × (result.second ≡ P.kepler q2) }
{
    let mut a = begun(q);
    let mut b = begun(q2);
    for n in 0..10 {
        if !(unsettled(a) | unsettled(b)) {
            return Two {
                first: a,
                second: b,
            };
        }
        a = gone_on(q, a, n + 1);
        b = gone_on(q2, b, n + 1);
    }
    Two {
        first: a,
        second: b,
    }
}
