// 002's sgp4: Kepler's equation.
ghost use Rattle.std.specs.Prelude.{◌≡◌, ◌+◌, ◌<◌};
ghost use Rattle.state.specs.Kepler as P;

use crate::parts::{Anomaly, Long};
use elementary::{abs, sin_cos};

pub mod pairs;

// A correction, held within 0.95.
fn held(tem5: f64) -> f64
    ensures { result ≡ P.held tem5 }
{
    let size = abs(tem5);
    if size >= 0.95 {
        if tem5 > 0.0 {
            return 0.95;
        }
        return -0.95;
    }
    tem5
}

// The k-th round, from eo1.
fn corrected(q: Long, eo1: f64, k: u8) -> Anomaly
    ensures { result ≡ P.corrected q eo1 k }
{
    let e = sin_cos(eo1);
    let sineo1 = e.sin;
    let coseo1 = e.cos;
    let tem5 = 1.0 - coseo1 * q.axnl - sineo1 * q.aynl;
    let tem5 = held((q.u - q.aynl * coseo1 + q.axnl * sineo1 - eo1) / tem5);
    Anomaly {
        eo1: eo1 + tem5,
        tem5,
        sineo1,
        coseo1,
        rounds: k,
    }
}

fn unsettled(k: Anomaly) -> bool
    ensures { result ≡ P.unsettled k }
{
    abs(k.tem5) >= 1.0e-12
}

fn begun(q: Long) -> Anomaly
    ensures { result ≡ P.begun q }
{
    Anomaly {
        eo1: q.u,
        tem5: 9999.9,
        sineo1: 0.0,
        coseo1: 0.0,
        rounds: 0,
    }
}

pub fn kepler(q: Long) -> Anomaly
    ensures { result ≡ P.kepler q }
{
    let mut k = begun(q);
    for n in 0..10 {
        if !unsettled(k) {
            return k;
        }
        k = corrected(q, k.eo1, n + 1);
    }
    k
}
