// The rows of two times side by side, which serves speed alone.
ghost use Rattle.std.specs.Prelude.{◌≡◌};
ghost use Rattle.sgp4.specs.Two as W;

use crate::deep_space::pairs::deep_two;
use crate::{Row, row_at, row_of};
use elementary::Two;
use instant::{Microseconds, Minutes, to_minutes};
use resonance::held::Held;
use satellite::{Method, Model, NearEarth};
use state::parts::Ready;
use state::sgp4::pairs::{pair_of, ready_two};

fn ready_by(
    s: NearEarth,
    method: Method,
    h: Held,
    t: Minutes,
    h2: Held,
    t2: Minutes,
) -> Option<(Ready, Ready)>
    ensures { result ≡ W.ready_by s method h t h2 t2 }
{
    match method {
        Method::NearEarth => ready_two(s, t, t2),
        Method::DeepSpace(d) => deep_two(s, d, h, t, h2, t2),
    }
}

// The rows of two times in range, side by side; `h` and `h2` are the positions of the whole strides that
// they need, with the derivatives there.
pub fn rows_at(model: Model, h: Held, t: Microseconds, h2: Held, t2: Microseconds) -> Two<Row>
    ensures { result ≡ W.rows_by model h t.0 h2 t2.0 }
{
    let near = model.near;
    let method = model.method;
    match pair_of(ready_by(near, method, h, to_minutes(t), h2, to_minutes(t2))) {
        Some((a, b)) => Two {
            first: row_of(a),
            second: row_of(b),
        },
        None => {
            let p = h.place;
            let p2 = h2.place;
            Two {
                first: row_at(model, p, t),
                second: row_at(model, p2, t2),
            }
        }
    }
}
