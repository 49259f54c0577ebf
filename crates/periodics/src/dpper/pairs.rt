// The periodics of two times side by side, which serves speed alone: they are a chain of steps that wait
// for each other, and those of two times fill each other's waits.
ghost use Rattle.std.specs.Prelude.{◌≡◌, false};
ghost use Rattle.periodics.specs.Dpper as D;

use crate::dpper::{Changes, Perturbed, applied, changes_at, inclined, lyddane_at, lyddane_point};
use elementary::{Two, atan2, sin_cos};
use instant::Minutes;
use satellite::LunarSolar;

// What is applied to a time's elements, with the sine and the cosine of their inclination.
#[derive(Clone, Copy)]
pub struct Applying {
    pub k: Changes,
    pub x: Perturbed,
    pub sinip: f64,
    pub cosip: f64,
}

// Not by `atan2_two`: with a second caller it would be laid into neither, and every row be slower.
fn lyddane_two(a: Applying, b: Applying) -> Two<Perturbed>
    ensures { (result.first ≡ D.lyddane_of a.k a.x a.sinip a.cosip) × (result.second ≡ D.lyddane_of b.k b.x b.sinip b.cosip) }
{
    let k = a.k;
    let x = a.x;
    let k2 = b.k;
    let x2 = b.x;
    let p = lyddane_point(k, x, a.sinip, a.cosip);
    let p2 = lyddane_point(k2, x2, b.sinip, b.cosip);
    let node = atan2(p.alfdp, p.betdp);
    let node2 = atan2(p2.alfdp, p2.betdp);
    let first = lyddane_at(node, k, x, a.sinip, a.cosip);
    let second = lyddane_at(node2, k2, x2, b.sinip, b.cosip);
    Two { first, second }
}

fn applied_two(a: Applying, b: Applying) -> Two<Perturbed>
    ensures { (result.first ≡ D.applied_of a.k a.x a.sinip a.cosip) × (result.second ≡ D.applied_of b.k b.x b.sinip b.cosip) }
{
    let k = a.k;
    let x = a.x;
    let k2 = b.k;
    let x2 = b.x;
    if (x.inclp >= 0.2) | (x2.inclp >= 0.2) {
        let first = applied(k, x, a.sinip, a.cosip);
        let second = applied(k2, x2, b.sinip, b.cosip);
        return Two { first, second };
    }
    lyddane_two(a, b)
}

// dpper at t and at t2.
pub fn dpper_two(
    ls: LunarSolar,
    t: Minutes,
    x: Perturbed,
    t2: Minutes,
    x2: Perturbed,
) -> Two<Perturbed>
    ensures { (result.first ≡ D.dpper_of false ls t x) × (result.second ≡ D.dpper_of false ls t2 x2) }
{
    let k = changes_at(ls, t.0);
    let k2 = changes_at(ls, t2.0);
    let y = inclined(k, x);
    let y2 = inclined(k2, x2);
    let ip = sin_cos(y.inclp);
    let ip2 = sin_cos(y2.inclp);
    let a = Applying {
        k,
        x: y,
        sinip: ip.sin,
        cosip: ip.cos,
    };
    let b = Applying {
        k: k2,
        x: y2,
        sinip: ip2.sin,
        cosip: ip2.cos,
    };
    applied_two(a, b)
}
