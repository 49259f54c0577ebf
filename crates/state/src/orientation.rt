// 002's sgp4: orientation vectors, position and velocity.
ghost use Rattle.std.specs.Prelude.{◌≡◌};
ghost use Rattle.state.specs.Orientation as O;

use crate::answer::State;
use crate::parts::Short;
use elementary::{SinCos, is_finite, sin_cos};
use wgs72::{RADIUSEARTHKM, vkmpersec};

fn oriented(s: Short, su: SinCos, xnode: SinCos, xinc: SinCos, v: f64) -> State
    ensures { result ≡ O.oriented s su xnode xinc v }
{
    let sinsu = su.sin;
    let cossu = su.cos;
    let snod = xnode.sin;
    let cnod = xnode.cos;
    let sini = xinc.sin;
    let cosi = xinc.cos;
    let xmx = -snod * cosi;
    let xmy = cnod * cosi;
    let ux = xmx * sinsu + cnod * cossu;
    let uy = xmy * sinsu + snod * cossu;
    let uz = sini * sinsu;
    let vx = xmx * cossu - cnod * sinsu;
    let vy = xmy * cossu - snod * sinsu;
    let vz = sini * cossu;
    State {
        rx: (s.mrt * ux) * RADIUSEARTHKM,
        ry: (s.mrt * uy) * RADIUSEARTHKM,
        rz: (s.mrt * uz) * RADIUSEARTHKM,
        vx: (s.mvt * ux + s.rvdot * vx) * v,
        vy: (s.mvt * uy + s.rvdot * vy) * v,
        vz: (s.mvt * uz + s.rvdot * vz) * v,
    }
}

pub fn state(s: Short) -> State
    ensures { result ≡ O.state s }
{
    // su comes last of the three: it waits for the arctangent.
    let xnode = sin_cos(s.xnode);
    let xinc = sin_cos(s.xinc);
    let su = sin_cos(s.su);
    oriented(s, su, xnode, xinc, vkmpersec())
}

pub fn finite_state(s: State) -> bool
    ensures { result ≡ O.finite_state s }
{
    is_finite(s.rx)
        & is_finite(s.ry)
        & is_finite(s.rz)
        & is_finite(s.vx)
        & is_finite(s.vy)
        & is_finite(s.vz)
}
