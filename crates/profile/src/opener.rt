// Opening a record: refusals 16, 7, 32 and 8, in this order.
ghost use Rattle.std.specs.Prelude.{◌≡◌, true};
ghost use Rattle.instant.specs.Calendar.{in_calendar, epoch_of};
ghost use Rattle.instant.specs.Greenwich.{epoch_days_of, greenwich_of};
ghost use Rattle.near_earth.specs.Initl.{deep_space};
ghost use Rattle.opening.specs.Opening as F;
ghost use Rattle.profile.specs.Opening as O;

use instant::{Instant, Radians, epoch_instant};
use near_earth::finite::finite_near;
use near_earth::initl::{initl, is_deep_space};
use near_earth::parts::Initl;
use near_earth::sgp4init::near_earth;
use opening::elements::elements_of;
use satellite::{Elements, NearEarth};
use tle::{Record, legal};

// Why a record does not open in the profile.
#[derive(Clone, Copy)]
pub enum Refusal {
    Record,
    Perigee,
    DeepSpace,
    NotFinite,
}

impl Refusal {
    // The documents' number of the refusal.
    pub fn number(self) -> u64
        ensures { result ≡ O.number self }
    {
        match self {
            Refusal::Record => 16,
            Refusal::Perigee => 7,
            Refusal::DeepSpace => 32,
            Refusal::NotFinite => 8,
        }
    }
}

// Every number but the Greenwich angle, which at an instant of the calendar is finite (crate
// finite_angle); no other instant comes here.
fn checked(near: NearEarth, t: Instant) -> Result<(NearEarth, Instant), Refusal>
    requires { in_calendar t.0 ≡ true }
    ensures { result ≡ O.near_checked near t }
{
    if finite_near(near) {
        return Ok((near, t));
    }
    Err(Refusal::NotFinite)
}

fn above(el: Elements, i: Initl, t: Instant) -> Result<(NearEarth, Instant), Refusal>
    requires { in_calendar t.0 ≡ true }
    ensures { result ≡ O.narrow (deep_space i) (F.above el i t (epoch_days_of t.0) (greenwich_of t.0)) }
{
    if i.rp < 1.0 {
        return Err(Refusal::Perigee);
    }
    if is_deep_space(i) {
        return Err(Refusal::DeepSpace);
    }
    let near = near_earth(el, i, false);
    checked(near, t)
}

fn started(el: Elements, t: Instant) -> Result<(NearEarth, Instant), Refusal>
    requires { in_calendar t.0 ≡ true }
    ensures { result ≡ O.narrow (O.is_deep el) (F.started el t) }
{
    let i = initl(el.ecco, Radians(el.inclo), el.no);
    above(el, i, t)
}

fn dated(r: Record, epoch: Option<Instant>) -> Result<(NearEarth, Instant), Refusal>
    requires { epoch ≡ epoch_of r.year r.day }
    ensures { result ≡ O.narrowed r (F.dated r epoch) }
{
    match epoch {
        Some(t) => started(elements_of(r), t),
        None => Err(Refusal::Record),
    }
}

// Opens a record that reading gave: such a record is legal and need not be judged again.
pub fn open_read(r: Record) -> Result<(NearEarth, Instant), Refusal>
    ensures { result ≡ O.open_read_of r }
{
    dated(r, epoch_instant(r.year, r.day))
}

pub fn open(r: Record) -> Result<(NearEarth, Instant), Refusal>
    ensures { result ≡ O.open_of r }
{
    if legal(r) {
        return open_read(r);
    }
    Err(Refusal::Record)
}
