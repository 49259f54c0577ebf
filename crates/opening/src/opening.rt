// Opening a record, or two lines.
ghost use Rattle.std.specs.Prelude.{◌≡◌, true};
ghost use Rattle.instant.specs.Calendar.{in_calendar, epoch_of};
ghost use Rattle.instant.specs.Greenwich.{epoch_days_of, greenwich_of};
ghost use Rattle.opening.specs.declared.opening.PairRefusal.TheVariants as pair;
ghost use Rattle.opening.specs.Opening as O;

use crate::ahead::ahead_of;
use crate::deep_space::deep_space;
use crate::elements::elements_of;
use elementary::is_finite;
use instant::{Days, Instant, Radians, Strides, epoch_days, epoch_instant, greenwich};
use lunar_solar::finite::{finite_lunar_solar, finite_rates};
use near_earth::finite::finite_near;
use near_earth::initl::{initl, is_deep_space};
use near_earth::parts::Initl;
use near_earth::sgp4init::near_earth;
use resonance::place::{Place, Side, epoch_place};
use resonance_terms::finite::finite_integrator;
use satellite::{DeepSpace, Elements, Method, Model};
use tle::{Record, legal, read_form, read_meaning};

// An opened satellite: what no request changes, and the saved position.
#[derive(Clone, Copy)]
pub struct Satellite {
    pub model: Model,
    pub place: Place,
}

// Why a record does not open: document 01's refusals 16, 7 and 8.
#[derive(Clone, Copy)]
pub enum Refusal {
    Record,
    Perigee,
    NotFinite,
}

// Why two lines do not open: reading refuses them, with 1 to 6, or opening their record does.
#[derive(Clone, Copy)]
pub enum PairRefusal {
    Unread(tle::Refusal),
    Refused(Refusal),
}

impl From<tle::Refusal> for PairRefusal {
    ghost from_gives = { λ why refusal. refusal ≡ pair.Unread why };

    fn from(why: tle::Refusal) -> PairRefusal {
        PairRefusal::Unread(why)
    }
}

impl Refusal {
    // Document 01's number of the refusal.
    pub fn number(self) -> u64
        ensures { result ≡ O.number self }
    {
        match self {
            Refusal::Record => 16,
            Refusal::Perigee => 7,
            Refusal::NotFinite => 8,
        }
    }
}

fn model_of(el: Elements, i: Initl, epoch: Instant, days: Days, gsto: Radians) -> Model
    ensures { result ≡ O.model_of el i epoch days.0 gsto.0 }
{
    if is_deep_space(i) {
        let a = ahead_of(days, el, i.no);
        let near = near_earth(el, i, true);
        let d = deep_space(a, days, gsto, near, i.eccsq);
        return Model {
            near,
            method: Method::DeepSpace(d),
            epoch,
        };
    }
    let near = near_earth(el, i, false);
    Model {
        near,
        method: Method::NearEarth,
        epoch,
    }
}

fn epoch_place_of(method: Method) -> Place
    ensures { result ≡ O.epoch_place method }
{
    match method {
        Method::NearEarth => Place {
            side: Side::Forward,
            strides: Strides(0),
            xli: 0.0,
            xni: 0.0,
        },
        Method::DeepSpace(d) => {
            let integrator = d.integrator;
            epoch_place(integrator)
        }
    }
}

// A satellite as it is newly opened.
pub fn newly(model: Model) -> Satellite
    ensures { result ≡ O.newly model }
{
    let method = model.method;
    let place = epoch_place_of(method);
    Satellite { model, place }
}

fn finite_deep(d: DeepSpace) -> bool
    ensures { result ≡ O.finite_deep d }
{
    let rates = d.rates;
    let periodics = d.periodics;
    let integrator = d.integrator;
    finite_rates(rates) & finite_lunar_solar(periodics) & finite_integrator(integrator)
}

fn finite_method(method: Method) -> bool
    ensures { result ≡ O.finite_method method }
{
    match method {
        Method::NearEarth => true,
        Method::DeepSpace(d) => finite_deep(d),
    }
}

fn finite_record(m: Model, gsto: Radians) -> bool
    ensures { result ≡ O.finite_record m gsto.0 }
{
    let near = m.near;
    let method = m.method;
    finite_near(near) & finite_method(method) & is_finite(gsto.0)
}

fn checked(m: Model, gsto: Radians) -> Result<Satellite, Refusal>
    ensures { result ≡ O.checked m gsto.0 }
{
    if finite_record(m, gsto) {
        return Ok(newly(m));
    }
    Err(Refusal::NotFinite)
}

fn above(
    el: Elements,
    i: Initl,
    epoch: Instant,
    days: Days,
    gsto: Radians,
) -> Result<Satellite, Refusal>
    ensures { result ≡ O.above el i epoch days.0 gsto.0 }
{
    if i.rp < 1.0 {
        return Err(Refusal::Perigee);
    }
    checked(model_of(el, i, epoch, days, gsto), gsto)
}

// The days of an instant that is in the calendar: no other comes here.
fn days_of(t: Instant) -> Days
    requires { in_calendar t.0 ≡ true }
    ensures { result.0 ≡ epoch_days_of t.0 }
{
    epoch_days(t).unwrap_or(Days(0.0))
}

// The Greenwich angle at such an instant.
fn gsto_of(t: Instant) -> Radians
    requires { in_calendar t.0 ≡ true }
    ensures { result.0 ≡ greenwich_of t.0 }
{
    greenwich(t).unwrap_or(Radians(0.0))
}

fn started(el: Elements, t: Instant) -> Result<Satellite, Refusal>
    requires { in_calendar t.0 ≡ true }
    ensures { result ≡ O.started el t }
{
    let i = initl(el.ecco, Radians(el.inclo), el.no);
    let days = days_of(t);
    let gsto = gsto_of(t);
    above(el, i, t, days, gsto)
}

fn dated(r: Record, epoch: Option<Instant>) -> Result<Satellite, Refusal>
    requires { epoch ≡ epoch_of r.year r.day }
    ensures { result ≡ O.dated r epoch }
{
    match epoch {
        Some(t) => started(elements_of(r), t),
        None => Err(Refusal::Record),
    }
}

pub fn open(r: Record) -> Result<Satellite, Refusal>
    ensures { result ≡ O.open_of r }
{
    if legal(r) {
        return dated(r, epoch_instant(r.year, r.day));
    }
    Err(Refusal::Record)
}

fn opened(o: Result<Satellite, Refusal>) -> Result<Satellite, PairRefusal>
    ensures { result ≡ O.opened o }
{
    match o {
        Ok(s) => Ok(s),
        Err(why) => Err(PairRefusal::Refused(why)),
    }
}

fn after_reading(reading: Result<Record, tle::Refusal>) -> Result<Satellite, PairRefusal>
    ensures { result ≡ O.after_reading reading }
{
    match reading {
        Ok(r) => opened(open(r)),
        Err(why) => Err(PairRefusal::Unread(why)),
    }
}

// Reading and opening as one operation.
pub fn open_pair(line1: &[u8], line2: &[u8]) -> Result<Satellite, PairRefusal>
    ensures { result ≡ O.open_pair_of line1.now line2.now }
{
    let fields = read_form(line1, line2)?;
    after_reading(read_meaning(fields))
}
