// An opened satellite in memory that a caller lends: its f64s in `numbers`, the rest in `marks`.
// specs/Storage has the layout. Any memory that is long enough holds a satellite; crate storing writes
// one.
#![tactic(auto)]

ghost use Rattle.std.specs.Prelude.{◌≡◌, ◌≤◌, length};
ghost use Rattle.storage.specs.Storage as S;
ghost use Rattle.storage.specs.Near as N;

use instant::{Instant, Strides};
use opening::opening::Satellite;
use resonance::place::{Place, Side};
use satellite::{
    DeepSpace, Drag, Elements, HalfDay, Higher, Integrator, Kept, LunarSolar, Method, Model,
    NearEarth, OneDay, Periodics, Rates, Resonance, SecularRates, Terms,
};

// Document 01's number of what loading answers: 17 where the memory is too short for a satellite.
pub fn loading_number(loaded: Option<Satellite>) -> u8
    ensures { result ≡ S.loading_number loaded }
{
    match loaded {
        Some(_) => 0,
        None => 17,
    }
}

// Why no satellite near the Earth is loaded from memory for its numbers alone: DeepSpace where the memory
// holds another satellite, document 01's refusal 17 where it holds none.
#[derive(Clone, Copy)]
pub enum NearRefusal {
    DeepSpace,
    RoomTooShort,
}

fn elements_at(numbers: &[f64]) -> Elements
    requires { 36 ≤ length numbers.now }
    ensures { result ≡ S.elements_at numbers.now }
{
    Elements {
        bstar: numbers[2],
        ecco: numbers[3],
        argpo: numbers[4],
        inclo: numbers[5],
        mo: numbers[6],
        no: numbers[7],
        nodeo: numbers[8],
    }
}

fn drag_at(numbers: &[f64]) -> Drag
    requires { 36 ≤ length numbers.now }
    ensures { result ≡ S.drag_at numbers.now }
{
    Drag {
        eta: numbers[9],
        cc1: numbers[10],
        cc4: numbers[11],
        cc5: numbers[12],
        omgcof: numbers[13],
        xmcof: numbers[14],
        t2cof: numbers[15],
        delmo: numbers[16],
        sinmao: numbers[17],
    }
}

fn higher_at(numbers: &[f64]) -> Higher
    requires { 36 ≤ length numbers.now }
    ensures { result ≡ S.higher_at numbers.now }
{
    Higher {
        d2: numbers[18],
        d3: numbers[19],
        d4: numbers[20],
        t3cof: numbers[21],
        t4cof: numbers[22],
        t5cof: numbers[23],
    }
}

fn rates_at(numbers: &[f64]) -> Rates
    requires { 36 ≤ length numbers.now }
    ensures { result ≡ S.rates_at numbers.now }
{
    Rates {
        mdot: numbers[24],
        argpdot: numbers[25],
        nodedot: numbers[26],
        nodecf: numbers[27],
    }
}

fn terms_at(numbers: &[f64]) -> Terms
    requires { 36 ≤ length numbers.now }
    ensures { result ≡ S.terms_at numbers.now }
{
    Terms {
        con41: numbers[28],
        x1mth2: numbers[29],
        x7thm1: numbers[30],
        xlcof: numbers[31],
        aycof: numbers[32],
    }
}

fn kept_at(numbers: &[f64]) -> Kept
    requires { 36 ≤ length numbers.now }
    ensures { result ≡ S.kept_at numbers.now }
{
    Kept {
        ao: numbers[33],
        sinio: numbers[34],
        cosio: numbers[35],
    }
}

fn near_earth_at(numbers: &[f64], isimp: bool) -> NearEarth
    requires { 36 ≤ length numbers.now }
    ensures { result ≡ S.near_earth_at numbers.now isimp }
{
    let elements = elements_at(numbers);
    let drag = drag_at(numbers);
    let higher = higher_at(numbers);
    let rates = rates_at(numbers);
    let terms = terms_at(numbers);
    let kept = kept_at(numbers);
    NearEarth {
        elements,
        isimp,
        drag,
        higher,
        rates,
        terms,
        kept,
    }
}

fn secular_rates_at(numbers: &[f64]) -> SecularRates
    requires { 83 ≤ length numbers.now }
    ensures { result ≡ S.secular_at numbers.now }
{
    SecularRates {
        dedt: numbers[36],
        didt: numbers[37],
        dmdt: numbers[38],
        dnodt: numbers[39],
        domdt: numbers[40],
    }
}

fn periodics_at(numbers: &[f64], at: usize) -> Periodics
    requires { (at ≤ 71) × (83 ≤ length numbers.now) }
    ensures { result ≡ S.periodics_at numbers.now at }
{
    Periodics {
        e2: numbers[at],
        e3: numbers[at + 1],
        i2: numbers[at + 2],
        i3: numbers[at + 3],
        l2: numbers[at + 4],
        l3: numbers[at + 5],
        l4: numbers[at + 6],
        gh2: numbers[at + 7],
        gh3: numbers[at + 8],
        gh4: numbers[at + 9],
        h2: numbers[at + 10],
        h3: numbers[at + 11],
    }
}

fn lunar_solar_at(numbers: &[f64]) -> LunarSolar
    requires { 83 ≤ length numbers.now }
    ensures { result ≡ S.lunar_solar_at numbers.now }
{
    let sun = periodics_at(numbers, 41);
    let moon = periodics_at(numbers, 53);
    LunarSolar {
        sun,
        moon,
        zmos: numbers[65],
        zmol: numbers[66],
    }
}

fn one_day_at(numbers: &[f64]) -> OneDay
    requires { 83 ≤ length numbers.now }
    ensures { result ≡ S.one_day_at numbers.now }
{
    OneDay {
        del1: numbers[73],
        del2: numbers[74],
        del3: numbers[75],
    }
}

fn half_day_at(numbers: &[f64]) -> HalfDay
    requires { 83 ≤ length numbers.now }
    ensures { result ≡ S.half_day_at numbers.now }
{
    HalfDay {
        d2201: numbers[73],
        d2211: numbers[74],
        d3210: numbers[75],
        d3222: numbers[76],
        d4410: numbers[77],
        d4422: numbers[78],
        d5220: numbers[79],
        d5232: numbers[80],
        d5421: numbers[81],
        d5433: numbers[82],
    }
}

// 1 is a deep-space satellite without resonance, 2 one-day, any other number half-day.
fn resonance_at(numbers: &[f64], kind: u32) -> Resonance
    requires { 83 ≤ length numbers.now }
    ensures { result ≡ S.resonance_at numbers.now kind }
{
    if kind == 1 {
        return Resonance::None;
    }
    if kind == 2 {
        return Resonance::OneDay(one_day_at(numbers));
    }
    Resonance::HalfDay(half_day_at(numbers))
}

fn integrator_at(numbers: &[f64], kind: u32) -> Integrator
    requires { 83 ≤ length numbers.now }
    ensures { result ≡ S.integrator_at numbers.now kind }
{
    let resonance = resonance_at(numbers, kind);
    Integrator {
        resonance,
        xlamo: numbers[67],
        xfact: numbers[68],
        no: numbers[69],
        argpo: numbers[70],
        argpdot: numbers[71],
        gsto: numbers[72],
    }
}

fn deep_space_at(numbers: &[f64], kind: u32) -> DeepSpace
    requires { 83 ≤ length numbers.now }
    ensures { result ≡ S.deep_space_at numbers.now kind }
{
    let rates = secular_rates_at(numbers);
    let periodics = lunar_solar_at(numbers);
    let integrator = integrator_at(numbers, kind);
    DeepSpace {
        rates,
        periodics,
        integrator,
    }
}

// 0 is near Earth.
fn method_at(numbers: &[f64], kind: u32) -> Method
    requires { 83 ≤ length numbers.now }
    ensures { result ≡ S.method_at numbers.now kind }
{
    if kind == 0 {
        return Method::NearEarth;
    }
    Method::DeepSpace(deep_space_at(numbers, kind))
}

// 0 is forward, any other number back.
fn side_at(mark: u32) -> Side
    ensures { result ≡ S.side_at mark }
{
    if mark == 0 {
        return Side::Forward;
    }
    Side::Back
}

// An instant from its low and its high 32 bits: any two are one.
fn epoch_at(low: u32, high: u32) -> Instant
    ensures { result ≡ S.epoch_at low high }
{
    Instant(low as u64 + 4294967296 * (high as u64))
}

// The satellite of a room that is long enough.
fn held(numbers: &[f64], marks: &[u32]) -> Satellite
    requires in_bounds { 83 ≤ length numbers.now }
    requires in_bounds_2 { 6 ≤ length marks.now }
    ensures { result ≡ S.satellite_of numbers.now marks.now }
{
    let kind = marks[3];
    let method = method_at(numbers, kind);
    let near = near_earth_at(numbers, marks[2] != 0);
    let side = side_at(marks[0]);
    let place = Place {
        side,
        strides: Strides(marks[1]),
        xli: numbers[0],
        xni: numbers[1],
    };
    let epoch = epoch_at(marks[4], marks[5]);
    let model = Model {
        near,
        method,
        epoch,
    };
    Satellite { model, place }
}

// The satellite that lies in the memory, whoever wrote it.
pub fn load(numbers: &[f64], marks: &[u32]) -> Option<Satellite>
    ensures { result ≡ S.loading_of numbers.now marks.now }
{
    if numbers.len() < 83 {
        return None;
    }
    if marks.len() < 6 {
        return None;
    }
    Some(held(numbers, marks))
}

// The satellite near the Earth that lies in the memory, whoever wrote it.
pub fn load_near(numbers: &[f64], marks: &[u32]) -> Result<NearEarth, NearRefusal>
    ensures { result ≡ N.near_loading_of numbers.now marks.now }
{
    if numbers.len() < 36 {
        return Err(NearRefusal::RoomTooShort);
    }
    if marks.len() < 6 {
        return Err(NearRefusal::RoomTooShort);
    }
    if marks[3] != 0 {
        return Err(NearRefusal::DeepSpace);
    }
    Ok(near_earth_at(numbers, marks[2] != 0))
}
