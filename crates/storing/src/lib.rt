// An opened satellite written into memory that a caller lends, by the layout of crate storage; what was
// stored comes back the same (proofs/Kept).
#![tactic(auto)]

ghost use Rattle.std.specs.Prelude.{◌≡◌, ◌∷◌, ◌++◌, ◌+◌, ◌/◌, ◌%◌, ◌≤◌, length};
ghost use Rattle.std.proofs.lemmas.List.Edits.{sets};
ghost use Rattle.storage.specs.Storage as S;
ghost use Rattle.storage.specs.Near as N;

use instant::{Instant, Strides};
use opening::opening::Satellite;
use resonance::place::{Place, Side};
use satellite::{
    DeepSpace, Drag, Elements, Higher, Integrator, Kept, LunarSolar, Method, Model, NearEarth,
    Periodics, Rates, Resonance, Terms,
};

// The numbers 2 to 17.
fn orbit_numbers(el: Elements, d: Drag) -> [f64; 16]
    ensures { result ≡ S.elements_numbers el ++ S.drag_numbers d }
{
    [
        el.bstar, el.ecco, el.argpo, el.inclo, el.mo, el.no, el.nodeo, d.eta, d.cc1, d.cc4, d.cc5,
        d.omgcof, d.xmcof, d.t2cof, d.delmo, d.sinmao,
    ]
}

// The numbers 18 to 35.
fn term_numbers(h: Higher, r: Rates, t: Terms, k: Kept) -> [f64; 18]
    ensures { result ≡ S.higher_numbers h ++ S.rates_numbers r ++ S.terms_numbers t ++ S.kept_numbers k }
{
    [
        h.d2, h.d3, h.d4, h.t3cof, h.t4cof, h.t5cof, r.mdot, r.argpdot, r.nodedot, r.nodecf,
        t.con41, t.x1mth2, t.x7thm1, t.xlcof, t.aycof, k.ao, k.sinio, k.cosio,
    ]
}

fn periodics_numbers(p: Periodics) -> [f64; 12]
    ensures { result ≡ S.periodics_numbers p }
{
    [
        p.e2, p.e3, p.i2, p.i3, p.l2, p.l3, p.l4, p.gh2, p.gh3, p.gh4, p.h2, p.h3,
    ]
}

// The numbers 73 to 82.
fn coefficients(r: Resonance) -> [f64; 10]
    ensures { result ≡ S.coefficients r }
{
    match r {
        Resonance::None => [0.0; 10],
        Resonance::OneDay(d) => [d.del1, d.del2, d.del3, 0.0, 0.0, 0.0, 0.0, 0.0, 0.0, 0.0],
        Resonance::HalfDay(d) => [
            d.d2201, d.d2211, d.d3210, d.d3222, d.d4410, d.d4422, d.d5220, d.d5232, d.d5421,
            d.d5433,
        ],
    }
}

fn side_mark(side: Side) -> u32
    ensures { result ≡ S.side_mark side }
{
    match side {
        Side::Forward => 0,
        Side::Back => 1,
    }
}

fn resonance_mark(r: Resonance) -> u32
    ensures { result ≡ S.resonance_mark r }
{
    match r {
        Resonance::None => 1,
        Resonance::OneDay(_) => 2,
        Resonance::HalfDay(_) => 3,
    }
}

fn method_mark(method: Method) -> u32
    ensures { result ≡ S.method_mark method }
{
    match method {
        Method::NearEarth => 0,
        Method::DeepSpace(d) => {
            let i = d.integrator;
            let r = i.resonance;
            resonance_mark(r)
        }
    }
}

// An instant's low 32 bits, and its high ones.
fn low_half(t: Instant) -> u32
    ensures { result ≡ t.0 % 4294967296 }
{
    (t.0 % 4294967296) as u32
}

fn high_half(t: Instant) -> u32
    ensures { result ≡ t.0 / 4294967296 }
{
    (t.0 / 4294967296) as u32
}

// Values from an index on.
fn put(numbers: &mut [f64], at: usize, values: &[f64])
    requires { at + length values.now ≤ length numbers.old }
    ensures { numbers.new ≡ sets numbers.old at values.now }
{
    let end = at + values.len();
    numbers[at..end].copy_from_slice(values);
}

fn put_near(numbers: &mut [f64], n: NearEarth)
    requires { 36 ≤ length numbers.old }
    ensures { numbers.new ≡ sets numbers.old 2 (S.near_numbers n) }
{
    let el = n.elements;
    let d = n.drag;
    let h = n.higher;
    let r = n.rates;
    let t = n.terms;
    let k = n.kept;
    let orbit = orbit_numbers(el, d);
    let terms = term_numbers(h, r, t, k);
    put(numbers, 2, &orbit);
    put(numbers, 18, &terms);
}

fn put_lunar_solar(numbers: &mut [f64], p: LunarSolar)
    requires { 83 ≤ length numbers.old }
    ensures { numbers.new ≡ sets numbers.old 41 (S.lunar_solar_numbers p) }
{
    let sun = p.sun;
    let moon = p.moon;
    let s = periodics_numbers(sun);
    let m = periodics_numbers(moon);
    let z = [p.zmos, p.zmol];
    put(numbers, 41, &s);
    put(numbers, 53, &m);
    put(numbers, 65, &z);
}

fn put_integrator(numbers: &mut [f64], i: Integrator)
    requires { 83 ≤ length numbers.old }
    ensures { numbers.new ≡ sets numbers.old 67 (S.integrator_numbers i) }
{
    let r = i.resonance;
    let six = [i.xlamo, i.xfact, i.no, i.argpo, i.argpdot, i.gsto];
    let ten = coefficients(r);
    put(numbers, 67, &six);
    put(numbers, 73, &ten);
}

fn put_deep(numbers: &mut [f64], d: DeepSpace)
    requires { 83 ≤ length numbers.old }
    ensures { numbers.new ≡ sets numbers.old 36 (S.deep_numbers d) }
{
    let r = d.rates;
    let p = d.periodics;
    let i = d.integrator;
    let rates = [r.dedt, r.didt, r.dmdt, r.dnodt, r.domdt];
    put(numbers, 36, &rates);
    put_lunar_solar(numbers, p);
    put_integrator(numbers, i);
}

// +0.0 for what a near-Earth satellite has not, so that nothing of an earlier one is left.
fn put_method(numbers: &mut [f64], method: Method)
    requires { 83 ≤ length numbers.old }
    ensures { numbers.new ≡ sets numbers.old 36 (S.method_numbers method) }
{
    match method {
        Method::NearEarth => {
            let zeros = [0.0; 47];
            put(numbers, 36, &zeros);
        }
        Method::DeepSpace(d) => put_deep(numbers, d),
    }
}

// The marks 2 to 5.
fn put_marks(marks: &mut [u32], isimp: bool, kind: u32, epoch: Instant)
    requires { 6 ≤ length marks.old }
    ensures { marks.new ≡ sets marks.old 2 (S.isimp_mark isimp ∷ kind ∷ S.epoch_marks epoch) }
{
    let low = low_half(epoch);
    let high = high_half(epoch);
    marks[2] = isimp as u32;
    marks[3] = kind;
    marks[4] = low;
    marks[5] = high;
}

fn put_model(numbers: &mut [f64], marks: &mut [u32], model: Model)
    requires in_bounds { 83 ≤ length numbers.old }
    requires in_bounds_2 { 6 ≤ length marks.old }
    ensures numbers_after { numbers.new ≡ sets numbers.old 2 (S.model_numbers model) }
    ensures marks_after { marks.new ≡ sets marks.old 2 (S.model_marks model) }
{
    let near = model.near;
    let method = model.method;
    let epoch = model.epoch;
    let kind = method_mark(method);
    put_near(numbers, near);
    put_method(numbers, method);
    put_marks(marks, near.isimp, kind, epoch);
}

fn put_place(numbers: &mut [f64], marks: &mut [u32], place: Place)
    requires in_bounds { 36 ≤ length numbers.old }
    requires in_bounds_2 { 6 ≤ length marks.old }
    ensures numbers_after { numbers.new ≡ sets numbers.old 0 (S.place_numbers place) }
    ensures marks_after { marks.new ≡ sets marks.old 0 (S.place_marks place) }
{
    let side = place.side;
    let strides = place.strides;
    numbers[0] = place.xli;
    numbers[1] = place.xni;
    marks[0] = side_mark(side);
    marks[1] = strides.0;
}

// A satellite into the memory: 0, or refusal 17 with nothing written.
pub fn store(s: Satellite, numbers: &mut [f64], marks: &mut [u32]) -> u8
    ensures value { result ≡ S.store_refusal (length numbers.old) (length marks.old) }
    ensures numbers_after { numbers.new ≡ S.stored_numbers s numbers.old marks.old }
    ensures marks_after { marks.new ≡ S.stored_marks s numbers.old marks.old }
{
    if numbers.len() < 83 {
        return 17;
    }
    if marks.len() < 6 {
        return 17;
    }
    let place = s.place;
    let model = s.model;
    put_place(numbers, marks, place);
    put_model(numbers, marks, model);
    0
}

// A saved position alone into the memory: 0, or refusal 17 with nothing written.
pub fn store_place(place: Place, numbers: &mut [f64], marks: &mut [u32]) -> u8
    ensures value { result ≡ S.store_refusal (length numbers.old) (length marks.old) }
    ensures numbers_after { numbers.new ≡ S.placed_numbers place numbers.old marks.old }
    ensures marks_after { marks.new ≡ S.placed_marks place numbers.old marks.old }
{
    if numbers.len() < 83 {
        return 17;
    }
    if marks.len() < 6 {
        return 17;
    }
    put_place(numbers, marks, place);
    0
}

// A satellite near the Earth, newly opened, into memory for its numbers alone: 0, or refusal 17 with
// nothing written.
pub fn store_near(near: NearEarth, epoch: Instant, numbers: &mut [f64], marks: &mut [u32]) -> u8
    ensures value { result ≡ N.near_refusal (length numbers.old) (length marks.old) }
    ensures numbers_after { numbers.new ≡ N.near_stored_numbers (N.near_satellite near epoch) numbers.old marks.old }
    ensures marks_after { marks.new ≡ N.near_stored_marks (N.near_satellite near epoch) numbers.old marks.old }
{
    if numbers.len() < 36 {
        return 17;
    }
    if marks.len() < 6 {
        return 17;
    }
    let place = Place {
        side: Side::Forward,
        strides: Strides(0),
        xli: 0.0,
        xni: 0.0,
    };
    put_place(numbers, marks, place);
    put_near(numbers, near);
    put_marks(marks, near.isimp, 0, epoch);
    0
}
