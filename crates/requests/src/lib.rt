// Requests for position and velocity: one time, or a list of times, put to any satellite. Of the
// satellite only the saved position changes. Crate sequences has the claim about whole sequences.
#![tactic(auto)]

ghost use Rattle.std.specs.Prelude.{◌≡◌, ◌+◌, ◌*◌, ◌≤◌, ◌<◌, length, set};
ghost use Rattle.std.proofs.lemmas.List.Edits.{sets};
ghost use Rattle.sgp4.specs.Sgp4.{integrator_of};
ghost use Rattle.resonance.specs.Held as E;
ghost use Rattle.requests.specs.Request as Q;
ghost use Rattle.requests.specs.Two.{asked_two, went_on, carried};
ghost use Rattle.requests.specs.Lists as L;

use elementary::Two;
use instant::{Microseconds, Strides};
use opening::opening::Satellite;
use resonance::held::{Held, held_at, unknown};
use resonance::place::{Advance, Place};
use resonance::time::{in_range, side_of, stride_need};
use satellite::Model;
use sgp4::pairs::rows_at;
use sgp4::{Row, integrator_of, refused_row, row_at};

// What a time gives at a saved position, and what it makes of that.
#[derive(Clone, Copy)]
pub struct Asked {
    pub row: Row,
    pub strides: Strides,
    pub place: Place,
}

// A single request's answer, with the satellite to be handed to the next.
#[derive(Clone, Copy)]
pub struct Answered {
    pub row: Row,
    pub strides: Strides,
    pub satellite: Satellite,
}

// A list's refusal number (0 when answered) and all its strides, with the satellite to be handed to
// the next.
#[derive(Clone, Copy)]
pub struct ListAnswer {
    pub refusal: u8,
    pub strides: Strides,
    pub satellite: Satellite,
}

// The position that a time needs with the derivatives there, and the strides to it.
#[derive(Clone, Copy)]
pub struct Carried {
    pub held: Held,
    pub strides: Strides,
}

// Two times asked, the second at the position that the first leaves; with the position that the second
// leaves and the derivatives there.
#[derive(Clone, Copy)]
struct HeldTwo {
    two: Two<Asked>,
    held: Held,
}

#[derive(Clone, Copy)]
struct Filled {
    strides: Strides,
    place: Place,
}

fn reached(model: Model, place: Place, t: Microseconds) -> Advance
    ensures { result ≡ Q.reached model place t.0 }
{
    let i = integrator_of(model);
    place.advance(i, side_of(t), stride_need(i, t))
}

fn ask(model: Model, place: Place, t: Microseconds) -> Asked
    ensures { result ≡ Q.asked model place t.0 }
{
    if in_range(t) {
        let a = reached(model, place, t);
        let strides = a.strides;
        let reached = a.place;
        let row = row_at(model, reached, t);
        return Asked {
            row,
            strides,
            place: reached,
        };
    }
    let row = refused_row(9);
    Asked {
        row,
        strides: Strides(0),
        place,
    }
}

fn ask_each(model: Model, place: Place, t: Microseconds, t2: Microseconds) -> Two<Asked>
    ensures { result ≡ asked_two model place t.0 t2.0 }
{
    let first = ask(model, place, t);
    let reached = first.place;
    let second = ask(model, reached, t2);
    Two { first, second }
}

// Two times where one is out of range.
fn ask_apart(model: Model, h: Held, t: Microseconds, t2: Microseconds) -> HeldTwo
    ensures two_value { result.two ≡ asked_two model h.place t.0 t2.0 }
    ensures held_value { result.held ≡ E.unknown result.two.second.place }
{
    let place = h.place;
    let two = ask_each(model, place, t, t2);
    let saved = two.second.place;
    let held = unknown(saved);
    HeldTwo { two, held }
}

// The position that a time needs, with the derivatives there.
fn go_on(model: Model, place: Place, t: Microseconds) -> Carried
    ensures { result ≡ went_on model place t.0 }
{
    let a = reached(model, place, t);
    let strides = a.strides;
    let held = held_at(integrator_of(model), a.place);
    Carried { held, strides }
}

// The same; a time that takes no stride has both.
fn carry(model: Model, h: Held, t: Microseconds) -> Carried
    ensures { result ≡ carried model h t.0 }
{
    let i = integrator_of(model);
    if h.stays(side_of(t), stride_need(i, t)) {
        return Carried {
            held: h,
            strides: Strides(0),
        };
    }
    let place = h.place;
    go_on(model, place, t)
}

// Two times, the second at the position that the first leaves. Once both positions are reached neither
// row waits for the other, so that two at once take less time.
fn ask_two(model: Model, h: Held, t: Microseconds, t2: Microseconds) -> HeldTwo
    requires { E.Right (integrator_of model) h }
    ensures two_value { result.two ≡ asked_two model h.place t.0 t2.0 }
    ensures place_value { result.held.place ≡ result.two.second.place }
    ensures right { E.Right (integrator_of model) result.held }
{
    if in_range(t) & in_range(t2) {
        let a = carry(model, h, t);
        let p = a.held;
        let strides = a.strides;
        let b = carry(model, p, t2);
        let p2 = b.held;
        let strides2 = b.strides;
        let rows = rows_at(model, p, t, p2, t2);
        let row = rows.first;
        let row2 = rows.second;
        let place = p.place;
        let place2 = p2.place;
        let two = Two {
            first: Asked {
                row,
                strides,
                place,
            },
            second: Asked {
                row: row2,
                strides: strides2,
                place: place2,
            },
        };
        return HeldTwo { two, held: p2 };
    }
    ask_apart(model, h, t, t2)
}

// The row of one time in microseconds since the epoch.
pub fn request(satellite: Satellite, time: Microseconds) -> Answered
    ensures { result ≡ Q.answered satellite time.0 }
{
    let model = satellite.model;
    let place = satellite.place;
    let a = ask(model, place, time);
    let row = a.row;
    let strides = a.strides;
    let saved = a.place;
    let satellite = Satellite {
        model,
        place: saved,
    };
    Answered {
        row,
        strides,
        satellite,
    }
}

// A row's position and velocity, at an index of a room.
fn put_state(states: &mut [f64], at: usize, row: Row)
    requires { at + 6 ≤ length states.old }
    ensures { states.new ≡ sets states.old at (L.state_of row) }
{
    states[at] = row.x;
    states[at + 1] = row.y;
    states[at + 2] = row.z;
    states[at + 3] = row.vx;
    states[at + 4] = row.vy;
    states[at + 5] = row.vz;
}

// A row, in its place in the three rooms.
fn put_row(refusals: &mut [u8], states: &mut [f64], rounds: &mut [u8], i: usize, row: Row)
    requires i_in_bounds { i < length refusals.old }
    requires i_in_bounds_2 { 6 * i + 6 ≤ length states.old }
    requires i_in_bounds_3 { i < length rounds.old }
    ensures refusals_after { refusals.new ≡ set refusals.old i row.refusal }
    ensures states_after { states.new ≡ sets states.old (6 * i) (L.state_of row) }
    ensures rounds_after { rounds.new ≡ set rounds.old i row.rounds }
{
    refusals[i] = row.refusal;
    put_state(states, 6 * i, row);
    rounds[i] = row.rounds;
}

// Two rows, one after the other.
fn put_two(refusals: &mut [u8], states: &mut [f64], rounds: &mut [u8], i: usize, two: Two<Asked>)
    requires i_in_bounds { i + 1 < length refusals.old }
    requires i_in_bounds_2 { 6 * (i + 1) + 6 ≤ length states.old }
    requires i_in_bounds_3 { i + 1 < length rounds.old }
    ensures refusals_after { refusals.new ≡ set (set refusals.old i two.first.row.refusal) (i + 1) two.second.row.refusal }
    ensures states_after { states.new ≡ sets (sets states.old (6 * i) (L.state_of two.first.row)) (6 * (i + 1)) (L.state_of two.second.row) }
    ensures rounds_after { rounds.new ≡ set (set rounds.old i two.first.row.rounds) (i + 1) two.second.row.rounds }
{
    let first = two.first;
    let second = two.second;
    let row = first.row;
    let next = second.row;
    put_row(refusals, states, rounds, i, row);
    put_row(refusals, states, rounds, i + 1, next);
}

// A row for each time, in rooms that are long enough; the times are taken two by two. The model does
// not change: the loop carries the saved position, with the derivatives there.
fn fill(
    model: Model,
    place: Place,
    times: &[i64],
    refusals: &mut [u8],
    states: &mut [f64],
    rounds: &mut [u8],
) -> Filled
    requires times_len_bound { length times.now ≤ 1024 }
    requires times_in_bounds { length times.now ≤ length refusals.old }
    requires times_in_bounds_2 { 6 * length times.now ≤ length states.old }
    requires times_in_bounds_3 { length times.now ≤ length rounds.old }
    ensures { L.Done times.now refusals.old states.old rounds.old model place refusals.new states.new rounds.new result.place result.strides.0 }
{
    let mut h = unknown(place);
    let mut total: u32 = 0;
    for k in 0..times.len() / 2 {
        let i = 2 * k;
        let x = ask_two(model, h, Microseconds(times[i]), Microseconds(times[i + 1]));
        let two = x.two;
        put_two(refusals, states, rounds, i, two);
        total += two.first.strides.0;
        total += two.second.strides.0;
        h = x.held;
    }
    let mut p = h.place;
    if times.len() % 2 == 1 {
        let i = times.len() - 1;
        let a = ask(model, p, Microseconds(times[i]));
        let row = a.row;
        put_row(refusals, states, rounds, i, row);
        total += a.strides.0;
        p = a.place;
    }
    Filled {
        strides: Strides(total),
        place: p,
    }
}

// The number that a list is refused with, from the lengths of the times and the rooms; 0 where it is
// not.
pub fn list_refusal(n: usize, a: usize, b: usize, c: usize) -> u8
    ensures { result ≡ L.list_refusal n a b c }
{
    if 1024 < n {
        return 18;
    }
    if a < n {
        return 17;
    }
    if b < 6 * n {
        return 17;
    }
    if c < n {
        return 17;
    }
    0
}

// A row for each time, in the list's order: one element of `refusals`, six of `states` (position,
// then velocity) and one of `rounds` to a row. What lies past the last row stays.
pub fn request_list(
    satellite: Satellite,
    times: &[i64],
    refusals: &mut [u8],
    states: &mut [f64],
    rounds: &mut [u8],
) -> ListAnswer
    ensures { L.ListPost satellite times.now refusals.old states.old rounds.old result refusals.new states.new rounds.new }
{
    let model = satellite.model;
    let place = satellite.place;
    let refusal = list_refusal(times.len(), refusals.len(), states.len(), rounds.len());
    if refusal != 0 {
        return ListAnswer {
            refusal,
            strides: Strides(0),
            satellite,
        };
    }
    let f = fill(model, place, times, refusals, states, rounds);
    let strides = f.strides;
    let reached = f.place;
    let satellite = Satellite {
        model,
        place: reached,
    };
    ListAnswer {
        refusal,
        strides,
        satellite,
    }
}
