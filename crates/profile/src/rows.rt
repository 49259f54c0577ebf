// The rows of a near-Earth satellite: of one time, or of a list of times, into rooms that are lent; 33
// for a time that is not from 0 to 30 days.
ghost use Rattle.std.specs.Prelude.{◌≡◌, ◌+◌, ◌*◌, ◌≤◌, ◌<◌, length, set};
ghost use Rattle.std.proofs.lemmas.List.Edits.{sets};
ghost use Rattle.requests.specs.Lists.{state_of};
ghost use Rattle.lent_requests.specs.Requests.{row_put};
ghost use Rattle.profile.specs.Request as Q;
ghost use Rattle.profile.specs.Rows as R;

use instant::{Microseconds, distance, to_minutes};
use requests::list_refusal;
use satellite::NearEarth;
use sgp4::{Row, refused_row, row_of};

// One time's refusal number (0 when answered, 17 where the room is too short) and the Kepler rounds.
#[derive(Clone, Copy)]
pub struct Asked {
    pub refusal: u8,
    pub rounds: u8,
}

// A list's refusal number (0 when answered), and whether any of its times is one that the profile takes.
#[derive(Clone, Copy)]
pub struct Listed {
    pub refusal: u8,
    pub taken: bool,
}

// From 0 to 30 days.
fn is_taken(t: Microseconds) -> bool
    ensures { result ≡ Q.taken t.0 }
{
    let x = t.0;
    if x < 0 {
        return false;
    }
    distance(t) <= 2_592_000_000_000
}

fn row_at(near: NearEarth, t: Microseconds) -> Row
    ensures { result ≡ R.near_row near t.0 }
{
    if is_taken(t) {
        return row_of(state::sgp4::sgp4(near, to_minutes(t)));
    }
    refused_row(33)
}

// A row's position and velocity, at an index of a room. As in crate requests, whose functions are private:
// no public function has a `requires` (docs/DECISIONS.md).
fn put_state(states: &mut [f64], at: usize, row: Row)
    requires { at + 6 ≤ length states.old }
    ensures { states.new ≡ sets states.old at (state_of row) }
{
    states[at] = row.x;
    states[at + 1] = row.y;
    states[at + 2] = row.z;
    states[at + 3] = row.vx;
    states[at + 4] = row.vy;
    states[at + 5] = row.vz;
}

// A row that is answered, at the front of a room.
fn put_front(state: &mut [f64], row: Row)
    requires { 6 ≤ length state.old }
    ensures { state.new ≡ row_put row state.old }
{
    if row.refusal == 0 {
        put_state(state, 0, row);
    }
}

// The row of one time in microseconds since the epoch, at the front of the room where it is answered.
pub fn request(near: NearEarth, time: Microseconds, state: &mut [f64]) -> Asked
    ensures value { result ≡ R.asked (R.near_row near time.0) (length state.old) }
    ensures state_after { state.new ≡ R.room_after (R.near_row near time.0) state.old }
{
    if state.len() < 6 {
        return Asked {
            refusal: 17,
            rounds: 0,
        };
    }
    let row = row_at(near, time);
    put_front(state, row);
    Asked {
        refusal: row.refusal,
        rounds: row.rounds,
    }
}

// A row, in its place in the three rooms.
fn put_row(refusals: &mut [u8], states: &mut [f64], rounds: &mut [u8], i: usize, row: Row)
    requires i_in_bounds { i < length refusals.old }
    requires i_in_bounds_2 { 6 * i + 6 ≤ length states.old }
    requires i_in_bounds_3 { i < length rounds.old }
    ensures refusals_after { refusals.new ≡ set refusals.old i row.refusal }
    ensures states_after { states.new ≡ sets states.old (6 * i) (state_of row) }
    ensures rounds_after { rounds.new ≡ set rounds.old i row.rounds }
{
    refusals[i] = row.refusal;
    put_state(states, 6 * i, row);
    rounds[i] = row.rounds;
}

// A row for each time, in rooms that are long enough; whether any time is taken.
fn fill(
    near: NearEarth,
    times: &[i64],
    refusals: &mut [u8],
    states: &mut [f64],
    rounds: &mut [u8],
) -> bool
    requires times_len_bound { length times.now ≤ 1024 }
    requires times_in_bounds { length times.now ≤ length refusals.old }
    requires times_in_bounds_2 { 6 * length times.now ≤ length states.old }
    requires times_in_bounds_3 { length times.now ≤ length rounds.old }
    ensures { R.Filled near times.now refusals.old states.old rounds.old result refusals.new states.new rounds.new }
{
    let mut any = false;
    for (i, t) in times.iter().enumerate() {
        let t = Microseconds(*t);
        put_row(refusals, states, rounds, i, row_at(near, t));
        any |= is_taken(t);
    }
    any
}

// A row for each time, in the list's order, as crate requests has them. What lies past the last row
// stays.
pub fn request_list(
    near: NearEarth,
    times: &[i64],
    refusals: &mut [u8],
    states: &mut [f64],
    rounds: &mut [u8],
) -> Listed
    ensures { R.RowsPost near times.now refusals.old states.old rounds.old result refusals.new states.new rounds.new }
{
    let refusal = list_refusal(times.len(), refusals.len(), states.len(), rounds.len());
    if refusal != 0 {
        return Listed {
            refusal,
            taken: false,
        };
    }
    let taken = fill(near, times, refusals, states, rounds);
    Listed { refusal, taken }
}
