// Requests put to a satellite in memory that a caller lends: the functions behind `saddlekerf_request` and
// `saddlekerf_request_list`.
#![tactic(auto)]

ghost use Rattle.std.specs.Prelude.{◌≡◌, ◌≤◌, length};
ghost use Rattle.answers.specs.Answer.{answer};
ghost use Rattle.lent_requests.specs.Requests as R;

use answers::answer;
use instant::{Microseconds, Strides};
use requests::{Answered, request, request_list};
use resonance::place::Place;
use sgp4::Row;
use storage::load;
use storing::store_place;

// A row that is answered, at the front of a room.
fn put_row(row: Row, state: &mut [f64])
    requires { 6 ≤ length state.old }
    ensures { state.new ≡ R.row_put row state.old }
{
    if row.refusal == 0 {
        state[0] = row.x;
        state[1] = row.y;
        state[2] = row.z;
        state[3] = row.vx;
        state[4] = row.vy;
        state[5] = row.vz;
    }
}

// The position that a row leaves, into the satellite's memory; after refusal 9 nothing is written.
fn keep_place(refusal: u8, place: Place, numbers: &mut [f64], marks: &mut [u32])
    ensures numbers_after { numbers.new ≡ R.kept_numbers refusal place numbers.old marks.old }
    ensures marks_after { marks.new ≡ R.kept_marks refusal place numbers.old marks.old }
{
    if refusal != 9 {
        let _ = store_place(place, numbers, marks);
    }
}

// The answer to one time; the position reached goes into the satellite's memory.
fn put_answer(a: Answered, numbers: &mut [f64], marks: &mut [u32], state: &mut [f64]) -> u64
    requires { 6 ≤ length state.old }
    ensures value { result ≡ answer a.row.refusal a.row.rounds 0 a.strides.0 }
    ensures numbers_after { numbers.new ≡ R.kept_numbers a.row.refusal a.satellite.place numbers.old marks.old }
    ensures marks_after { marks.new ≡ R.kept_marks a.row.refusal a.satellite.place numbers.old marks.old }
    ensures state_after { state.new ≡ R.row_put a.row state.old }
{
    let row = a.row;
    let satellite = a.satellite;
    let reached = satellite.place;
    let strides = a.strides;
    keep_place(row.refusal, reached, numbers, marks);
    put_row(row, state);
    answer(row.refusal, row.rounds, 0, strides.0)
}

// Asks the satellite in memory for one time, in microseconds since its epoch.
pub fn request_held(numbers: &mut [f64], marks: &mut [u32], time: i64, state: &mut [f64]) -> u64
    ensures { R.RequestPost numbers.old marks.old time state.old result numbers.new marks.new state.new }
{
    if state.len() < 6 {
        return answer(17, 0, 0, 0);
    }
    match load(numbers, marks) {
        Some(s) => put_answer(request(s, Microseconds(time)), numbers, marks, state),
        None => answer(17, 0, 0, 0),
    }
}

// The answer to a list, or to a call for windows with how many there are; the position reached goes into
// the satellite's memory.
pub fn put_saved(
    refusal: u8,
    count: u16,
    strides: Strides,
    place: Place,
    numbers: &mut [f64],
    marks: &mut [u32],
) -> u64
    ensures value { result ≡ answer refusal 0 count strides.0 }
    ensures numbers_after { numbers.new ≡ R.saved_numbers refusal place numbers.old marks.old }
    ensures marks_after { marks.new ≡ R.saved_marks refusal place numbers.old marks.old }
{
    if refusal == 0 {
        let _ = store_place(place, numbers, marks);
    }
    answer(refusal, 0, count, strides.0)
}

// Asks the satellite in memory for a list of times.
pub fn request_list_held(
    numbers: &mut [f64],
    marks: &mut [u32],
    times: &[i64],
    refusals: &mut [u8],
    states: &mut [f64],
    rounds: &mut [u8],
) -> u64
    ensures { R.ListPost numbers.old marks.old times.now refusals.old states.old rounds.old result numbers.new marks.new refusals.new states.new rounds.new }
{
    if 1024 < times.len() {
        return answer(18, 0, 0, 0);
    }
    match load(numbers, marks) {
        Some(s) => {
            let a = request_list(s, times, refusals, states, rounds);
            put_saved(a.refusal, 0, a.strides, a.satellite.place, numbers, marks)
        }
        None => answer(17, 0, 0, 0),
    }
}
