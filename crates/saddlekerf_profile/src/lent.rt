// The profile on memory that a caller lends: the functions behind `saddlekerf_profile_open`,
// `saddlekerf_profile_request` and `saddlekerf_profile_request_list`. The memory is the front of the full
// program's: the first 36 numbers of a satellite and its marks (specs/Near of crate storage).
ghost use Rattle.std.specs.Prelude.{◌≡◌, ◌≤◌, length};
ghost use Rattle.answers.specs.Answer.{answer};
ghost use Rattle.tle.specs.Read.{read_of};
ghost use Rattle.profile.specs.Opening as P;
ghost use Rattle.profile.specs.Rows.{near_row};
ghost use Rattle.saddlekerf_profile.specs.Opening as O;
ghost use Rattle.saddlekerf_profile.specs.Requests as R;

use answers::{answer, refusal_answer};
use instant::Microseconds;
use profile::opener::open_read;
use profile::rows::{Listed, request, request_list};
use satellite::NearEarth;
use storage::{NearRefusal, load_near};
use storing::store_near;
use tle::{Record, read_form, read_meaning};

fn opening_answer(why: profile::opener::Refusal) -> u64
    ensures { result ≡ answer (P.number why) 0 0 0 }
{
    why.number()
}

// Opens a record that reading gave.
fn open_record(r: Record, numbers: &mut [f64], marks: &mut [u32]) -> u64
    ensures value { result ≡ O.opened_answer (P.open_read_of r) (length numbers.old) (length marks.old) }
    ensures numbers_after { numbers.new ≡ O.opened_numbers (P.open_read_of r) numbers.old marks.old }
    ensures marks_after { marks.new ≡ O.opened_marks (P.open_read_of r) numbers.old marks.old }
{
    match open_read(r) {
        Ok((near, epoch)) => answer(store_near(near, epoch, numbers, marks), 0, 0, 0),
        Err(why) => opening_answer(why),
    }
}

// Opens a pair into the memory.
pub fn open_held(line1: &[u8], line2: &[u8], numbers: &mut [f64], marks: &mut [u32]) -> u64
    ensures value { result ≡ O.open_answer (read_of line1.now line2.now) (length numbers.old) (length marks.old) }
    ensures numbers_after { numbers.new ≡ O.open_numbers (read_of line1.now line2.now) numbers.old marks.old }
    ensures marks_after { marks.new ≡ O.open_marks (read_of line1.now line2.now) numbers.old marks.old }
{
    let fields = match read_form(line1, line2) {
        Ok(fields) => fields,
        Err(why) => return refusal_answer(why),
    };
    match read_meaning(fields) {
        Ok(r) => open_record(r, numbers, marks),
        Err(why) => refusal_answer(why),
    }
}

// What a time that is taken leaves of the saved position: no strides, and the side kept as forward.
fn settle(numbers: &mut [f64], marks: &mut [u32])
    requires in_bounds { 2 ≤ length numbers.old }
    requires in_bounds_2 { 2 ≤ length marks.old }
    ensures numbers_after { numbers.new ≡ R.settled_numbers numbers.old marks.old }
    ensures marks_after { marks.new ≡ R.settled_marks numbers.old marks.old }
{
    if marks[1] == 0 {
        marks[0] = 0;
        return;
    }
    numbers[0] = 0.0;
    numbers[1] = 0.0;
    marks[0] = 0;
    marks[1] = 0;
}

// After refusal 33 nothing is written.
fn keep_place(refusal: u8, numbers: &mut [f64], marks: &mut [u32])
    requires in_bounds { 2 ≤ length numbers.old }
    requires in_bounds_2 { 2 ≤ length marks.old }
    ensures numbers_after { numbers.new ≡ R.near_kept_numbers refusal numbers.old marks.old }
    ensures marks_after { marks.new ≡ R.near_kept_marks refusal numbers.old marks.old }
{
    if refusal == 33 {
        return;
    }
    settle(numbers, marks);
}

// A time put to the near-Earth satellite that the memory holds.
fn ask(
    near: NearEarth,
    numbers: &mut [f64],
    marks: &mut [u32],
    time: Microseconds,
    state: &mut [f64],
) -> u64
    requires in_bounds { 2 ≤ length numbers.old }
    requires in_bounds_2 { 2 ≤ length marks.old }
    ensures { R.NearAsked (near_row near time.0) numbers.old marks.old state.old result numbers.new marks.new state.new }
{
    if state.len() < 6 {
        return answer(17, 0, 0, 0);
    }
    let a = request(near, time, state);
    keep_place(a.refusal, numbers, marks);
    answer(a.refusal, a.rounds, 0, 0)
}

// Asks the satellite in memory for one time, in microseconds since its epoch.
pub fn request_held(numbers: &mut [f64], marks: &mut [u32], time: i64, state: &mut [f64]) -> u64
    ensures { R.RequestPost numbers.old marks.old time state.old result numbers.new marks.new state.new }
{
    match load_near(numbers, marks) {
        Ok(near) => ask(near, numbers, marks, Microseconds(time), state),
        Err(why) => match why {
            NearRefusal::DeepSpace => answer(32, 0, 0, 0),
            NearRefusal::RoomTooShort => answer(17, 0, 0, 0),
        },
    }
}

// The answer to a list; where one of its times is taken, the saved position is settled.
fn put_list(l: Listed, numbers: &mut [f64], marks: &mut [u32]) -> u64
    requires in_bounds { 2 ≤ length numbers.old }
    requires in_bounds_2 { 2 ≤ length marks.old }
    ensures value { result ≡ answer l.refusal 0 0 0 }
    ensures numbers_after { numbers.new ≡ R.near_saved_numbers l.taken numbers.old marks.old }
    ensures marks_after { marks.new ≡ R.near_saved_marks l.taken numbers.old marks.old }
{
    if l.taken {
        settle(numbers, marks);
        return answer(l.refusal, 0, 0, 0);
    }
    answer(l.refusal, 0, 0, 0)
}

// The refusal of a list of n times where the memory holds no satellite.
fn short_list(n: usize) -> u64
    ensures { result ≡ answer (R.short_list n) 0 0 0 }
{
    if 1024 < n {
        return answer(18, 0, 0, 0);
    }
    answer(17, 0, 0, 0)
}

// Asks the satellite in memory for a list of times.
pub fn request_list_held(
    numbers: &mut [f64],
    marks: &mut [u32],
    times: &[i64],
    refusals: &mut [u8],
    states: &mut [f64],
    rounds: &mut [u8],
) -> u64
    ensures { R.ListPost numbers.old marks.old times.now refusals.old states.old rounds.old result numbers.new marks.new refusals.new states.new rounds.new }
{
    match load_near(numbers, marks) {
        Ok(near) => {
            let l = request_list(near, times, refusals, states, rounds);
            put_list(l, numbers, marks)
        }
        Err(why) => match why {
            NearRefusal::DeepSpace => answer(32, 0, 0, 0),
            NearRefusal::RoomTooShort => short_list(times.len()),
        },
    }
}
