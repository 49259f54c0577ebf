// The rows of `ephemeris`: a satellite in lent memory is asked for a time or an instant, alone, so that a
// row tells its own strides, and the row is put as text.
#![tactic(auto)]

pub mod rows; // a request's line answered on standard output

ghost use Rattle.ephemeris_answers.specs.Answers.{Rowed, TimeRowed, InstantRowed};

use ephemeris_text::{State, put_row};
use instant::{Instant, Microseconds, MoveRefusal, move_by, since};
use lent_requests::request_held;

// What every row has in common: the separator and the epoch.
#[derive(Clone, Copy)]
pub struct Sheet {
    pub sep: u8,
    pub epoch: Instant,
}

// The row of a time, which shows a given instant.
fn put_answer(
    out: &mut [u8],
    at: usize,
    sep: u8,
    when: Result<Instant, MoveRefusal>,
    time: i64,
    numbers: &mut [f64; 83],
    marks: &mut [u32; 6],
) -> usize
    ensures { Rowed sep when time numbers.old marks.old out.old at numbers.new marks.new out.new result }
{
    let mut s = [0f64; 6];
    let a = request_held(numbers, marks, time, &mut s);
    let state = State {
        x: s[0],
        y: s[1],
        z: s[2],
        vx: s[3],
        vy: s[4],
        vz: s[5],
    };
    put_row(out, at, sep, when, a % 256, state, a / 4294967296)
}

// The row of a time in microseconds since the epoch.
pub fn put_time(
    out: &mut [u8],
    at: usize,
    sheet: Sheet,
    time: i64,
    numbers: &mut [f64; 83],
    marks: &mut [u32; 6],
) -> usize
    ensures { TimeRowed sheet time numbers.old marks.old out.old at numbers.new marks.new out.new result }
{
    let epoch = sheet.epoch;
    let when = move_by(epoch, Microseconds(time));
    put_answer(out, at, sheet.sep, when, time, numbers, marks)
}

// The row of an instant. One that was read and an epoch lie in the calendar, so there is a time between
// them.
pub fn put_at(
    out: &mut [u8],
    at: usize,
    sheet: Sheet,
    t: Instant,
    numbers: &mut [f64; 83],
    marks: &mut [u32; 6],
) -> usize
    ensures { InstantRowed sheet t numbers.old marks.old out.old at numbers.new marks.new out.new result }
{
    let epoch = sheet.epoch;
    match since(t, epoch) {
        Some(time) => put_answer(out, at, sheet.sep, Ok(t), time.0, numbers, marks),
        None => at,
    }
}
