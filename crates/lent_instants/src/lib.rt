// Instants for C and Rust: an instant moved, taken apart into a date, and made from one; the answer, and
// what is left in lent memory.
#![tactic(auto)]

ghost use Rattle.std.specs.Prelude.{◌≡◌, length, Some};
ghost use Rattle.instant.specs.Calendar.{date_of};
ghost use Rattle.instant.specs.Move.{move_of};
ghost use Rattle.lent_instants.specs.Instants.{moved_answer, moved_put, instant_of, date_answer, date_over};

use answers::answer;
use instant::{Date, Instant, Microseconds, MoveRefusal, date_of, epoch_instant, move_by};

#[tactic(auto, unfolding(crate::specs::Instants::moved_answer, crate::specs::Instants::moved_put))]
fn put_moved(moved: Result<Instant, MoveRefusal>, out: &mut u64) -> u64
    ensures value { result ≡ moved_answer moved }
    ensures out_after { out.new ≡ moved_put moved out.old }
{
    match moved {
        Ok(t) => {
            *out = t.0;
            answer(0, 0, 0, 0)
        }
        Err(MoveRefusal::TooFar) => answer(9, 0, 0, 0),
        Err(MoveRefusal::Outside) => answer(6, 0, 0, 0),
    }
}

// An instant moved by a span: 0, or 9, then 6.
pub fn move_answer(t: Instant, span: Microseconds, out: &mut u64) -> u64
    ensures value { result ≡ moved_answer (move_of t.0 span.0) }
    ensures out_after { out.new ≡ moved_put (move_of t.0 span.0) out.old }
{
    put_moved(move_by(t, span), out)
}

// The instant of a date: that of the day's start, moved by the time of the day.
pub fn instant_of(year: u64, day: u64, micros: u64) -> Result<Instant, MoveRefusal>
    ensures { result ≡ instant_of year day micros }
{
    if day > 366 {
        return Err(MoveRefusal::Outside);
    }
    if micros >= 86400000000 {
        return Err(MoveRefusal::Outside);
    }
    match epoch_instant(year, day * 100000000) {
        Some(t) => move_by(t, Microseconds(micros as i64)),
        None => Err(MoveRefusal::Outside),
    }
}

// The instant of a year, a day of it from 1 and a time of that day: 0, or 6.
pub fn instant_answer(year: u64, day: u64, micros: u64, out: &mut u64) -> u64
    ensures value { result ≡ moved_answer (instant_of year day micros) }
    ensures out_after { out.new ≡ moved_put (instant_of year day micros) out.old }
{
    put_moved(instant_of(year, day, micros), out)
}

fn put_date(d: Date, out: &mut [u64]) -> u64
    ensures { (result ≡ date_answer (Some d) (length out.old)) × (out.new ≡ date_over (Some d) out.old) }
{
    if out.len() < 3 {
        return answer(17, 0, 0, 0);
    }
    out[0] = d.year;
    out[1] = d.day;
    out[2] = d.micros;
    answer(0, 0, 0, 0)
}

// An instant as year, day of the year from 1 and microseconds of that day: 0, or 6, then 17.
pub fn date_answer(t: Instant, out: &mut [u64]) -> u64
    ensures { (result ≡ date_answer (date_of t.0) (length out.old)) × (out.new ≡ date_over (date_of t.0) out.old) }
{
    match date_of(t) {
        Some(d) => put_date(d, out),
        None => answer(6, 0, 0, 0),
    }
}
