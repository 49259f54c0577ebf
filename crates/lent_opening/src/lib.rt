// A pair opened into memory that a caller lends: the function behind `saddlekerf_open`.
#![tactic(auto)]

ghost use Rattle.std.specs.Prelude.{◌≡◌, length};
ghost use Rattle.answers.specs.Answer.{answer};
ghost use Rattle.opening.specs.Opening.{open_of, opened, open_pair_of, number};
ghost use Rattle.lent_opening.specs.Opening as O;

use answers::{answer, refusal_answer};
use opening::opening::open;
use storing::store;
use tle::{Record, read_form, read_meaning};

fn opening_answer(why: opening::opening::Refusal) -> u64
    ensures { result ≡ answer (number why) 0 0 0 }
{
    why.number()
}

// Opens a record into the memory. A pair is opened by this after reading, and the report's pairs are: one
// caller of `open` lets the compiler make the satellite where it is to lie.
pub fn open_record(r: Record, numbers: &mut [f64], marks: &mut [u32]) -> u64
    ensures value { result ≡ O.open_answer (opened (open_of r)) (length numbers.old) (length marks.old) }
    ensures numbers_after { numbers.new ≡ O.open_numbers (opened (open_of r)) numbers.old marks.old }
    ensures marks_after { marks.new ≡ O.open_marks (opened (open_of r)) numbers.old marks.old }
{
    match open(r) {
        Ok(s) => answer(store(s, numbers, marks), 0, 0, 0),
        Err(why) => opening_answer(why),
    }
}

// Opens a pair into the memory.
pub fn open_held(line1: &[u8], line2: &[u8], numbers: &mut [f64], marks: &mut [u32]) -> u64
    ensures value { result ≡ O.open_answer (open_pair_of line1.now line2.now) (length numbers.old) (length marks.old) }
    ensures numbers_after { numbers.new ≡ O.open_numbers (open_pair_of line1.now line2.now) numbers.old marks.old }
    ensures marks_after { marks.new ≡ O.open_marks (open_pair_of line1.now line2.now) numbers.old marks.old }
{
    let fields = match read_form(line1, line2) {
        Ok(fields) => fields,
        Err(why) => return refusal_answer(why),
    };
    match read_meaning(fields) {
        Ok(r) => open_record(r, numbers, marks),
        Err(why) => refusal_answer(why),
    }
}
