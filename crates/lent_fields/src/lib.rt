// What the functions for C and Rust answer of the form of two lines alone, and of the meaning of fields
// alone (document 02, wish 9), with all that they leave in lent memory. `saddlekerf_form` and
// `saddlekerf_meaning` are these, exported.
#![tactic(auto)]

ghost use Rattle.std.specs.Prelude.{◌≡◌, length};
ghost use Rattle.tle.specs.Read.{form_of};
ghost use Rattle.record_numbers.specs.Numbers.{judged_of};
ghost use Rattle.lent_fields.specs.Fields.{form_answer, form_fields, cut_answer, meaning_answer};

use answers::{answer, refusal_answer};
use record_numbers::{judge_numbers, store_fields};
use tle::{Record, Refusal, read_form};

// The form of a pair: its fields, in range or not, as 22 whole numbers at the front of `fields` (crate
// record_numbers).
pub fn form_answer(line1: &[u8], line2: &[u8], fields: &mut [i64]) -> u64
    ensures value { result ≡ form_answer (form_of line1.now line2.now) (length fields.old) }
    ensures fields_after { fields.new ≡ form_fields (form_of line1.now line2.now) fields.old }
{
    let f = match read_form(line1, line2) {
        Ok(f) => f,
        Err(why) => return refusal_answer(why),
    };
    answer(store_fields(f, fields), 0, 0, 0)
}

fn reading_answer(reading: Result<Record, Refusal>) -> u64
    ensures { result ≡ cut_answer reading }
{
    match reading {
        Ok(_) => answer(0, 0, 0, 0),
        Err(why) => refusal_answer(why),
    }
}

// The meaning of the fields that numbers give, whoever wrote them: 0 where they are a record's.
pub fn meaning_answer(fields: &[i64]) -> u64
    ensures { result ≡ meaning_answer (judged_of fields.now) }
{
    let judged = judge_numbers(fields);
    match judged {
        Some(reading) => reading_answer(reading),
        None => answer(17, 0, 0, 0),
    }
}
