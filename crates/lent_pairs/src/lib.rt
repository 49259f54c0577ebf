// What the functions for C and Rust answer about pairs, with all that they leave in lent memory: read,
// printed, the epoch, the record, a line written, a roster. `saddlekerf_read` and its like are these,
// exported.
#![tactic(auto)]

ghost use Rattle.std.specs.Prelude.{◌≡◌, length};
ghost use Rattle.tle.specs.Read.{read_of};
ghost use Rattle.text.specs.Output.{fronted};
ghost use Rattle.listing.specs.Listing as T;
ghost use Rattle.record_numbers.specs.Numbers.{given_of};
ghost use Rattle.roster_calls.specs.Calls.{lodging_of, lodged_over, lodged_row, withdrawal_of, withdrawn_over, withdrawn_row, filling_of, filled_row};
ghost use Rattle.lent_pairs.specs.Pairs as P;
ghost use Rattle.lent_pairs.specs.Records as C;
ghost use Rattle.lent_pairs.specs.Roster.{lodging_answer, withdrawal_answer, filling_answer, UnreadFits};

use answers::{answer, refusal_answer};
use instant::Instant;
use listing::print_pair;
use record_numbers::{GivenRefusal, record_of, store_record};
use roster_calls::{LodgingRefusal, fill_row, filling_number, lodge, withdraw, withdrawal_number};
use tle::{Line, Record, epoch, read_form, read_meaning};
use tle_writer::{fill_line, writing_number};

// Reads a pair: 0, or the refusal with its values.
pub fn read_answer(line1: &[u8], line2: &[u8]) -> u64
    ensures { result ≡ P.reading_answer (read_of line1.now line2.now) }
{
    let f = match read_form(line1, line2) {
        Ok(f) => f,
        Err(why) => return refusal_answer(why),
    };
    match read_meaning(f) {
        Ok(_) => answer(0, 0, 0, 0),
        Err(why) => refusal_answer(why),
    }
}

// The listing of a pair, or of its refusal, at the front of `out`; 17 where that is too short.
pub fn print_answer(line1: &[u8], line2: &[u8], out: &mut [u8]) -> u64
    ensures value { result ≡ P.printed_answer (T.answer (T.reading_text (read_of line1.now line2.now)) (length out.old)) }
    ensures out_after { out.new ≡ fronted (T.reading_text (read_of line1.now line2.now)) out.old }
{
    match print_pair(line1, line2, out) {
        Some(n) => answer(0, 0, 0, n as u32),
        None => answer(17, 0, 0, 0),
    }
}

fn put_instant(e: Option<Instant>, micros: &mut u64) -> u64
    ensures value { result ≡ P.instant_answer e }
    ensures micros_after { micros.new ≡ P.instant_put e micros.old }
{
    match e {
        Some(t) => {
            *micros = t.0;
            answer(0, 0, 0, 0)
        }
        None => answer(6, 0, 0, 0),
    }
}

// The epoch of a pair, in microseconds since 1957 January 1, 0h.
pub fn epoch_answer(line1: &[u8], line2: &[u8], micros: &mut u64) -> u64
    ensures value { result ≡ P.epoch_answer (read_of line1.now line2.now) }
    ensures micros_after { micros.new ≡ P.epoch_put (read_of line1.now line2.now) micros.old }
{
    let f = match read_form(line1, line2) {
        Ok(f) => f,
        Err(why) => return refusal_answer(why),
    };
    match read_meaning(f) {
        Ok(r) => put_instant(epoch(r), micros),
        Err(why) => refusal_answer(why),
    }
}

// The record of a pair, as 22 whole numbers at the front of `fields` (crate record_numbers).
pub fn record_answer(line1: &[u8], line2: &[u8], fields: &mut [i64]) -> u64
    ensures value { result ≡ C.record_answer (read_of line1.now line2.now) (length fields.old) }
    ensures fields_after { fields.new ≡ C.record_fields (read_of line1.now line2.now) fields.old }
{
    let f = match read_form(line1, line2) {
        Ok(f) => f,
        Err(why) => return refusal_answer(why),
    };
    match read_meaning(f) {
        Ok(r) => answer(store_record(r, fields), 0, 0, 0),
        Err(why) => refusal_answer(why),
    }
}

// One of a record's two lines, by its number, at the front of `out`: 0, or the refusal.
fn put_line(r: Record, line: u32, out: &mut [u8]) -> u8
    ensures value { result ≡ C.line_refusal r line out.old }
    ensures out_after { out.new ≡ C.line_over r line out.old }
{
    if line == 1 {
        return writing_number(fill_line(r, Line::One, out));
    }
    if line == 2 {
        return writing_number(fill_line(r, Line::Two, out));
    }
    16
}

// A line written, 69 bytes, or its refusal.
fn line_answer(refusal: u8) -> u64
    ensures { result ≡ C.line_answer refusal }
{
    if refusal == 0 {
        return answer(0, 0, 0, 69);
    }
    answer(refusal, 0, 0, 0)
}

// Line 1 or 2 of the record whose numbers are at the front of `fields`, at the front of `out`.
#[tactic(auto, unfolding(crate::specs::Records::write_answer, crate::specs::Records::write_out))]
pub fn write_answer(fields: &[i64], line: u32, out: &mut [u8]) -> u64
    ensures value { result ≡ C.write_answer (given_of fields.now) line out.old }
    ensures out_after { out.new ≡ C.write_out (given_of fields.now) line out.old }
{
    match record_of(fields) {
        Ok(r) => line_answer(put_line(r, line, out)),
        Err(GivenRefusal::NoClass) => answer(16, 0, 0, 0),
        Err(GivenRefusal::TooShort) => answer(17, 0, 0, 0),
    }
}

// A pair lodged, or its refusal with what comes back with it.
fn lodging_answer(a: Result<(), LodgingRefusal>) -> u64
    requires { UnreadFits a }
    ensures { result ≡ lodging_answer a }
{
    match a {
        Ok(()) => answer(0, 0, 0, 0),
        Err(refusal) => match refusal {
            LodgingRefusal::Unread(why) => refusal_answer(why),
            LodgingRefusal::NoRoster => answer(22, 0, 0, 0),
            LodgingRefusal::Older => answer(20, 0, 0, 0),
            LodgingRefusal::Full => answer(19, 0, 0, 0),
        },
    }
}

// Lodges the pair of two lines in the roster, and its instant in the row beside it.
pub fn lodge_answer(roster: &mut [u8], row: &mut [u64], line1: &[u8], line2: &[u8]) -> u64
    ensures value { result ≡ lodging_answer (lodging_of roster.old row.old line1.now line2.now) }
    ensures roster_after { roster.new ≡ lodged_over roster.old row.old line1.now line2.now }
    ensures row_after { row.new ≡ lodged_row roster.old row.old line1.now line2.now }
{
    lodging_answer(lodge(roster, row, line1, line2))
}

// Withdraws the pair of a catalogue number from the roster, and its instant from the row beside it.
pub fn withdraw_answer(roster: &mut [u8], row: &mut [u64], number: u64) -> u64
    ensures value { result ≡ withdrawal_answer (withdrawal_of roster.old row.old number) }
    ensures roster_after { roster.new ≡ withdrawn_over roster.old row.old number }
    ensures row_after { row.new ≡ withdrawn_row roster.old row.old number }
{
    withdrawal_number(withdraw(roster, row, number))
}

// Fills the row of a roster that was kept without one, whatever the row held.
pub fn fill_answer(roster: &[u8], row: &mut [u64]) -> u64
    ensures value { result ≡ filling_answer (filling_of roster.now row.old) }
    ensures row_after { row.new ≡ filled_row roster.now row.old }
{
    filling_number(fill_row(roster, row))
}
