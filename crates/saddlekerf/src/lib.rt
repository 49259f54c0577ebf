// The library's boundary to C and Rust: functions on numbers and slices, each a function of a crate
// below (those named lent_) under the name that crate saddlekerf_c exports. A satellite lies in memory
// that the caller lends (crate storage). include/saddlekerf.h has the same for C.
#![tactic(auto)]

ghost use Rattle.std.specs.Prelude.{◌≡◌, ◌%◌, length};
ghost use Rattle.columns.specs.Sum.{sum};
ghost use Rattle.tle.specs.Read.{form_of, read_of};
ghost use Rattle.text.specs.Output.{fronted};
ghost use Rattle.listing.specs.Listing as T;
ghost use Rattle.opening.specs.Opening.{open_pair_of};
ghost use Rattle.record_numbers.specs.Numbers.{given_of, judged_of};
ghost use Rattle.roster.specs.Row.{roster_with};
ghost use Rattle.compare.specs.Compare.{compared_of, compared_over};
ghost use Rattle.lent_fields.specs.Fields.{form_answer, form_fields, meaning_answer};
ghost use Rattle.lent_changes.specs.Answer.{compared_answer};
ghost use Rattle.roster_calls.specs.Calls.{lodging_of, lodged_over, lodged_row, withdrawal_of, withdrawn_over, withdrawn_row, filling_of, filled_row};
ghost use Rattle.report.specs.Report.{report_of};
ghost use Rattle.report.specs.Numbers.{store_refusal, stored_over};
ghost use Rattle.lent_pairs.specs.Pairs as P;
ghost use Rattle.lent_pairs.specs.Records as C;
ghost use Rattle.lent_pairs.specs.Roster.{lodging_answer, withdrawal_answer, filling_answer};
ghost use Rattle.lent_opening.specs.Opening as O;
ghost use Rattle.lent_requests.specs.Requests as R;
ghost use Rattle.lent_windows.specs.Windows as W;
ghost use Rattle.requests.specs.Lists.{over};
ghost use Rattle.lent_passes.specs.Passes.{passing_held, pass_answer, pass_instants};
ghost use Rattle.lent_passes.specs.Looks.{sighting_held, look_answer, look_numbers};
ghost use Rattle.award.specs.Plan.{answer_of};
ghost use Rattle.lent_award.specs.Answer.{award_answer};
ghost use Rattle.outward_order.specs.Order.{best_order};
ghost use Rattle.instant.specs.Calendar.{date_of};
ghost use Rattle.instant.specs.Move.{move_of};
ghost use Rattle.lent_instants.specs.Instants.{moved_answer, moved_put, instant_of, date_answer, date_over};
ghost use Rattle.saddlekerf.specs.Version.{version, boundary};

use columns::checksum;
use instant::{Instant, Microseconds};
use lent_award::check_held;
use lent_changes::compare_held;
use lent_fields::{form_answer, meaning_answer};
use lent_instants::{date_answer, instant_answer, move_answer};
use lent_opening::open_held;
use lent_pairs::{
    epoch_answer, fill_answer, lodge_answer, print_answer, read_answer, record_answer,
    withdraw_answer, write_answer,
};
use lent_passes::{look_held, next_pass_held};
use lent_requests::{request_held, request_list_held};
use lent_windows::windows_held;
use outward_order::best_order;
use report::numbers::count_text;

// The version of the library, as one number.
pub fn saddlekerf_version() -> u64
    ensures { result ≡ version }
{
    400
}

// The number of this boundary, which stands in the name too: a header of another boundary refers to
// another name and does not link.
pub fn saddlekerf_abi_3() -> u64
    ensures { result ≡ boundary }
{
    3
}

// Reads a pair: 0, or the refusal with its values.
pub fn saddlekerf_read(line1: &[u8], line2: &[u8]) -> u64
    ensures { result ≡ P.reading_answer (read_of line1.now line2.now) }
{
    read_answer(line1, line2)
}

// The checksum digit of any bytes, 0 to 9: of the first 68 of a line, what its last column has to be.
pub fn saddlekerf_checksum(bytes: &[u8]) -> u64
    ensures { result ≡ sum bytes.now % 10 }
{
    checksum(bytes)
}

// The listing of a pair, or of its refusal, at the front of `out`; 17 where that is too short.
pub fn saddlekerf_print(line1: &[u8], line2: &[u8], out: &mut [u8]) -> u64
    ensures value { result ≡ P.printed_answer (T.answer (T.reading_text (read_of line1.now line2.now)) (length out.old)) }
    ensures out_after { out.new ≡ fronted (T.reading_text (read_of line1.now line2.now)) out.old }
{
    print_answer(line1, line2, out)
}

// The epoch of a pair, in microseconds since 1957 January 1, 0h.
pub fn saddlekerf_epoch(line1: &[u8], line2: &[u8], micros: &mut u64) -> u64
    ensures value { result ≡ P.epoch_answer (read_of line1.now line2.now) }
    ensures micros_after { micros.new ≡ P.epoch_put (read_of line1.now line2.now) micros.old }
{
    epoch_answer(line1, line2, micros)
}

// The record of a pair, as 22 whole numbers at the front of `fields` (crate record_numbers).
pub fn saddlekerf_record(line1: &[u8], line2: &[u8], fields: &mut [i64]) -> u64
    ensures value { result ≡ C.record_answer (read_of line1.now line2.now) (length fields.old) }
    ensures fields_after { fields.new ≡ C.record_fields (read_of line1.now line2.now) fields.old }
{
    record_answer(line1, line2, fields)
}

// The form of a pair alone: its fields, in range or not, as 22 whole numbers at the front of `fields`.
pub fn saddlekerf_form(line1: &[u8], line2: &[u8], fields: &mut [i64]) -> u64
    ensures value { result ≡ form_answer (form_of line1.now line2.now) (length fields.old) }
    ensures fields_after { fields.new ≡ form_fields (form_of line1.now line2.now) fields.old }
{
    form_answer(line1, line2, fields)
}

// The meaning alone of the fields whose numbers are at the front of `fields`: 0 where they are a record's.
pub fn saddlekerf_meaning(fields: &[i64]) -> u64
    ensures { result ≡ meaning_answer (judged_of fields.now) }
{
    meaning_answer(fields)
}

// Line 1 or 2 of the record whose numbers are at the front of `fields`, at the front of `out`.
pub fn saddlekerf_write(fields: &[i64], line: u32, out: &mut [u8]) -> u64
    ensures value { result ≡ C.write_answer (given_of fields.now) line out.old }
    ensures out_after { out.new ≡ C.write_out (given_of fields.now) line out.old }
{
    write_answer(fields, line, out)
}

// Lodges the pair of two lines in the roster, and its instant in the row beside it.
pub fn saddlekerf_lodge(roster: &mut [u8], row: &mut [u64], line1: &[u8], line2: &[u8]) -> u64
    ensures value { result ≡ lodging_answer (lodging_of roster.old row.old line1.now line2.now) }
    ensures roster_after { roster.new ≡ lodged_over roster.old row.old line1.now line2.now }
    ensures row_after { row.new ≡ lodged_row roster.old row.old line1.now line2.now }
{
    lodge_answer(roster, row, line1, line2)
}

// Withdraws the pair of a catalogue number from the roster, and its instant from the row beside it.
pub fn saddlekerf_withdraw(roster: &mut [u8], row: &mut [u64], number: u64) -> u64
    ensures value { result ≡ withdrawal_answer (withdrawal_of roster.old row.old number) }
    ensures roster_after { roster.new ≡ withdrawn_over roster.old row.old number }
    ensures row_after { row.new ≡ withdrawn_row roster.old row.old number }
{
    withdraw_answer(roster, row, number)
}

// Fills the row of a roster that was kept without one, whatever the row held.
pub fn saddlekerf_fill_row(roster: &[u8], row: &mut [u64]) -> u64
    ensures value { result ≡ filling_answer (filling_of roster.now row.old) }
    ensures row_after { row.new ≡ filled_row roster.now row.old }
{
    fill_answer(roster, row)
}

// What changed from the first roster to the second, each with its row, at the front of `out`; 22 with the
// roster that is none or has another row, 1 or 2; 17 where `out` is too short.
pub fn saddlekerf_changes(
    first: &[u8],
    row1: &[u64],
    second: &[u8],
    row2: &[u64],
    out: &mut [u8],
) -> u64
    ensures value { result ≡ compared_answer (compared_of (roster_with first.now row1.now) (roster_with second.now row2.now) (length out.old)) }
    ensures out_after { out.new ≡ compared_over (roster_with first.now row1.now) (roster_with second.now row2.now) out.old }
{
    compare_held(first, row1, second, row2, out)
}

// The report of a whole text, its 17 numbers at the front of `counts` (crate report, specs/Numbers).
pub fn saddlekerf_report(text: &[u8], counts: &mut [u64]) -> u64
    ensures value { result ≡ store_refusal (report_of text.now) (length counts.old) }
    ensures counts_after { counts.new ≡ stored_over (report_of text.now) counts.old }
{
    count_text(text, counts)
}

// Opens a pair into lent memory.
pub fn saddlekerf_open(line1: &[u8], line2: &[u8], numbers: &mut [f64], marks: &mut [u32]) -> u64
    ensures value { result ≡ O.open_answer (open_pair_of line1.now line2.now) (length numbers.old) (length marks.old) }
    ensures numbers_after { numbers.new ≡ O.open_numbers (open_pair_of line1.now line2.now) numbers.old marks.old }
    ensures marks_after { marks.new ≡ O.open_marks (open_pair_of line1.now line2.now) numbers.old marks.old }
{
    open_held(line1, line2, numbers, marks)
}

// Asks the satellite in memory for one time, in microseconds since its epoch.
pub fn saddlekerf_request(
    numbers: &mut [f64],
    marks: &mut [u32],
    time: i64,
    state: &mut [f64],
) -> u64
    ensures { R.RequestPost numbers.old marks.old time state.old result numbers.new marks.new state.new }
{
    request_held(numbers, marks, time, state)
}

// Asks the satellite in memory for a list of times.
pub fn saddlekerf_request_list(
    numbers: &mut [f64],
    marks: &mut [u32],
    times: &[i64],
    refusals: &mut [u8],
    states: &mut [f64],
    rounds: &mut [u8],
) -> u64
    ensures { R.ListPost numbers.old marks.old times.now refusals.old states.old rounds.old result numbers.new marks.new refusals.new states.new rounds.new }
{
    request_list_held(numbers, marks, times, refusals, states, rounds)
}

// Asks the satellite in memory for its windows above a station: their first instants at the front of
// `firsts`, their last ones at the front of `lasts`.
pub fn saddlekerf_windows(
    numbers: &mut [f64],
    marks: &mut [u32],
    station: &[f64],
    start: u64,
    step: u64,
    samples: usize,
    firsts: &mut [u64],
    lasts: &mut [u64],
) -> u64
    ensures { W.WindowsPost numbers.old marks.old station.now start step samples firsts.old lasts.old result numbers.new marks.new firsts.new lasts.new }
{
    windows_held(numbers, marks, station, start, step, samples, firsts, lasts)
}

// Asks the satellite in memory for its next pass over a station (latitude and longitude in degrees, height
// in metres, least elevation in degrees): rise, highest point, set and the next call's start at the front
// of `pass`.
pub fn saddlekerf_next_pass(
    numbers: &[f64],
    marks: &[u32],
    station: &[f64],
    start: u64,
    step: u64,
    samples: u32,
    pass: &mut [u64],
) -> u64
    ensures value { result ≡ pass_answer (passing_held numbers.now marks.now station.now start step samples (length pass.old)) }
    ensures pass_after { pass.new ≡ over (pass_instants (passing_held numbers.now marks.now station.now start step samples (length pass.old))) pass.old }
{
    next_pass_held(numbers, marks, station, start, step, samples, pass)
}

// Asks where the satellite in memory stands at an instant, seen from a station: azimuth, elevation and
// range at the front of `look`.
pub fn saddlekerf_look(
    numbers: &[f64],
    marks: &[u32],
    station: &[f64],
    instant: u64,
    look: &mut [f64],
) -> u64
    ensures value { result ≡ look_answer (sighting_held numbers.now marks.now station.now instant (length look.old)) }
    ensures look_after { look.new ≡ over (look_numbers (sighting_held numbers.now marks.now station.now instant (length look.old))) look.old }
{
    look_held(numbers, marks, station, instant, look)
}

// Puts a list of times in the order that takes the fewest strides of a newly opened satellite.
pub fn saddlekerf_best_order(times: &mut [i64]) -> u64
    ensures { (result ≡ 0) × (times.new ≡ best_order times.old) }
{
    best_order(times);
    0
}

// Checks an award plan: offers of four numbers each, entries that name offers, the claimed total in cents
// and the turnaround in seconds.
pub fn saddlekerf_award(offers: &[u64], entries: &[u64], total: u64, turnaround: u64) -> u64
    ensures { result ≡ award_answer (answer_of offers.now entries.now total turnaround) }
{
    check_held(offers, entries, total, turnaround)
}

// An instant moved by a span.
pub fn saddlekerf_move(instant: u64, span: i64, moved: &mut u64) -> u64
    ensures value { result ≡ moved_answer (move_of instant span) }
    ensures moved_after { moved.new ≡ moved_put (move_of instant span) moved.old }
{
    move_answer(Instant(instant), Microseconds(span), moved)
}

// An instant as a date: year, day of the year from 1, microseconds of that day.
pub fn saddlekerf_date(instant: u64, date: &mut [u64]) -> u64
    ensures { (result ≡ date_answer (date_of instant) (length date.old)) × (date.new ≡ date_over (date_of instant) date.old) }
{
    date_answer(Instant(instant), date)
}

// The instant of a date.
pub fn saddlekerf_instant(year: u64, day: u64, micros: u64, instant: &mut u64) -> u64
    ensures value { result ≡ moved_answer (instant_of year day micros) }
    ensures instant_after { instant.new ≡ moved_put (instant_of year day micros) instant.old }
{
    instant_answer(year, day, micros, instant)
}
