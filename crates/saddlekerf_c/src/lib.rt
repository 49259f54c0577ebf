// The archive for C and Rust: each function of crate saddlekerf under its own name and with its own
// clauses, exported. A slice is a pointer and a length. include/saddlekerf.h has the same for C.
#![tactic(auto)]

ghost use Rattle.std.specs.Prelude.{◌≡◌, ◌%◌, length};
ghost use Rattle.columns.specs.Sum.{sum};
ghost use Rattle.tle.specs.Read.{form_of, read_of};
ghost use Rattle.text.specs.Output.{fronted};
ghost use Rattle.listing.specs.Listing as T;
ghost use Rattle.opening.specs.Opening.{open_pair_of};
ghost use Rattle.record_numbers.specs.Numbers.{given_of, judged_of};
ghost use Rattle.roster.specs.Row.{roster_with};
ghost use Rattle.compare.specs.Compare.{compared_of, compared_over};
ghost use Rattle.lent_fields.specs.Fields.{form_answer, form_fields, meaning_answer};
ghost use Rattle.lent_changes.specs.Answer.{compared_answer};
ghost use Rattle.roster_calls.specs.Calls.{lodging_of, lodged_over, lodged_row, withdrawal_of, withdrawn_over, withdrawn_row, filling_of, filled_row};
ghost use Rattle.report.specs.Report.{report_of};
ghost use Rattle.report.specs.Numbers.{store_refusal, stored_over};
ghost use Rattle.lent_pairs.specs.Pairs as P;
ghost use Rattle.lent_pairs.specs.Records as C;
ghost use Rattle.lent_pairs.specs.Roster.{lodging_answer, withdrawal_answer, filling_answer};
ghost use Rattle.lent_opening.specs.Opening as O;
ghost use Rattle.lent_requests.specs.Requests as R;
ghost use Rattle.lent_windows.specs.Windows as W;
ghost use Rattle.requests.specs.Lists.{over};
ghost use Rattle.lent_passes.specs.Passes.{passing_held, pass_answer, pass_instants};
ghost use Rattle.lent_passes.specs.Looks.{sighting_held, look_answer, look_numbers};
ghost use Rattle.award.specs.Plan.{answer_of};
ghost use Rattle.lent_award.specs.Answer.{award_answer};
ghost use Rattle.outward_order.specs.Order.{best_order};
ghost use Rattle.instant.specs.Calendar.{date_of};
ghost use Rattle.instant.specs.Move.{move_of};
ghost use Rattle.lent_instants.specs.Instants.{moved_answer, moved_put, instant_of, date_answer, date_over};
ghost use Rattle.saddlekerf.specs.Version.{version, boundary};

#[unsafe(no_mangle)]
pub extern "C" fn saddlekerf_version() -> u64
    ensures { result ≡ version }
{
    saddlekerf::saddlekerf_version()
}

#[unsafe(no_mangle)]
pub extern "C" fn saddlekerf_abi_3() -> u64
    ensures { result ≡ boundary }
{
    saddlekerf::saddlekerf_abi_3()
}

#[unsafe(no_mangle)]
pub extern "C" fn saddlekerf_read(line1: &[u8], line2: &[u8]) -> u64
    ensures { result ≡ P.reading_answer (read_of line1.now line2.now) }
{
    saddlekerf::saddlekerf_read(line1, line2)
}

#[unsafe(no_mangle)]
pub extern "C" fn saddlekerf_checksum(bytes: &[u8]) -> u64
    ensures { result ≡ sum bytes.now % 10 }
{
    saddlekerf::saddlekerf_checksum(bytes)
}

#[unsafe(no_mangle)]
pub extern "C" fn saddlekerf_print(line1: &[u8], line2: &[u8], out: &mut [u8]) -> u64
    ensures value { result ≡ P.printed_answer (T.answer (T.reading_text (read_of line1.now line2.now)) (length out.old)) }
    ensures out_after { out.new ≡ fronted (T.reading_text (read_of line1.now line2.now)) out.old }
{
    saddlekerf::saddlekerf_print(line1, line2, out)
}

#[unsafe(no_mangle)]
pub extern "C" fn saddlekerf_epoch(line1: &[u8], line2: &[u8], micros: &mut u64) -> u64
    ensures value { result ≡ P.epoch_answer (read_of line1.now line2.now) }
    ensures micros_after { micros.new ≡ P.epoch_put (read_of line1.now line2.now) micros.old }
{
    saddlekerf::saddlekerf_epoch(line1, line2, micros)
}

#[unsafe(no_mangle)]
pub extern "C" fn saddlekerf_record(line1: &[u8], line2: &[u8], fields: &mut [i64]) -> u64
    ensures value { result ≡ C.record_answer (read_of line1.now line2.now) (length fields.old) }
    ensures fields_after { fields.new ≡ C.record_fields (read_of line1.now line2.now) fields.old }
{
    saddlekerf::saddlekerf_record(line1, line2, fields)
}

#[unsafe(no_mangle)]
pub extern "C" fn saddlekerf_form(line1: &[u8], line2: &[u8], fields: &mut [i64]) -> u64
    ensures value { result ≡ form_answer (form_of line1.now line2.now) (length fields.old) }
    ensures fields_after { fields.new ≡ form_fields (form_of line1.now line2.now) fields.old }
{
    saddlekerf::saddlekerf_form(line1, line2, fields)
}

#[unsafe(no_mangle)]
pub extern "C" fn saddlekerf_meaning(fields: &[i64]) -> u64
    ensures { result ≡ meaning_answer (judged_of fields.now) }
{
    saddlekerf::saddlekerf_meaning(fields)
}

#[unsafe(no_mangle)]
pub extern "C" fn saddlekerf_write(fields: &[i64], line: u32, out: &mut [u8]) -> u64
    ensures value { result ≡ C.write_answer (given_of fields.now) line out.old }
    ensures out_after { out.new ≡ C.write_out (given_of fields.now) line out.old }
{
    saddlekerf::saddlekerf_write(fields, line, out)
}

#[unsafe(no_mangle)]
pub extern "C" fn saddlekerf_lodge(
    roster: &mut [u8],
    row: &mut [u64],
    line1: &[u8],
    line2: &[u8],
) -> u64
    ensures value { result ≡ lodging_answer (lodging_of roster.old row.old line1.now line2.now) }
    ensures roster_after { roster.new ≡ lodged_over roster.old row.old line1.now line2.now }
    ensures row_after { row.new ≡ lodged_row roster.old row.old line1.now line2.now }
{
    saddlekerf::saddlekerf_lodge(roster, row, line1, line2)
}

#[unsafe(no_mangle)]
pub extern "C" fn saddlekerf_withdraw(roster: &mut [u8], row: &mut [u64], number: u64) -> u64
    ensures value { result ≡ withdrawal_answer (withdrawal_of roster.old row.old number) }
    ensures roster_after { roster.new ≡ withdrawn_over roster.old row.old number }
    ensures row_after { row.new ≡ withdrawn_row roster.old row.old number }
{
    saddlekerf::saddlekerf_withdraw(roster, row, number)
}

#[unsafe(no_mangle)]
pub extern "C" fn saddlekerf_fill_row(roster: &[u8], row: &mut [u64]) -> u64
    ensures value { result ≡ filling_answer (filling_of roster.now row.old) }
    ensures row_after { row.new ≡ filled_row roster.now row.old }
{
    saddlekerf::saddlekerf_fill_row(roster, row)
}

#[unsafe(no_mangle)]
pub extern "C" fn saddlekerf_changes(
    first: &[u8],
    row1: &[u64],
    second: &[u8],
    row2: &[u64],
    out: &mut [u8],
) -> u64
    ensures value { result ≡ compared_answer (compared_of (roster_with first.now row1.now) (roster_with second.now row2.now) (length out.old)) }
    ensures out_after { out.new ≡ compared_over (roster_with first.now row1.now) (roster_with second.now row2.now) out.old }
{
    saddlekerf::saddlekerf_changes(first, row1, second, row2, out)
}

#[unsafe(no_mangle)]
pub extern "C" fn saddlekerf_report(text: &[u8], counts: &mut [u64]) -> u64
    ensures value { result ≡ store_refusal (report_of text.now) (length counts.old) }
    ensures counts_after { counts.new ≡ stored_over (report_of text.now) counts.old }
{
    saddlekerf::saddlekerf_report(text, counts)
}

#[unsafe(no_mangle)]
pub extern "C" fn saddlekerf_open(
    line1: &[u8],
    line2: &[u8],
    numbers: &mut [f64],
    marks: &mut [u32],
) -> u64
    ensures value { result ≡ O.open_answer (open_pair_of line1.now line2.now) (length numbers.old) (length marks.old) }
    ensures numbers_after { numbers.new ≡ O.open_numbers (open_pair_of line1.now line2.now) numbers.old marks.old }
    ensures marks_after { marks.new ≡ O.open_marks (open_pair_of line1.now line2.now) numbers.old marks.old }
{
    saddlekerf::saddlekerf_open(line1, line2, numbers, marks)
}

#[unsafe(no_mangle)]
pub extern "C" fn saddlekerf_request(
    numbers: &mut [f64],
    marks: &mut [u32],
    time: i64,
    state: &mut [f64],
) -> u64
    ensures { R.RequestPost numbers.old marks.old time state.old result numbers.new marks.new state.new }
{
    saddlekerf::saddlekerf_request(numbers, marks, time, state)
}

#[unsafe(no_mangle)]
pub extern "C" fn saddlekerf_request_list(
    numbers: &mut [f64],
    marks: &mut [u32],
    times: &[i64],
    refusals: &mut [u8],
    states: &mut [f64],
    rounds: &mut [u8],
) -> u64
    ensures { R.ListPost numbers.old marks.old times.now refusals.old states.old rounds.old result numbers.new marks.new refusals.new states.new rounds.new }
{
    saddlekerf::saddlekerf_request_list(numbers, marks, times, refusals, states, rounds)
}

#[unsafe(no_mangle)]
pub extern "C" fn saddlekerf_windows(
    numbers: &mut [f64],
    marks: &mut [u32],
    station: &[f64],
    start: u64,
    step: u64,
    samples: usize,
    firsts: &mut [u64],
    lasts: &mut [u64],
) -> u64
    ensures { W.WindowsPost numbers.old marks.old station.now start step samples firsts.old lasts.old result numbers.new marks.new firsts.new lasts.new }
{
    saddlekerf::saddlekerf_windows(numbers, marks, station, start, step, samples, firsts, lasts)
}

#[unsafe(no_mangle)]
pub extern "C" fn saddlekerf_next_pass(
    numbers: &[f64],
    marks: &[u32],
    station: &[f64],
    start: u64,
    step: u64,
    samples: u32,
    pass: &mut [u64],
) -> u64
    ensures value { result ≡ pass_answer (passing_held numbers.now marks.now station.now start step samples (length pass.old)) }
    ensures pass_after { pass.new ≡ over (pass_instants (passing_held numbers.now marks.now station.now start step samples (length pass.old))) pass.old }
{
    saddlekerf::saddlekerf_next_pass(numbers, marks, station, start, step, samples, pass)
}

#[unsafe(no_mangle)]
pub extern "C" fn saddlekerf_look(
    numbers: &[f64],
    marks: &[u32],
    station: &[f64],
    instant: u64,
    look: &mut [f64],
) -> u64
    ensures value { result ≡ look_answer (sighting_held numbers.now marks.now station.now instant (length look.old)) }
    ensures look_after { look.new ≡ over (look_numbers (sighting_held numbers.now marks.now station.now instant (length look.old))) look.old }
{
    saddlekerf::saddlekerf_look(numbers, marks, station, instant, look)
}

#[unsafe(no_mangle)]
pub extern "C" fn saddlekerf_best_order(times: &mut [i64]) -> u64
    ensures { (result ≡ 0) × (times.new ≡ best_order times.old) }
{
    saddlekerf::saddlekerf_best_order(times)
}

#[unsafe(no_mangle)]
pub extern "C" fn saddlekerf_award(
    offers: &[u64],
    entries: &[u64],
    total: u64,
    turnaround: u64,
) -> u64
    ensures { result ≡ award_answer (answer_of offers.now entries.now total turnaround) }
{
    saddlekerf::saddlekerf_award(offers, entries, total, turnaround)
}

#[unsafe(no_mangle)]
pub extern "C" fn saddlekerf_move(instant: u64, span: i64, moved: &mut u64) -> u64
    ensures value { result ≡ moved_answer (move_of instant span) }
    ensures moved_after { moved.new ≡ moved_put (move_of instant span) moved.old }
{
    saddlekerf::saddlekerf_move(instant, span, moved)
}

#[unsafe(no_mangle)]
pub extern "C" fn saddlekerf_date(instant: u64, date: &mut [u64]) -> u64
    ensures { (result ≡ date_answer (date_of instant) (length date.old)) × (date.new ≡ date_over (date_of instant) date.old) }
{
    saddlekerf::saddlekerf_date(instant, date)
}

#[unsafe(no_mangle)]
pub extern "C" fn saddlekerf_instant(year: u64, day: u64, micros: u64, instant: &mut u64) -> u64
    ensures value { result ≡ moved_answer (instant_of year day micros) }
    ensures instant_after { instant.new ≡ moved_put (instant_of year day micros) instant.old }
{
    saddlekerf::saddlekerf_instant(year, day, micros, instant)
}
