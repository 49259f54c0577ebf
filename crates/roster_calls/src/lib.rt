// Calls on a roster of pairs and the row of instants beside it (document 02, wishes 2 and 8): lodging,
// withdrawing, and filling the row of a roster that was kept without one. Crate roster has what both are.
#![tactic(auto)]

ghost use Rattle.std.specs.Prelude.{◌≡◌, true, Ok};
ghost use Rattle.tle.specs.Legal.{legal};
ghost use Rattle.roster.specs.Roster.{bytes_of};
ghost use Rattle.roster.specs.Row.{row_of, roster_with};
ghost use Rattle.roster_calls.specs.declared.LodgingRefusal.TheVariants as lodging;
ghost use Rattle.roster_calls.specs.Calls.{lodging_number, withdrawal_number, filling_number, answered, lodged_by, lodging_of, lodged_over, lodged_row, withdrawal_of, withdrawn_over, withdrawn_row, filling_of, filled_row};

use gaps::{close_gap, open_gap};
use roster::{instant_of, judge, put_pair, scan_buffer};
use tle::{Record, Refusal, read_form, read_meaning};

mod gaps;

pub use gaps::clear;

// Why a pair is not lodged.
#[derive(Clone, Copy)]
pub enum LodgingRefusal {
    // 1 to 6: reading refuses the lines.
    Unread(Refusal),
    // 22: the buffer is no roster or has another length, or the row has another length or disagrees with
    // the pairs.
    NoRoster,
    // 20: the roster has a pair of this number whose epoch is later.
    Older,
    // 19: all 64 places hold other numbers.
    Full,
}

impl From<Refusal> for LodgingRefusal {
    ghost from_gives = { λ why refusal. refusal ≡ lodging.Unread why };

    fn from(why: Refusal) -> LodgingRefusal {
        LodgingRefusal::Unread(why)
    }
}

// Document 02's number of the refusal, 0 where the pair was lodged.
pub fn lodging_number(answer: Result<(), LodgingRefusal>) -> u64
    ensures { result ≡ lodging_number answer }
{
    match answer {
        Ok(()) => 0,
        Err(LodgingRefusal::Unread(why)) => why.number(),
        Err(LodgingRefusal::NoRoster) => 22,
        Err(LodgingRefusal::Older) => 20,
        Err(LodgingRefusal::Full) => 19,
    }
}

// Why no pair is withdrawn.
#[derive(Clone, Copy)]
pub enum WithdrawalRefusal {
    // 22: the buffer is no roster or has another length, or the row has another length or disagrees with
    // the pairs.
    NoRoster,
    // 21: the roster has no pair of this number.
    Absent,
}

// Document 02's number of the refusal, 0 where the pair was withdrawn.
pub fn withdrawal_number(answer: Result<(), WithdrawalRefusal>) -> u64
    ensures { result ≡ withdrawal_number answer }
{
    match answer {
        Ok(()) => 0,
        Err(WithdrawalRefusal::NoRoster) => 22,
        Err(WithdrawalRefusal::Absent) => 21,
    }
}

// Why a row is not filled.
#[derive(Clone, Copy)]
pub enum FillingRefusal {
    // 22: the buffer is no roster or has another length, or the row has another length.
    NoRoster,
}

// Document 02's number of the refusal, 0 where the row was filled.
pub fn filling_number(answer: Result<(), FillingRefusal>) -> u64
    ensures { result ≡ filling_number answer }
{
    match answer {
        Ok(()) => 0,
        Err(FillingRefusal::NoRoster) => 22,
    }
}

// A pair that was read: refusals 22, 20 and 19, or it takes its place. The epoch of the pair that it would
// replace stands in the row.
fn lodge_record(roster: &mut [u8], row: &mut [u64], r: Record) -> Result<(), LodgingRefusal>
    requires { legal r ≡ true }
    ensures { (result ≡ answered (Ok r) (roster_with roster.old row.old)) × (roster.new ≡ lodged_by bytes_of (Ok r) (roster_with roster.old row.old) roster.old) × (row.new ≡ lodged_by row_of (Ok r) (roster_with roster.old row.old) row.old) }
{
    let found = judge(roster, row, r.number);
    let Some(t) = found else {
        return Err(LodgingRefusal::NoRoster);
    };
    let place = t.below;
    let at = place * 138;
    let since = instant_of(r).0;
    if t.present {
        let old = row[place];
        if since < old {
            return Err(LodgingRefusal::Older);
        }
        put_pair(roster, at, r);
        row[place] = since;
        return Ok(());
    }
    if 64 <= t.count {
        return Err(LodgingRefusal::Full);
    }
    open_gap(roster, at, 138);
    put_pair(roster, at, r);
    open_gap(row, place, 1);
    row[place] = since;
    Ok(())
}

// Lodges the pair of two lines, written our way, and its instant. A refusal leaves roster and row as they
// were.
pub fn lodge(
    roster: &mut [u8],
    row: &mut [u64],
    line1: &[u8],
    line2: &[u8],
) -> Result<(), LodgingRefusal>
    ensures { (result ≡ lodging_of roster.old row.old line1.now line2.now) × (roster.new ≡ lodged_over roster.old row.old line1.now line2.now) × (row.new ≡ lodged_row roster.old row.old line1.now line2.now) }
{
    let fields = read_form(line1, line2)?;
    let r = read_meaning(fields)?;
    lodge_record(roster, row, r)
}

// Withdraws the pair of a number: the later pairs and their instants close the gap, and zeros follow. A
// refusal leaves roster and row as they were.
pub fn withdraw(roster: &mut [u8], row: &mut [u64], number: u64) -> Result<(), WithdrawalRefusal>
    ensures { (result ≡ withdrawal_of roster.old row.old number) × (roster.new ≡ withdrawn_over roster.old row.old number) × (row.new ≡ withdrawn_row roster.old row.old number) }
{
    let found = judge(roster, row, number);
    let Some(t) = found else {
        return Err(WithdrawalRefusal::NoRoster);
    };
    let place = t.below;
    if t.present {
        close_gap(roster, place * 138, 138, 0);
        close_gap(row, place, 1, 0);
        return Ok(());
    }
    Err(WithdrawalRefusal::Absent)
}

// Fills the row of a roster that was kept without one, whatever the row held. A refusal leaves it as it
// was.
pub fn fill_row(roster: &[u8], row: &mut [u64]) -> Result<(), FillingRefusal>
    ensures { (result ≡ filling_of roster.now row.old) × (row.new ≡ filled_row roster.now row.old) }
{
    let s = scan_buffer(roster, 0);
    let found = s.found;
    let Some(_) = found else {
        return Err(FillingRefusal::NoRoster);
    };
    if row.len() != 64 {
        return Err(FillingRefusal::NoRoster);
    }
    row.copy_from_slice(&s.row);
    Ok(())
}
