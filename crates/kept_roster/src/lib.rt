// Calls on a roster that is kept without its row, as in a file: the row is filled for the call, so that
// what is answered and what becomes of the roster depend on its bytes alone.
#![tactic(auto)]

ghost use Rattle.std.specs.Prelude.{◌≡◌};
ghost use Rattle.text.specs.Output.{Put};
ghost use Rattle.roster.specs.Roster.{roster_of};
ghost use Rattle.roster.specs.Row.{roster_with};
ghost use Rattle.roster_listing.specs.Text.{ages_text};
ghost use Rattle.kept_roster.specs.Kept.{kept_lodging, kept_lodged, kept_withdrawal, kept_withdrawn};

use roster_calls::{LodgingRefusal, WithdrawalRefusal, fill_row, lodge, withdraw};
use roster_listing::put_by_age;

// The row that goes with a roster; where the bytes are none, no row does, and the call refuses them.
fn row_of(roster: &[u8]) -> [u64; 64]
    ensures { roster_with roster.now result ≡ roster_of roster.now }
{
    let mut row = [0u64; 64];
    let _ = fill_row(roster, &mut row);
    row
}

// Lodges the pair of two lines. A refusal leaves the roster as it was.
pub fn lodge_kept(roster: &mut [u8], line1: &[u8], line2: &[u8]) -> Result<(), LodgingRefusal>
    ensures { (result ≡ kept_lodging roster.old line1.now line2.now) × (roster.new ≡ kept_lodged roster.old line1.now line2.now) }
{
    let mut row = row_of(roster);
    lodge(roster, &mut row, line1, line2)
}

// Withdraws the pair of a number. A refusal leaves the roster as it was.
pub fn withdraw_kept(roster: &mut [u8], number: u64) -> Result<(), WithdrawalRefusal>
    ensures { (result ≡ kept_withdrawal roster.old number) × (roster.new ≡ kept_withdrawn roster.old number) }
{
    let mut row = row_of(roster);
    withdraw(roster, &mut row, number)
}

// The roster listed by age, or that the bytes are none.
pub fn put_kept(out: &mut [u8], at: usize, roster: &[u8]) -> usize
    ensures { Put out.old at (ages_text (roster_of roster.now)) out.new result }
{
    let row = row_of(roster);
    put_by_age(out, at, roster, &row)
}
