// A roster of pairs in a lent buffer of 8,832 bytes (document 02, wish 2): up to 64 pairs of 138 bytes as
// tle_writer writes them, by rising catalogue number, packed from the front, zeros after. Beside it lies a
// row of 64 instants, one for each place (wish 8). Crate roster_calls has the calls that change both.
#![tactic(auto)]

ghost use Rattle.std.specs.Prelude.{◌≡◌};
ghost use Rattle.roster.specs.Roster.{is_none};
ghost use Rattle.roster.specs.Row.{roster_with};

mod places;
mod scan;

pub use places::{all_zero, put_pair};
pub use scan::{Contents, Tally, instant_of, judge, scan_buffer};

// Whether the buffer is no roster or has another length, or the row has another length or disagrees with
// the pairs.
pub fn is_no_roster(roster: &[u8], row: &[u64]) -> bool
    ensures { result ≡ is_none (roster_with roster.now row.now) }
{
    let found = judge(roster, row, 0);
    match found {
        Some(_) => false,
        None => true,
    }
}
