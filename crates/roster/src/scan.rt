// One pass over a buffer: is it a roster, where does a number stand in it, and what are its instants?

ghost use Rattle.std.specs.Prelude.{◌≡◌, true, cond, ◌+◌, ◌<◌, eqb, ltb, length};
ghost use Rattle.instant.specs.Calendar.{epoch_of};
ghost use Rattle.tle.specs.Legal.{legal};
ghost use Rattle.roster.specs.Records.{micros};
ghost use Rattle.roster.specs.Roster.{same, pairs_in};
ghost use Rattle.roster.specs.Scan.{tallied, scanned_of, scan_of, judged_of};

use super::places::{all_zero, place_at};
use instant::Instant;
use tle::{Record, epoch};

// Of the pairs passed: how many, how many below a number, and whether one has it; low is the least
// number that may come next.
#[derive(Clone, Copy)]
pub struct Tally {
    pub number: u64,
    pub count: usize,
    pub below: usize,
    pub present: bool,
    pub low: u64,
}

// What a pass found, and the instants of the pairs: 0 past the last, and zeros where it is no roster.
#[derive(Clone, Copy)]
pub struct Contents {
    pub found: Option<Tally>,
    pub row: [u64; 64],
}

// The record's epoch, 0 where it is outside the calendar.
pub fn instant_of(r: Record) -> Instant
    ensures { result.0 ≡ micros (epoch_of r.year r.day) }
{
    let e = epoch(r);
    match e {
        Some(t) => t,
        None => Instant(0),
    }
}

fn below_after(below: usize, number: u64, wanted: u64) -> usize
    requires { below < 64 }
    ensures { result ≡ cond (ltb number wanted) (below + 1) below }
{
    if number < wanted {
        return below + 1;
    }
    below
}

fn present_after(present: bool, number: u64, wanted: u64) -> bool
    ensures { result ≡ cond (eqb number wanted) true present }
{
    if number == wanted {
        return true;
    }
    present
}

// One pair more.
fn counted(t: Tally, r: Record) -> Tally
    requires { (t.count < 64) × (t.below < 64) × (legal r ≡ true) }
    ensures { result ≡ tallied t r }
{
    let below = below_after(t.below, r.number, t.number);
    let present = present_after(t.present, r.number, t.number);
    Tally {
        number: t.number,
        count: t.count + 1,
        below,
        present,
        low: r.number + 1,
    }
}

// The places of a buffer of 8,832 bytes, one after the other.
fn scan_places(b: &[u8], number: u64) -> Contents
    requires { length b.now ≡ 8832 }
    ensures { result ≡ scanned_of number (pairs_in 64 0 b.now) }
{
    let mut t = Tally {
        number,
        count: 0,
        below: 0,
        present: false,
        low: 0,
    };
    let mut row = [0u64; 64];
    for i in 0..64 {
        let at = i * 138;
        let end = at + 138;
        if all_zero(&b[at..]) {
            return Contents {
                found: Some(t),
                row,
            };
        }
        let place = place_at(&b[at..end]);
        let Some(r) = place else {
            return Contents {
                found: None,
                row: [0; 64],
            };
        };
        if r.number < t.low {
            return Contents {
                found: None,
                row: [0; 64],
            };
        }
        row[i] = instant_of(r).0;
        t = counted(t, r);
    }
    Contents {
        found: Some(t),
        row,
    }
}

// Whether the buffer is a roster, what it holds of the number, and its instants.
pub fn scan_buffer(b: &[u8], number: u64) -> Contents
    ensures { result ≡ scan_of number b.now }
{
    if b.len() != 8832 {
        return Contents {
            found: None,
            row: [0; 64],
        };
    }
    scan_places(b, number)
}

fn same_row(row: &[u64], instants: &[u64]) -> bool
    ensures { result ≡ same row.now instants.now }
{
    row == instants
}

// Whether the buffer is a roster and the row its instants, and what it holds of the number.
pub fn judge(b: &[u8], row: &[u64], number: u64) -> Option<Tally>
    ensures { result ≡ judged_of number b.now row.now }
{
    let s = scan_buffer(b, number);
    let instants = s.row;
    if same_row(row, &instants) {
        return s.found;
    }
    None
}
