// One place of a roster: 138 bytes.

ghost use Rattle.std.specs.Prelude.{◌≡◌, true, length};
ghost use Rattle.tle.specs.Legal.{legal};
ghost use Rattle.roster.specs.Roster.{all_zero, same, pair_bytes, pair_over, place_of};

use tle::{Line, Record, read_form, read_meaning};
use tle_writer::fill_line;

// Without a branch on a byte, so that many are looked at at once.
fn zeros(s: &[u8]) -> bool
    ensures { result ≡ all_zero s.now }
{
    let mut clear = true;
    for &b in s {
        clear = clear & (b == 0);
    }
    clear
}

pub fn all_zero(s: &[u8]) -> bool
    ensures { result ≡ all_zero s.now }
{
    // the first byte of a pair tells
    if 0 < s.len() {
        if s[0] != 0 {
            return false;
        }
    }
    zeros(s)
}

// The pair written over the 138 bytes after the first at. Where there are none, or the record cannot be
// written, nothing is.
pub fn put_pair(b: &mut [u8], at: usize, r: Record)
    ensures { b.new ≡ pair_over at r b.old }
{
    if b.len() < 138 {
        return;
    }
    if b.len() - 138 < at {
        return;
    }
    let half = at + 69;
    let end = at + 138;
    let _ = fill_line(r, Line::One, &mut b[at..half]);
    let _ = fill_line(r, Line::Two, &mut b[half..end]);
}

// Whether the bytes are the pair as we write it.
fn is_written(p: &[u8], r: Record) -> bool
    requires { legal r ≡ true }
    ensures { result ≡ same p.now (pair_bytes r) }
{
    let mut out = [0u8; 138];
    put_pair(&mut out, 0, r);
    check::same(p, &out)
}

// What the 138 bytes of a place hold.
pub(crate) fn place_at(p: &[u8]) -> Option<Record>
    requires { length p.now ≡ 138 }
    ensures { result ≡ place_of p.now }
{
    let form = read_form(&p[0..69], &p[69..138]);
    let Ok(fields) = form else {
        return None;
    };
    let reading = read_meaning(fields);
    let Ok(record) = reading else {
        return None;
    };
    if is_written(p, record) {
        return Some(record);
    }
    None
}
