// What changed between two rosters (document 02, wish 7): text lines by rising catalogue number into a lent room.
#![tactic(auto)]

ghost use Rattle.std.specs.Prelude.{◌≡◌, cond, [], ◌∷◌, ◌++◌, ◌*◌, ◌<◌, eqb, ltb, length, take, drop};
ghost use Rattle.text.specs.Output.{Put};
ghost use Rattle.listing.specs.Listing.{then};
ghost use Rattle.roster.specs.Row.{roster_with};
ghost use Rattle.compare.specs.Compare.{compared_number, text_of, compared_of, compared_over};
ghost use Rattle.compare.specs.Walk.{records_in, Holding, front, Stands, StandsAt, turn_text, first_passed, second_passed, pairs_text, pairs_first, pairs_second, Turned};

use field_lines::{put_each, put_fields};
use roster::{all_zero, is_no_roster};
use text::put_byte;
use tle::{Record, read_form, read_meaning};

#[derive(Clone, Copy)]
pub enum Which {
    First,
    Second,
}

// Why two rosters are not compared.
#[derive(Clone, Copy)]
pub enum CompareRefusal {
    // 22: the buffer is no roster or has another length, or its row has another length or disagrees with
    // the pairs.
    NoRoster(Which),
    // 17
    RoomTooShort,
}

// Document 02's number of the refusal, 0 where the listing was written.
pub fn compared_number(answer: Result<usize, CompareRefusal>) -> u64
    ensures { result ≡ compared_number answer }
{
    match answer {
        Ok(_) => 0,
        Err(CompareRefusal::NoRoster(_)) => 22,
        Err(CompareRefusal::RoomTooShort) => 17,
    }
}

// One turn: how far the text reaches, and how many pairs of each roster were passed.
#[derive(Clone, Copy)]
pub struct Turn {
    pub next: usize,
    pub first: usize,
    pub second: usize,
}

fn place_at(b: &[u8], i: usize) -> Option<Record>
    requires { Holding b.now }
    ensures { result ≡ front (drop i (records_in b.now)) }
{
    if 64 <= i {
        return None;
    }
    let at = i * 138;
    let half = at + 69;
    let end = at + 138;
    if all_zero(&b[at..]) {
        return None;
    }
    let form = read_form(&b[at..half], &b[half..end]);
    let Ok(fields) = form else {
        return None;
    };
    match read_meaning(fields) {
        Ok(r) => Some(r),
        Err(_) => None,
    }
}

// What comes next of a roster after a turn: a place that was not passed is not read again.
fn place_after(b: &[u8], i: usize, passed: usize, place: Option<Record>) -> Option<Record>
    requires { Holding b.now }
    ensures { result ≡ cond (eqb passed 0) place (front (drop i (records_in b.now))) }
{
    if passed == 0 {
        return place;
    }
    place_at(b, i)
}

// A pair that one roster has alone: the word and the 138 bytes of its place.
fn put_place(out: &mut [u8], at: usize, word: &[u8], b: &[u8], i: usize) -> usize
    requires { (i < 64) × (length b.now ≡ 8832) }
    ensures { Put out.old at (then word.now (take 138 (drop (i * 138) b.now)) ++ (10 ∷ [])) out.new result }
{
    let from = i * 138;
    let end = from + 138;
    let p = put_each(out, at, word);
    let p = put_byte(out, p, b' ');
    let p = put_each(out, p, &b[from..end]);
    put_byte(out, p, b'\n')
}

// The pair x in place i of the first roster and the pair y in place j of the second come next.
fn put_pairs(
    out: &mut [u8],
    at: usize,
    a: &[u8],
    i: usize,
    x: Record,
    b: &[u8],
    j: usize,
    y: Record,
) -> Turn
    requires { Stands a.now i x × Stands b.now j y }
    ensures { Turned out.old at (pairs_text x y) (pairs_first x y) (pairs_second x y) out.new result }
{
    if y.number < x.number {
        let next = put_place(out, at, b"second", b, j);
        return Turn {
            next,
            first: 0,
            second: 1,
        };
    }
    if y.number == x.number {
        let next = put_fields(out, at, x, y);
        return Turn {
            next,
            first: 1,
            second: 1,
        };
    }
    let next = put_place(out, at, b"first", a, i);
    Turn {
        next,
        first: 1,
        second: 0,
    }
}

fn put_turn(
    out: &mut [u8],
    at: usize,
    a: &[u8],
    i: usize,
    x: Option<Record>,
    b: &[u8],
    j: usize,
    y: Option<Record>,
) -> Turn
    requires { StandsAt a.now i x × StandsAt b.now j y }
    ensures { Turned out.old at (turn_text x y) (first_passed x y) (second_passed x y) out.new result }
{
    match x {
        Some(r) => match y {
            Some(s) => put_pairs(out, at, a, i, r, b, j, s),
            None => {
                let next = put_place(out, at, b"first", a, i);
                Turn {
                    next,
                    first: 1,
                    second: 0,
                }
            }
        },
        None => match y {
            Some(_) => {
                let next = put_place(out, at, b"second", b, j);
                Turn {
                    next,
                    first: 0,
                    second: 1,
                }
            }
            None => Turn {
                next: at,
                first: 0,
                second: 0,
            },
        },
    }
}

// The listing, clipped and counted. Two rosters have at most 128 pairs, and each turn passes one.
fn put_changes(a: &[u8], b: &[u8], out: &mut [u8]) -> usize
    requires { Holding a.now × Holding b.now }
    ensures { Put out.old 0 (text_of (records_in a.now) (records_in b.now)) out.new result }
{
    let mut next = 0;
    let mut i = 0;
    let mut j = 0;
    let mut x = place_at(a, 0);
    let mut y = place_at(b, 0);
    for _ in 0..128usize {
        let t = put_turn(out, next, a, i, x, b, j, y);
        next = t.next;
        i += t.first;
        j += t.second;
        x = place_after(a, i, t.first, x);
        y = place_after(b, j, t.second, y);
    }
    next
}

// Whether a room is too short. One that holds every listing is not measured; else the listing is, by
// writing it over one byte.
fn lacks_room(a: &[u8], b: &[u8], room: usize) -> bool
    requires { Holding a.now × Holding b.now }
    ensures { result ≡ ltb room (length (text_of (records_in a.now) (records_in b.now))) }
{
    if 24448 <= room {
        return false;
    }
    let mut measure = [0u8; 1];
    let size = put_changes(a, b, &mut measure);
    room < size
}

// What changed from the first roster to the second, each with its row: the listing at the front of the
// room. A refusal leaves the room as it was.
pub fn compare(
    first: &[u8],
    row1: &[u64],
    second: &[u8],
    row2: &[u64],
    out: &mut [u8],
) -> Result<usize, CompareRefusal>
    ensures { (result ≡ compared_of (roster_with first.now row1.now) (roster_with second.now row2.now) (length out.old)) × (out.new ≡ compared_over (roster_with first.now row1.now) (roster_with second.now row2.now) out.old) }
{
    if is_no_roster(first, row1) {
        return Err(CompareRefusal::NoRoster(Which::First));
    }
    if is_no_roster(second, row2) {
        return Err(CompareRefusal::NoRoster(Which::Second));
    }
    if lacks_room(first, second, out.len()) {
        return Err(CompareRefusal::RoomTooShort);
    }
    let n = put_changes(first, second, out);
    Ok(n)
}
