// Whole numbers in a row: none or more decimals below 2^64, one blank before each. They go into a lent
// row.
#![tactic(auto)]

ghost use Rattle.std.specs.Prelude.{◌≡◌, false, ◌≤◌, ◌<◌, ◌+◌, ◌*◌, leb, length, drop};
ghost use Rattle.std.proofs.lemmas.List.Edits.{sets};
ghost use Rattle.number_list.specs.Numbers.{most_number, read_on, numbers_of, count_of, faulty, blanked, digited, stepped, stored};

// How far a number has been read, and how many came before it.
#[derive(Clone, Copy)]
struct Scan {
    good: bool,
    some: bool,
    value: u64,
    count: usize,
}

// Whether a number with one digit more is below 2^64.
fn has_room(value: u64, digit: u64) -> bool
    requires { digit ≤ 9 }
    ensures { result ≡ leb (value * 10 + digit) most_number }
{
    if value < 1844674407370955161 {
        return true;
    }
    if value > 1844674407370955161 {
        return false;
    }
    digit <= 5
}

fn fault(t: Scan) -> Scan
    ensures { result ≡ faulty t }
{
    Scan {
        good: false,
        some: false,
        value: 0,
        count: t.count,
    }
}

fn after_blank(t: Scan) -> Scan
    requires { t.count < 18446744073709551615 }
    ensures { result ≡ blanked t }
{
    if t.some {
        return Scan {
            good: true,
            some: false,
            value: 0,
            count: t.count + 1,
        };
    }
    fault(t)
}

fn after_digit(t: Scan, digit: u64) -> Scan
    requires { digit ≤ 9 }
    ensures { result ≡ digited t digit }
{
    if has_room(t.value, digit) {
        return Scan {
            good: true,
            some: true,
            value: t.value * 10 + digit,
            count: t.count,
        };
    }
    fault(t)
}

// One byte more.
fn step(t: Scan, b: u8) -> Scan
    requires { t.count < 18446744073709551615 }
    ensures { result ≡ stepped t b }
{
    if t.good {
        if b == b' ' {
            return after_blank(t);
        }
        if b < b'0' {
            return fault(t);
        }
        if b > b'9' {
            return fault(t);
        }
        return after_digit(t, (b - b'0') as u64);
    }
    t
}

// A number goes into its place when a blank ends it.
fn store(t: Scan, b: u8, row: &mut [u64])
    ensures { row.new ≡ stored t b row.old }
{
    if b == b' ' {
        if t.good & t.some {
            let n = t.count;
            if n < row.len() {
                row[n] = t.value;
            }
        }
    }
}

// The numbers behind the first blank.
fn read_on(s: &[u8], row: &mut [u64]) -> Option<usize>
    ensures { (result ≡ count_of (read_on false 0 s.now)) × (row.new ≡ sets row.old 0 (read_on false 0 s.now).values) }
{
    let mut t = Scan {
        good: true,
        some: false,
        value: 0,
        count: 0,
    };
    for &b in s {
        store(t, b, row);
        t = step(t, b);
    }
    store(t, b' ', row);
    if t.good & t.some {
        return Some(t.count + 1);
    }
    None
}

pub fn read_numbers(s: &[u8], row: &mut [u64]) -> Option<usize>
    ensures { (result ≡ count_of (numbers_of s.now)) × (row.new ≡ sets row.old 0 (numbers_of s.now).values) }
{
    if s.len() == 0 {
        return Some(0);
    }
    if s[0] == b' ' {
        return read_on(&s[1..], row);
    }
    None
}
