// A request line: `one` and a time, or `list` and none or more times, each a decimal count of
// microseconds with an optional minus sign, one blank before each. The times go into a lent row.
#![tactic(auto)]

ghost use Rattle.std.specs.Prelude.{◌≡◌, true, ◌≤◌, ◌<◌, ◌+◌, ◌*◌, min, length};
ghost use Rattle.std.proofs.lemmas.List.Edits.{sets};
ghost use Rattle.request_line.specs.Times.{signed, limit, times_of, count_of, faulty, blanked, minused, digited, stepped, stored};
ghost use Rattle.request_line.specs.Request.{begun, single_of, several_of, one_of, list_of, request_of, row_of};

// How far a time has been read, and how many came before it.
#[derive(Clone, Copy)]
struct Scan {
    good: bool,
    minus: bool,
    some: bool,
    value: u64,
    count: usize,
}

fn with_sign(minus: bool, n: u64) -> i64
    requires { n ≤ limit }
    ensures { result ≡ signed minus n }
{
    if minus {
        return 0 - (n as i64);
    }
    n as i64
}

// One digit more. A value past the limit stays at it.
fn grown(value: u64, digit: u64) -> u64
    requires { digit ≤ 9 }
    ensures { result ≡ min (value * 10 + digit) limit }
{
    if value < 100000000000000000 {
        return value * 10 + digit;
    }
    999999999999999999
}

fn fault(t: Scan) -> Scan
    ensures { result ≡ faulty t }
{
    Scan {
        good: false,
        minus: false,
        some: false,
        value: 0,
        count: t.count,
    }
}

fn after_blank(t: Scan) -> Scan
    requires { t.count < 18446744073709551615 }
    ensures { result ≡ blanked t }
{
    if t.some {
        return Scan {
            good: true,
            minus: false,
            some: false,
            value: 0,
            count: t.count + 1,
        };
    }
    fault(t)
}

fn after_minus(t: Scan) -> Scan
    ensures { result ≡ minused t }
{
    if t.some {
        return fault(t);
    }
    if t.minus {
        return fault(t);
    }
    Scan {
        good: true,
        minus: true,
        some: false,
        value: 0,
        count: t.count,
    }
}

fn after_other(t: Scan, b: u8) -> Scan
    ensures { result ≡ digited t b }
{
    if b'0' <= b {
        if b <= b'9' {
            let value = grown(t.value, (b - b'0') as u64);
            return Scan {
                good: true,
                minus: t.minus,
                some: true,
                value,
                count: t.count,
            };
        }
        return fault(t);
    }
    fault(t)
}

// One byte more.
fn step(t: Scan, b: u8) -> Scan
    requires { t.count < 18446744073709551615 }
    ensures { result ≡ stepped t b }
{
    if t.good {
        if b == b' ' {
            return after_blank(t);
        }
        if b == b'-' {
            return after_minus(t);
        }
        return after_other(t, b);
    }
    t
}

// A time goes into its place when a blank ends it.
fn store(t: Scan, b: u8, row: &mut [i64])
    requires { t.value ≤ limit }
    ensures { row.new ≡ stored t b row.old }
{
    if b == b' ' {
        if t.good & t.some {
            let n = t.count;
            if n < row.len() {
                row[n] = with_sign(t.minus, t.value);
            }
        }
    }
}

fn read_times(s: &[u8], row: &mut [i64]) -> Option<usize>
    ensures { (result ≡ count_of (times_of s.now)) × (row.new ≡ sets row.old 0 (times_of s.now).values) }
{
    let mut t = Scan {
        good: true,
        minus: false,
        some: false,
        value: 0,
        count: 0,
    };
    for &b in s {
        store(t, b, row);
        t = step(t, b);
    }
    store(t, b' ', row);
    if t.good & t.some {
        return Some(t.count + 1);
    }
    None
}

// Whether a text begins with a word.
pub fn begins(s: &[u8], word: &[u8]) -> bool
    ensures { (result ≡ begun word.now s.now) × (result ≡ true → length word.now ≤ length s.now) }
{
    s.starts_with(word)
}

#[derive(Clone, Copy)]
pub enum Request {
    // One time, at the front of the row.
    One,
    // As many times, from the front of the row.
    List(usize),
    // More times than the row has places.
    TooMany,
    Malformed,
}

fn single(n: usize, room: usize) -> Request
    ensures { result ≡ single_of n room }
{
    if n == 1 {
        if n <= room {
            return Request::One;
        }
        return Request::TooMany;
    }
    Request::Malformed
}

fn several(n: usize, room: usize) -> Request
    ensures { result ≡ several_of n room }
{
    if n <= room {
        return Request::List(n);
    }
    Request::TooMany
}

fn as_one(times: Option<usize>, room: usize) -> Request
    ensures { result ≡ one_of times room }
{
    match times {
        Some(n) => single(n, room),
        None => Request::Malformed,
    }
}

fn as_list(times: Option<usize>, room: usize) -> Request
    ensures { result ≡ list_of times room }
{
    match times {
        Some(n) => several(n, room),
        None => Request::Malformed,
    }
}

pub fn read_request(line: &[u8], row: &mut [i64]) -> Request
    ensures { (result ≡ request_of line.now (length row.old)) × (row.new ≡ row_of line.now row.old) }
{
    if begins(line, b"one ") {
        let times = read_times(&line[4..], row);
        return as_one(times, row.len());
    }
    if begins(line, b"list ") {
        let times = read_times(&line[5..], row);
        return as_list(times, row.len());
    }
    if begins(line, b"list") {
        if line.len() == 4 {
            return Request::List(0);
        }
        return Request::Malformed;
    }
    Request::Malformed
}
