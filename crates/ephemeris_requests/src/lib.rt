// The request lines of `ephemeris`: `one` and `list` with times as `replay` takes them, `grid START STEP
// COUNT` with START and STEP in seconds of up to six decimals, and `at YEAR DAY MICROSECONDS`.
#![tactic(auto)]

ghost use Rattle.std.specs.Prelude.{◌≡◌, ◌≤◌, min, length};
ghost use Rattle.text.specs.Output.{Put};
ghost use Rattle.request_line.specs.Times.{signed, limit};
ghost use Rattle.request_line.specs.Request.{row_of};
ghost use Rattle.ephemeris_requests.specs.Requests.{signed_in, lawful, grid_from, grid_of, time_at, instant_ask, other_of, ask_of, commas_in, fault_word, fault_text};
ghost use Rattle.station_text.specs.Words.{start_of};

use instant::{Instant, Microseconds};
use request_line::{Request, begins, read_request};
use station_text::{Whole, after, cut_at, read_micro, read_start, read_whole, sign_size};
use text::{put_bytes, put_decimal};

// ---- A grid.

// Times from a start, before the epoch where `minus` is set, so many steps apart: all in microseconds.
#[derive(Clone, Copy)]
pub struct Grid {
    pub minus: bool,
    pub start: u64,
    pub step: u64,
    pub count: u64,
}

// What is wrong with a line.
#[derive(Clone, Copy)]
pub enum Fault {
    Request,
    Grid,
    Instant,
    // More than the row has places.
    Times,
}

#[derive(Clone, Copy)]
pub enum Ask {
    // As many times, from the front of the row.
    Times(usize),
    Steps(Grid),
    At(Instant),
    Bad(Fault),
}

// A decimal behind its sign.
#[derive(Clone, Copy)]
struct Signed {
    minus: bool,
    micros: Whole,
}

fn read_signed(s: &[u8]) -> Signed
    ensures { result ≡ signed_in s.now }
{
    let from = sign_size(s);
    let micros = read_micro(&s[from..]);
    Signed {
        minus: from == 1,
        micros,
    }
}

// A start below 10^9 s, a step of a microsecond to a day, one to ten million rows.
fn is_lawful(start: Whole, step: Whole, count: Whole) -> bool
    ensures { result ≡ lawful start step count }
{
    start.good
        & step.good
        & count.good
        & (start.value <= 999999999999999)
        & (1 <= step.value)
        & (step.value <= 86400000000)
        & (1 <= count.value)
        & (count.value <= 10000000)
}

fn grid_from(start: Signed, step: Whole, count: Whole) -> Ask
    ensures { result ≡ grid_from start step count }
{
    let micros = start.micros;
    if is_lawful(micros, step, count) {
        return Ask::Steps(Grid {
            minus: start.minus,
            start: micros.value,
            step: step.value,
            count: count.value,
        });
    }
    Ask::Bad(Fault::Grid)
}

fn read_grid(line: &[u8]) -> Ask
    ensures { result ≡ grid_of line.now }
{
    let n = cut_at(line, b' ');
    let from = after(line, n);
    let rest = &line[from..];
    let m = cut_at(rest, b' ');
    let from = after(rest, m);
    let start = read_signed(&line[..n]);
    let step = read_micro(&rest[..m]);
    let count = read_whole(&rest[from..]);
    grid_from(start, step, count)
}

fn at_most(n: u64, most: u64) -> u64
    ensures { result ≡ min n most }
{
    if n <= most {
        return n;
    }
    most
}

fn with_sign(minus: bool, n: u64) -> i64
    requires { n ≤ limit }
    ensures { result ≡ signed minus n }
{
    if minus {
        return 0 - (n as i64);
    }
    n as i64
}

// The time of a row of a grid, counted from 0. Numbers above those that a line can ask for count as these.
pub fn time_at(grid: Grid, i: u64) -> Microseconds
    ensures { result.0 ≡ time_at grid i }
{
    let n = at_most(grid.start, 999999999999999);
    let rows = at_most(i, 10000000);
    let step = at_most(grid.step, 86400000000);
    let far = rows * step;
    if grid.minus {
        if far < n {
            return Microseconds(with_sign(true, n - far));
        }
        return Microseconds(with_sign(false, far - n));
    }
    Microseconds(with_sign(false, n + far))
}

// ---- A line.

fn instant_ask(start: Option<Instant>) -> Ask
    ensures { result ≡ instant_ask start }
{
    match start {
        Some(t) => Ask::At(t),
        None => Ask::Bad(Fault::Instant),
    }
}

fn read_instant(line: &[u8]) -> Ask
    ensures { result ≡ instant_ask (start_of line.now) }
{
    instant_ask(read_start(line))
}

fn read_other(line: &[u8]) -> Ask
    ensures { result ≡ other_of line.now }
{
    if begins(line, b"grid ") {
        return read_grid(&line[5..]);
    }
    if begins(line, b"at ") {
        return read_instant(&line[3..]);
    }
    Ask::Bad(Fault::Request)
}

// What a line asks. The times of `one` and `list` go into a lent row.
pub fn read_ask(line: &[u8], row: &mut [i64]) -> Ask
    ensures { (result ≡ ask_of line.now (length row.old)) × (row.new ≡ row_of line.now row.old) }
{
    match read_request(line, row) {
        Request::One => Ask::Times(1),
        Request::List(n) => Ask::Times(n),
        Request::TooMany => Ask::Bad(Fault::Times),
        Request::Malformed => read_other(line),
    }
}

// Whether a line is the word that asks for commas.
pub fn asks_commas(line: &[u8]) -> bool
    ensures { result ≡ commas_in line.now }
{
    begins(line, b"commas") & (line.len() == 6)
}

// ---- A bad line.

fn put_fault_word(out: &mut [u8], at: usize, why: Fault) -> usize
    ensures { Put out.old at (fault_word why) out.new result }
{
    match why {
        Fault::Request => put_bytes(out, at, b": no request\n"),
        Fault::Grid => put_bytes(out, at, b": no grid START STEP COUNT in seconds\n"),
        Fault::Instant => put_bytes(out, at, b": no instant YEAR DAY MICROSECONDS\n"),
        Fault::Times => put_bytes(out, at, b": too many times in a line\n"),
    }
}

// A bad line is named by its number, with what it is not.
pub fn put_fault(out: &mut [u8], at: usize, number: u64, why: Fault) -> usize
    ensures { Put out.old at (fault_text number why) out.new result }
{
    let p = put_bytes(out, at, b"line ");
    let p = put_decimal(out, p, number);
    put_fault_word(out, p, why)
}
