// Runs stored cases of instants through the library and prints how many differ. A case is a line: an
// operation's name and numbers of sixteen hexadecimal digits, arguments first, then the results that
// tests/instant_cases.py expects.
#![tactic(auto)]

ghost use Rattle.std.specs.Prelude.{◌<◌, ◌≤◌};

use instant::{Days, Instant, Microseconds, MoveRefusal, Radians};
use std::fmt;
use std::fmt::Display;
use streams::print_line;

// A line so far: its operation's name, read as a number; how many numbers it has, how many digits the
// last one has, and the last four of them, d the last; and whether it broke the form.
#[derive(Clone, Copy)]
struct Line {
    name: u64,
    numbers: u64,
    digits: u64,
    a: u64,
    b: u64,
    c: u64,
    d: u64,
    broken: bool,
}

// How many lines of an operation were compared, how many differ, and the number of the first.
#[derive(Clone, Copy)]
struct Tally {
    compared: u64,
    differ: u64,
    first: u64,
}

impl Display for Tally {
    fn fmt<W: fmt::Write>(&self, f: &mut fmt::Formatter<W>) -> fmt::Result {
        write!(f, "{} compared, {} differ", self.compared, self.differ)?;
        if self.differ > 0 {
            write!(f, ", the first in line {}", self.first)?;
        }
        Ok(())
    }
}

// The line so far, how many went before it, and what came of those of each operation.
#[derive(Clone, Copy)]
struct Run {
    line: Line,
    lines: u64,
    tallies: [Tally; 11],
}

// What is counted: the operations, and the lines of no known name.
const NAMES: [&str; 11] = [
    "epoch",
    "split",
    "move",
    "since",
    "minutes",
    "days",
    "jd",
    "gst",
    "twice",
    "back",
    "unreadable",
];

fn no_line() -> Line {
    Line {
        name: 0,
        numbers: 0,
        digits: 16,
        a: 0,
        b: 0,
        c: 0,
        d: 0,
        broken: false,
    }
}

// The value of a hexadecimal digit, 16 for any other byte.
fn digit(byte: u8) -> u64
    ensures { result ≤ 16 }
{
    match byte {
        b'0'..=b'9' => (byte - b'0') as u64,
        b'a'..=b'f' => (byte - b'a') as u64 + 10,
        _ => 16,
    }
}

// A blank begins a number; the one before it, if any, has to be whole.
fn next_number(l: Line) -> Line {
    Line {
        numbers: l.numbers.wrapping_add(1),
        digits: 0,
        a: l.b,
        b: l.c,
        c: l.d,
        d: 0,
        broken: l.broken | (l.digits != 16) | (l.numbers == 4),
        ..l
    }
}

fn name_byte(l: Line, byte: u8) -> Line {
    let name = l.name;
    let mut next = 0;
    let mut broken = true;
    if name < 72057594037927936 {
        next = name * 256 + byte as u64;
        broken = l.broken;
    }
    Line {
        name: next,
        broken,
        ..no_line()
    }
}

fn digit_byte(l: Line, byte: u8) -> Line {
    let x = digit(byte);
    let d = l.d;
    let mut next = 0;
    let mut broken = true;
    if x < 16 {
        if d < 1152921504606846976 {
            next = d * 16 + x;
            broken = l.broken;
        }
    }
    Line {
        digits: l.digits.wrapping_add(1),
        d: next,
        broken,
        ..l
    }
}

fn pushed(l: Line, byte: u8) -> Line {
    if byte == b' ' {
        return next_number(l);
    }
    if l.numbers == 0 {
        return name_byte(l, byte);
    }
    digit_byte(l, byte)
}

// A number of two's complement.
fn signed(x: u64) -> i64 {
    x.cast_signed()
}

// Bit for bit; no case expects a NaN.
fn same(x: f64, bits: u64) -> bool {
    !x.is_nan() && x.to_bits() == bits
}

fn epoch_right(year: u64, day: u64, known: u64, instant: u64) -> bool {
    match instant::epoch_instant(year, day) {
        Some(t) => (known == 1) & (instant == t.0),
        None => (known == 0) & (instant == 0),
    }
}

fn split_right(instant: u64, year: u64, day: u64, micros: u64) -> bool {
    match instant::date_of(Instant(instant)) {
        Some(x) => (x.year == year) & (x.day == day) & (x.micros == micros),
        None => (year == 0) & (day == 0) & (micros == 0),
    }
}

fn move_right(instant: u64, span: u64, refusal: u64, moved: u64) -> bool {
    match instant::move_by(Instant(instant), Microseconds(signed(span))) {
        Ok(t) => (refusal == 0) & (moved == t.0),
        Err(MoveRefusal::TooFar) => (refusal == 9) & (moved == 0),
        Err(MoveRefusal::Outside) => (refusal == 6) & (moved == 0),
    }
}

// A refusal stands for the instant as its number with a minus sign.
fn twice_right(instant: u64, first: u64, second: u64, res: u64) -> bool {
    let x = Microseconds(signed(first));
    let y = Microseconds(signed(second));
    match moves::move_twice(Instant(instant), x, y) {
        Ok(t) => res == t.0,
        Err(MoveRefusal::TooFar) => res == 0xfffffffffffffff7,
        Err(MoveRefusal::Outside) => res == 0xfffffffffffffffa,
    }
}

fn back_right(instant: u64, span: u64, refusal: u64, moved: u64) -> bool {
    match moves::move_there_and_back(Instant(instant), Microseconds(signed(span))) {
        Ok(t) => (refusal == 0) & (moved == t.0),
        Err(MoveRefusal::TooFar) => (refusal == 9) & (moved == 0),
        Err(MoveRefusal::Outside) => (refusal == 6) & (moved == 0),
    }
}

fn since_right(instant: u64, epoch: u64, refusal: u64, micros: u64) -> bool {
    match instant::since(Instant(instant), Instant(epoch)) {
        Some(t) => (refusal == 0) & (signed(micros) == t.0),
        None => (refusal == 6) & (micros == 0),
    }
}

fn days_right(days: Option<Days>, refusal: u64, bits: u64) -> bool {
    match days {
        Some(x) => (refusal == 0) & same(x.0, bits),
        None => (refusal == 6) & (bits == 0),
    }
}

fn angle_right(angle: Option<Radians>, refusal: u64, bits: u64) -> bool {
    match angle {
        Some(x) => (refusal == 0) & same(x.0, bits),
        None => (refusal == 6) & (bits == 0),
    }
}

// The place of an operation among those counted, and the last place for a name that is none.
fn place(name: u64) -> usize
    ensures { result < 11 }
{
    match name {
        // epoch, split, move, since, minutes, days, jd, gst, twice, back
        0x65706f6368 => 0,
        0x73706c6974 => 1,
        0x6d6f7665 => 2,
        0x73696e6365 => 3,
        0x6d696e75746573 => 4,
        0x64617973 => 5,
        0x6a64 => 6,
        0x677374 => 7,
        0x7477696365 => 8,
        0x6261636b => 9,
        _ => 10,
    }
}

// Whether the library gives the results of a line with four numbers.
fn four_right(op: usize, a: u64, b: u64, c: u64, d: u64) -> bool {
    match op {
        0 => epoch_right(a, b, c, d),
        1 => split_right(a, b, c, d),
        2 => move_right(a, b, c, d),
        3 => since_right(a, b, c, d),
        8 => twice_right(a, b, c, d),
        9 => back_right(a, b, c, d),
        _ => false,
    }
}

// Of a line with an instant, a refusal and a number.
fn three_right(op: usize, instant: u64, refusal: u64, bits: u64) -> bool {
    let t = Instant(instant);
    match op {
        5 => days_right(instant::epoch_days(t), refusal, bits),
        6 => days_right(instant::julian_date(t), refusal, bits),
        7 => angle_right(instant::greenwich(t), refusal, bits),
        _ => false,
    }
}

// Of any whole line.
fn answer_right(op: usize, l: Line) -> bool {
    if l.numbers == 4 {
        return four_right(op, l.a, l.b, l.c, l.d);
    }
    if l.numbers == 3 {
        return three_right(op, l.b, l.c, l.d);
    }
    if (l.numbers == 2) & (op == 4) {
        return same(instant::to_minutes(Microseconds(signed(l.c))).0, l.d);
    }
    false
}

// A line that breaks the form counts as different.
fn right(op: usize, l: Line) -> bool {
    if l.broken | (l.digits != 16) {
        return false;
    }
    answer_right(op, l)
}

impl Run {
    // Counts the line, which is whole, and begins the next.
    fn end_line(&mut self) {
        let op = place(self.line.name);
        let is_right = right(op, self.line);
        self.lines = self.lines.wrapping_add(1);
        let lines = self.lines;
        let tally = &mut self.tallies[op];
        tally.compared = tally.compared.wrapping_add(1);
        if !is_right {
            if tally.differ == 0 {
                tally.first = lines;
            }
            tally.differ = tally.differ.wrapping_add(1);
        }
        self.line = no_line();
    }

    fn take(&mut self, byte: u8) {
        if byte == b'\n' {
            self.end_line();
        } else {
            self.line = pushed(self.line, byte);
        }
    }
}

// A proved loop has to end, and nothing says that the input does: no run uses up so many turns.
fn read_all(rt: HostRuntime, failed: &mut bool, run: &mut Run) {
    let mut buffer = [0u8; 4096];
    for _ in 0..u64::MAX {
        let n = streams::read(rt, failed, &mut buffer);
        if n == 0 {
            return;
        }
        for byte in &buffer[..n] {
            run.take(*byte);
        }
    }
}

fn main(rt: HostRuntime) {
    let mut failed = false;
    let none = Tally {
        compared: 0,
        differ: 0,
        first: 0,
    };
    let mut run = Run {
        line: no_line(),
        lines: 0,
        tallies: [none; 11],
    };
    read_all(rt, &mut failed, &mut run);
    // A last line without its newline.
    if run.line.name != 0 {
        run.end_line();
    }
    for (name, tally) in NAMES.iter().zip(&run.tallies) {
        print_line(rt, &mut failed, format_args!("{name}: {tally}"));
    }
}
