// The pairs of a text, line by line: which two lines are a pair, and what is said of a line that is in
// none. The caller lends the room of the line 1 that waits for its line 2 and one for what is said.
#![tactic(auto)]

ghost use Rattle.std.specs.Prelude.{◌≡◌, take};
ghost use Rattle.text.specs.Output.{Put};
ghost use Rattle.pair_steps.specs.Fate.{fate_of, fate_in, more};
ghost use Rattle.pair_steps.specs.Steps.{started, is_over, holding, saying, given_up, Takes, TakesNext, Ends};

use line_input::whole_in;
use pair_lines::{Remark, Sort, put_blank, put_said, sort_of};
use text::put_bytes;

// How many lines the text had so far, and of the line 1 that waits for its line 2 the number and the size,
// both 0 where none does.
#[derive(Clone, Copy)]
pub struct Pairs {
    pub lines: u64,
    pub held: u64,
    pub size: usize,
}

// What becomes of a line: it waits for its line 2, it is the line 2 of the one that waits, or it is in no
// pair.
#[derive(Clone, Copy)]
pub enum Fate {
    Waits,
    Completes,
    Blank,
    Alone(Remark),
}

// What a line came to: a pair, whose line 1 has so many bytes of its room and whose line 2 the other; so
// many bytes that are said of it, none where it waits; or the end of the text.
#[derive(Clone, Copy)]
pub enum What {
    Pair(usize, usize),
    Said(usize),
    Over,
}

impl What {
    pub fn is_over(self) -> bool
        ensures { result ≡ is_over self }
    {
        match self {
            What::Pair(_, _) => false,
            What::Said(_) => false,
            What::Over => true,
        }
    }
}

// With the number of the first line of a pair.
#[derive(Clone, Copy)]
pub struct Step {
    pub pairs: Pairs,
    pub what: What,
    pub first: u64,
}

impl Pairs {
    pub fn start() -> Pairs
        ensures { result ≡ started }
    {
        Pairs {
            lines: 0,
            held: 0,
            size: 0,
        }
    }
}

// One more. The largest number stays: no text is that long.
pub fn more(n: u64) -> u64
    ensures { result ≡ more n }
{
    if n < u64::MAX {
        return n + 1;
    }
    n
}

fn holding(p: Pairs, held: u64, size: usize) -> Pairs
    ensures { result ≡ holding p held size }
{
    Pairs {
        lines: p.lines,
        held,
        size,
    }
}

fn saying(p: Pairs, n: usize) -> Step
    ensures { result ≡ saying p n }
{
    Step {
        pairs: p,
        what: What::Said(n),
        first: 0,
    }
}

fn fate_of(waiting: bool, sort: Sort) -> Fate
    ensures { result ≡ fate_of waiting sort }
{
    match sort {
        Sort::Blank => Fate::Blank,
        Sort::One => Fate::Waits,
        Sort::Two => {
            if waiting {
                return Fate::Completes;
            }
            Fate::Alone(Remark::NoFirst)
        }
        Sort::Whole => {
            if waiting {
                return Fate::Completes;
            }
            Fate::Waits
        }
        Sort::Other => {
            if waiting {
                return Fate::Completes;
            }
            Fate::Alone(Remark::Name)
        }
    }
}

// The line 1 that waits, if one does, is said to stand alone.
fn give_up(p: Pairs, line1: &[u8], out: &mut [u8]) -> usize
    ensures { Put out.old 0 (given_up p line1.now) out.new result }
{
    if p.held > 0 {
        let n = whole_in(p.size, line1);
        return put_said(out, 0, p.held, Remark::NoSecond, &line1[..n]);
    }
    0
}

fn take_line(p: Pairs, fate: Fate, line1: &mut [u8], line: &[u8], out: &mut [u8]) -> Step
    ensures { Takes p fate line1.old line.now out.old line1.new out.new result }
{
    match fate {
        Fate::Waits => {
            let n = give_up(p, line1, out);
            let size = put_bytes(line1, 0, line);
            saying(holding(p, p.lines, size), n)
        }
        Fate::Completes => Step {
            pairs: holding(p, 0, 0),
            what: What::Pair(p.size, line.len()),
            first: p.held,
        },
        Fate::Blank => saying(p, put_blank(out, 0, p.lines)),
        Fate::Alone(why) => saying(p, put_said(out, 0, p.lines, why, line)),
    }
}

// A line that its room does not hold is said to be too long, and is in no pair.
fn take_counted(p: Pairs, line1: &mut [u8], room: &[u8], size: usize, out: &mut [u8]) -> Step
    ensures { Takes p (fate_in p size room.now) line1.old (take size room.now) out.old line1.new out.new result }
{
    if size <= room.len() {
        let line = &room[0..size];
        return take_line(p, fate_of(p.held > 0, sort_of(line)), line1, line, out);
    }
    take_line(p, Fate::Alone(Remark::TooLong), line1, room, out)
}

// The next line, of so many bytes in its room.
pub fn take_next(p: Pairs, line1: &mut [u8], room: &[u8], size: usize, out: &mut [u8]) -> Step
    ensures { TakesNext p size line1.old room.now out.old line1.new out.new result }
{
    let p = Pairs {
        lines: more(p.lines),
        held: p.held,
        size: p.size,
    };
    take_counted(p, line1, room, size, out)
}

// At the end of the text a line 1 that waits is said to stand alone; the next step is the last.
pub fn finish(p: Pairs, line1: &[u8], out: &mut [u8]) -> Step
    ensures { Ends p line1.now out.old out.new result }
{
    let n = give_up(p, line1, out);
    if p.held > 0 {
        return saying(holding(p, 0, 0), n);
    }
    Step {
        pairs: p,
        what: What::Over,
        first: 0,
    }
}
