// Which line of a text of pairs is which, and what is said of one that is no line of a pair: a blank line,
// a name, a line 1 or a line 2 that stands alone. The heading of a pair, and the last line of a listing.
#![tactic(auto)]

ghost use Rattle.std.specs.Prelude.{◌≡◌};
ghost use Rattle.text.specs.Output.{Put};
ghost use Rattle.pair_lines.specs.Sort.{is_space, all_blank, begins, sort_of};
ghost use Rattle.pair_lines.specs.Said.{remark_text, said_text, blank_text, heading_text, summary_text};

use marked_line::put_shown;
use text::{put_byte, put_bytes, put_decimal};

#[derive(Clone, Copy)]
pub enum Sort {
    Blank,
    One,
    Two,
    Whole,
    Other,
}

fn is_space(b: u8) -> bool
    ensures { result ≡ is_space b }
{
    (b == b' ') | (b == 9) | (b == 13)
}

// Nothing but blanks, tabs and carriage returns.
fn all_blank(line: &[u8]) -> bool
    ensures { result ≡ all_blank line.now }
{
    line.iter().all(|&b| is_space(b))
}

// Whether the line begins with a digit and a blank.
fn begins(line: &[u8], digit: u8) -> bool
    ensures { result ≡ begins digit line.now }
{
    if line.len() < 2 {
        return false;
    }
    (line[0] == digit) & (line[1] == b' ')
}

// A line 1 or a line 2 is known by its first two columns. Another line of 69 bytes may be either: no name
// has that length.
pub fn sort_of(line: &[u8]) -> Sort
    ensures { result ≡ sort_of line.now }
{
    if all_blank(line) {
        return Sort::Blank;
    }
    if begins(line, b'1') {
        return Sort::One;
    }
    if begins(line, b'2') {
        return Sort::Two;
    }
    if line.len() == 69 {
        return Sort::Whole;
    }
    Sort::Other
}

// What may be said of a line that is in no pair.
#[derive(Clone, Copy)]
pub enum Remark {
    Name,
    NoSecond,
    NoFirst,
    TooLong,
}

fn put_phrase(out: &mut [u8], at: usize, remark: Remark) -> usize
    ensures { Put out.old at (remark_text remark) out.new result }
{
    match remark {
        Remark::Name => put_bytes(out, at, b" is no line of a pair and is taken for a name:\n"),
        Remark::NoSecond => put_bytes(out, at, b" is a line 1 without a line 2 after it:\n"),
        Remark::NoFirst => put_bytes(out, at, b" is a line 2 without a line 1 before it:\n"),
        Remark::TooLong => put_bytes(out, at, b" is too long to be held; it begins:\n"),
    }
}

// A line that is in no pair, by its number, with what is said of it.
pub fn put_said(out: &mut [u8], at: usize, number: u64, remark: Remark, line: &[u8]) -> usize
    ensures { Put out.old at (said_text number remark line.now) out.new result }
{
    let p = put_bytes(out, at, b"line ");
    let p = put_decimal(out, p, number);
    let p = put_phrase(out, p, remark);
    put_shown(out, p, line)
}

pub fn put_blank(out: &mut [u8], at: usize, number: u64) -> usize
    ensures { Put out.old at (blank_text number) out.new result }
{
    let p = put_bytes(out, at, b"line ");
    let p = put_decimal(out, p, number);
    put_bytes(out, p, b" is blank.\n")
}

// What stands before the explanation of a pair: the numbers of its lines.
pub fn put_heading(out: &mut [u8], at: usize, first: u64, second: u64) -> usize
    ensures { Put out.old at (heading_text first second) out.new result }
{
    let p = put_bytes(out, at, b"lines ");
    let p = put_decimal(out, p, first);
    let p = put_bytes(out, p, b" and ");
    let p = put_decimal(out, p, second);
    put_bytes(out, p, b": ")
}

pub fn put_summary(out: &mut [u8], at: usize, lines: u64, pairs: u64, well: u64) -> usize
    ensures { Put out.old at (summary_text lines pairs well) out.new result }
{
    let p = put_bytes(out, at, b"lines ");
    let p = put_decimal(out, p, lines);
    let p = put_bytes(out, p, b", pairs ");
    let p = put_decimal(out, p, pairs);
    let p = put_bytes(out, p, b", well ");
    let p = put_decimal(out, p, well);
    put_byte(out, p, b'\n')
}
