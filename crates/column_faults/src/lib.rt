// What is wrong with one line of a pair, in a sentence: its length, a column, or its checksum. The line
// follows, with a mark under the column.
#![tactic(auto)]

ghost use Rattle.std.specs.Prelude.{◌≡◌, ◌-◌, ◌≤◌, length, get_or};
ghost use Rattle.text.specs.Output.{Put};
ghost use Rattle.column_faults.specs.Faults.{allowed_text, choice_text, end_text, size_text, length_text, place_text, column_text};
ghost use Rattle.column_faults.specs.Sums.{digit_sum, minus, minuses, due_text, checksum_text};

use columns::{checksum, digit};
use marked_line::{at_most, put_marked, put_named};
use text::{put_byte, put_bytes, put_decimal};

// What may stand in a column of a class that admits letters, or blanks with digits or letters.
fn put_choice(out: &mut [u8], at: usize, class: u8) -> usize
    ensures { Put out.old at (choice_text class) out.new result }
{
    match class {
        b'N' => put_bytes(out, at, b"a digit, or a letter A-Z but I and O,"),
        b'R' => put_bytes(out, at, b"a blank or a digit"),
        b'r' => put_bytes(out, at, b"a digit, or a blank after a blank,"),
        b'f' => put_bytes(out, at, b"a digit, or after a blank a blank,"),
        b'L' => put_bytes(out, at, b"a letter A-Z, or after a blank a blank,"),
        b'l' => put_bytes(out, at, b"a blank, or after another byte a letter A-Z,"),
        _ => put_bytes(out, at, b"no byte"),
    }
}

// What may stand in a column of the class (crate columns, specs/Layout.antt).
fn put_allowed(out: &mut [u8], at: usize, class: u8) -> usize
    ensures { Put out.old at (allowed_text class) out.new result }
{
    match class {
        b' ' => put_bytes(out, at, b"a blank"),
        b'.' => put_bytes(out, at, b"a point"),
        b'1' => put_bytes(out, at, b"a 1"),
        b'2' => put_bytes(out, at, b"a 2"),
        b'D' => put_bytes(out, at, b"a digit"),
        b'S' => put_bytes(out, at, b"a blank, + or -"),
        b'E' => put_bytes(out, at, b"+ or -"),
        b'C' => put_bytes(out, at, b"U, C or S"),
        _ => put_choice(out, at, class),
    }
}

// The byte after the first i, 0 where the line has none.
fn byte_at(line: &[u8], i: usize) -> u8
    ensures { result ≡ get_or line.now i 0 }
{
    if i < line.len() {
        return line[i];
    }
    0
}

// What is said of a line whose last byte is a carriage return.
fn put_end(out: &mut [u8], at: usize, last: u8) -> usize
    ensures { Put out.old at (end_text last) out.new result }
{
    if last == 13 {
        return put_bytes(
            out,
            at,
            b", the last a carriage return (its text ends lines with CR LF)",
        );
    }
    put_bytes(out, at, b"")
}

fn put_size(out: &mut [u8], at: usize, which: u8, size: usize) -> usize
    ensures { Put out.old at (size_text which size) out.new result }
{
    let p = put_bytes(out, at, b"refusal 1: line ");
    let p = put_byte(out, p, which);
    let p = put_bytes(out, p, b" has ");
    let p = put_decimal(out, p, size as u64);
    put_bytes(out, p, b" bytes where 69 are due")
}

// Refusal 1. The mark stands under the first column that is missing or too many.
pub fn put_length_fault(out: &mut [u8], at: usize, which: u8, line: &[u8]) -> usize
    ensures { Put out.old at (length_text which line.now) out.new result }
{
    let from = at_most(line.len(), 69);
    let last = byte_at(line, line.len().saturating_sub(1));
    let p = put_size(out, at, which, line.len());
    let p = put_end(out, p, last);
    let p = put_bytes(out, p, b".\n");
    put_marked(out, p, line, from, 1)
}

fn put_place(out: &mut [u8], at: usize, number: u64, which: u8, column: usize) -> usize
    ensures { Put out.old at (place_text number which column) out.new result }
{
    let p = put_bytes(out, at, b"refusal ");
    let p = put_decimal(out, p, number);
    let p = put_bytes(out, p, b": in column ");
    let p = put_decimal(out, p, column as u64);
    let p = put_bytes(out, p, b" of line ");
    let p = put_byte(out, p, which);
    put_bytes(out, p, b" stands ")
}

// Refusals 2 and 3: the byte that stands in the column, and what the layout allows there.
pub fn put_column_fault(
    out: &mut [u8],
    at: usize,
    number: u64,
    which: u8,
    layout: &[u8],
    line: &[u8],
    column: usize,
) -> usize
    ensures { Put out.old at (column_text number which layout.now line.now column) out.new result }
{
    let i = column.saturating_sub(1);
    let stands = byte_at(line, i);
    let class = byte_at(layout, i);
    let p = put_place(out, at, number, which, column);
    let p = put_named(out, p, stands);
    let p = put_bytes(out, p, b" where only ");
    let p = put_allowed(out, p, class);
    let p = put_bytes(out, p, b" may stand.\n");
    put_marked(out, p, line, i, 1)
}

fn digit_sum(s: &[u8]) -> u64
    requires { length s.now ≤ 68 }
    ensures { result ≡ digit_sum s.now }
{
    s.iter().map(|&b| digit(b)).sum()
}

fn one_if_minus(b: u8) -> u64
    ensures { (result ≡ minus b) × (result ≤ 1) }
{
    if b == b'-' {
        return 1;
    }
    0
}

fn minus_count(s: &[u8]) -> u64
    requires { length s.now ≤ 68 }
    ensures { result ≡ minuses s.now }
{
    s.iter().map(|&b| one_if_minus(b)).sum()
}

// The checksum that is due of the columns before it, and the two sums that it is made of.
fn put_due(out: &mut [u8], at: usize, columns: &[u8]) -> usize
    requires { length columns.now ≤ 68 }
    ensures { Put out.old at (due_text columns.now) out.new result }
{
    let due = checksum(columns);
    let digits = digit_sum(columns);
    let minus = minus_count(columns);
    let p = put_bytes(out, at, b" where the checksum ");
    let p = put_decimal(out, p, due);
    let p = put_bytes(out, p, b" is due: the digits of columns 1 to 68 add up to ");
    let p = put_decimal(out, p, digits);
    let p = put_bytes(out, p, b" and the minus signs to ");
    let p = put_decimal(out, p, minus);
    put_bytes(out, p, b".\n")
}

// Refusal 4.
pub fn put_checksum_fault(out: &mut [u8], at: usize, which: u8, line: &[u8]) -> usize
    ensures { Put out.old at (checksum_text which line.now) out.new result }
{
    let n = at_most(68, line.len());
    let stands = byte_at(line, 68);
    let p = put_place(out, at, 4, which, 69);
    let p = put_named(out, p, stands);
    let p = put_due(out, p, &line[0..n]);
    put_marked(out, p, line, 68, 1)
}
