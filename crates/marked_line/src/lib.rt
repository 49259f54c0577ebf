// A line of text shown with marks under some of its columns, the bytes of some columns, and a byte named
// in words. Each byte takes one place, whatever it is, so that a mark stands under its column.
#![tactic(auto)]

ghost use Rattle.std.specs.Prelude.{◌≡◌, map, [], ◌∷◌, min, ◌≤◌, replicate, take};
ghost use Rattle.text.specs.Output.{Put};
ghost use Rattle.marked_line.specs.Marked.{visible, part, shown, marked, numbered, named};

use text::{put_byte, put_bytes, put_decimal};

// A printable byte itself, and a question mark for any other.
fn visible(b: u8) -> u8
    ensures { result ≡ visible b }
{
    if b < 32 {
        return b'?';
    }
    if 126 < b {
        return b'?';
    }
    b
}

fn put_visible(out: &mut [u8], at: usize, line: &[u8]) -> usize
    ensures { Put out.old at (map visible line.now) out.new result }
{
    let mut next = at;
    for &b in line {
        next = put_byte(out, next, visible(b));
    }
    next
}

fn put_repeated(out: &mut [u8], at: usize, byte: u8, n: usize) -> usize
    ensures { Put out.old at (replicate n byte) out.new result }
{
    let mut next = at;
    for _ in 0..n {
        next = put_byte(out, next, byte);
    }
    next
}

// n, or the most where n is more.
pub fn at_most(n: usize, most: usize) -> usize
    ensures { (result ≡ min n most) × (result ≤ most) }
{
    n.min(most)
}

fn put_front(out: &mut [u8], at: usize, line: &[u8], n: usize) -> usize
    ensures { Put out.old at (map visible (take n line.now)) out.new result }
{
    let m = at_most(n, line.len());
    put_visible(out, at, &line[0..m])
}

// The bytes of n columns after the first `from`, as far as the line has them.
pub fn put_part(out: &mut [u8], at: usize, line: &[u8], from: usize, n: usize) -> usize
    ensures { Put out.old at (part from n line.now) out.new result }
{
    let a = at_most(from, line.len());
    put_front(out, at, &line[a..], n)
}

// The line's first 80 columns, set in by four blanks.
pub fn put_shown(out: &mut [u8], at: usize, line: &[u8]) -> usize
    ensures { Put out.old at (shown line.now) out.new result }
{
    let p = put_bytes(out, at, b"    ");
    let p = put_front(out, p, line, 80);
    put_byte(out, p, b'\n')
}

// The line, and below it a mark under each of the n columns after the first `from`.
pub fn put_marked(out: &mut [u8], at: usize, line: &[u8], from: usize, n: usize) -> usize
    ensures { Put out.old at (marked from n line.now) out.new result }
{
    let p = put_shown(out, at, line);
    let p = put_bytes(out, p, b"    ");
    let p = put_repeated(out, p, b' ', from);
    let p = put_repeated(out, p, b'^', n);
    put_byte(out, p, b'\n')
}

fn put_quoted(out: &mut [u8], at: usize, b: u8) -> usize
    ensures { Put out.old at (39 ∷ b ∷ 39 ∷ []) out.new result }
{
    let p = put_byte(out, at, b'\'');
    let p = put_byte(out, p, b);
    put_byte(out, p, b'\'')
}

fn put_numbered(out: &mut [u8], at: usize, b: u8) -> usize
    ensures { Put out.old at (numbered b) out.new result }
{
    let p = put_bytes(out, at, b"byte ");
    put_decimal(out, p, b as u64)
}

// A byte named: a blank, a printable byte between quotes, any other by its number.
pub fn put_named(out: &mut [u8], at: usize, b: u8) -> usize
    ensures { Put out.old at (named b) out.new result }
{
    if b < 32 {
        return put_numbered(out, at, b);
    }
    if 126 < b {
        return put_numbered(out, at, b);
    }
    if b == b' ' {
        return put_bytes(out, at, b"a blank");
    }
    put_quoted(out, at, b)
}
