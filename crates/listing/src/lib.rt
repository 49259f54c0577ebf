// The printed pair (document 01, "One pair, printed"): a record as sixteen labelled lines, or `refused`
// and the number, into a lent buffer.
#![tactic(auto)]

ghost use Rattle.std.specs.Prelude.{◌≡◌, [], ◌∷◌, ◌++◌, ◌≤◌, min, take};
ghost use Rattle.text.specs.Output.{Put, line, decimal, signed};
ghost use Rattle.listing.specs.Listing.{trimmed, designator_text, epoch_text, scaled_text, fields1, fields2, record_text, reading_text, lines_text, pair_text, Prints};
ghost use Rattle.tle.specs.Read.{letter, read_of};

use text::{Lines, put_byte, put_bytes, put_decimal, put_five_digits, put_line, put_signed};
use tle::{Class, Designator, Record, Refusal, Scaled};

fn put_class(out: &mut [u8], at: usize, label: &[u8], class: Class) -> usize
    ensures { Put out.old at (line label.now (letter class ∷ [])) out.new result }
{
    let b = class.letter();
    let p = put_bytes(out, at, label);
    let p = put_byte(out, p, b);
    put_byte(out, p, b'\n')
}

// How many of a piece's three places lie before its trailing blanks.
fn piece_size(a: u8, b: u8, c: u8) -> usize
    ensures { (result ≤ 3) × (take result (a ∷ b ∷ c ∷ []) ≡ trimmed (a ∷ b ∷ c ∷ [])) }
{
    if c != b' ' {
        return 3;
    }
    if b != b' ' {
        return 2;
    }
    if a != b' ' {
        return 1;
    }
    0
}

fn put_piece(out: &mut [u8], at: usize, a: u8, b: u8, c: u8) -> usize
    ensures { Put out.old at (trimmed (a ∷ b ∷ c ∷ [])) out.new result }
{
    let piece = [a, b, c];
    let size = piece_size(a, b, c);
    put_bytes(out, at, &piece[0..size])
}

pub fn put_designator(out: &mut [u8], at: usize, designator: Designator) -> usize
    ensures { Put out.old at (designator_text designator) out.new result }
{
    match designator {
        Designator::Blank => put_byte(out, at, b'-'),
        Designator::Piece { launch, a, b, c } => {
            let p = put_five_digits(out, at, launch);
            put_piece(out, p, a, b, c)
        }
    }
}

fn put_designator_line(out: &mut [u8], at: usize, label: &[u8], designator: Designator) -> usize
    ensures { Put out.old at (line label.now (designator_text designator)) out.new result }
{
    let p = put_bytes(out, at, label);
    let p = put_designator(out, p, designator);
    put_byte(out, p, b'\n')
}

// One unit of the day's last digit is 864 microseconds.
pub fn put_epoch(out: &mut [u8], at: usize, label: &[u8], year: u64, day: u64) -> usize
    ensures { Put out.old at (line label.now (epoch_text year day)) out.new result }
{
    let p = put_bytes(out, at, label);
    let p = put_decimal(out, p, year);
    let p = put_byte(out, p, b' ');
    let p = put_decimal(out, p, day / 100000000);
    let p = put_byte(out, p, b' ');
    let p = put_decimal(out, p, day % 100000000 * 864);
    put_byte(out, p, b'\n')
}

fn put_signed_line(out: &mut [u8], at: usize, label: &[u8], v: i64) -> usize
    ensures { Put out.old at (line label.now (signed v)) out.new result }
{
    let p = put_bytes(out, at, label);
    let p = put_signed(out, p, v);
    put_byte(out, p, b'\n')
}

pub fn put_scaled(out: &mut [u8], at: usize, v: Scaled) -> usize
    ensures { Put out.old at (scaled_text v) out.new result }
{
    let p = put_signed(out, at, v.mantissa);
    let p = put_byte(out, p, b' ');
    put_signed(out, p, v.exponent)
}

fn put_scaled_line(out: &mut [u8], at: usize, label: &[u8], v: Scaled) -> usize
    ensures { Put out.old at (line label.now (scaled_text v)) out.new result }
{
    let p = put_bytes(out, at, label);
    let p = put_scaled(out, p, v);
    put_byte(out, p, b'\n')
}

// The fields of line 1.
fn put_fields1(out: &mut [u8], at: usize, r: Record) -> usize
    ensures { Put out.old at (fields1 r) out.new result }
{
    let class = r.class;
    let designator = r.designator;
    let nddot = r.nddot;
    let bstar = r.bstar;
    let p = put_line(out, at, b"number ", r.number);
    let p = put_class(out, p, b"class ", class);
    let p = put_designator_line(out, p, b"designator ", designator);
    let p = put_epoch(out, p, b"epoch ", r.year, r.day);
    let p = put_signed_line(out, p, b"ndot ", r.ndot);
    let p = put_scaled_line(out, p, b"nddot ", nddot);
    let p = put_scaled_line(out, p, b"bstar ", bstar);
    let p = put_line(out, p, b"type ", r.ephemeris);
    put_line(out, p, b"set ", r.element)
}

// The fields of line 2.
fn put_fields2(out: &mut [u8], at: usize, r: Record) -> usize
    ensures { Put out.old at (fields2 r) out.new result }
{
    let p = put_line(out, at, b"inclination ", r.inclination);
    let p = put_line(out, p, b"node ", r.node);
    let p = put_line(out, p, b"eccentricity ", r.eccentricity);
    let p = put_line(out, p, b"perigee ", r.perigee);
    let p = put_line(out, p, b"anomaly ", r.anomaly);
    let p = put_line(out, p, b"motion ", r.motion);
    put_line(out, p, b"revolution ", r.revolution)
}

fn put_record(out: &mut [u8], at: usize, r: Record) -> usize
    ensures { Put out.old at (record_text r) out.new result }
{
    let p = put_fields1(out, at, r);
    put_fields2(out, p, r)
}

fn put_reading(out: &mut [u8], at: usize, reading: Result<Record, Refusal>) -> usize
    ensures { Put out.old at (reading_text reading) out.new result }
{
    match reading {
        Ok(r) => put_record(out, at, r),
        Err(why) => {
            let n = why.number();
            put_line(out, at, b"refused ", n)
        }
    }
}

// The text at the front of the buffer; nothing where it does not fit. The first run, over a buffer of
// one byte, measures the text.
pub fn print_reading(reading: Result<Record, Refusal>, out: &mut [u8]) -> Option<usize>
    ensures { Prints (reading_text reading) out.old out.new result }
{
    let mut measure = [0u8; 1];
    let size = put_reading(&mut measure, 0, reading);
    if out.len() < size {
        return None;
    }
    let n = put_reading(out, 0, reading);
    Some(n)
}

// What reading two lines gives, printed.
pub fn print_pair(line1: &[u8], line2: &[u8], out: &mut [u8]) -> Option<usize>
    ensures { Prints (reading_text (read_of line1.now line2.now)) out.old out.new result }
{
    let fields = match tle::read_form(line1, line2) {
        Ok(fields) => fields,
        Err(why) => return print_reading(Err(why), out),
    };
    print_reading(tle::read_meaning(fields), out)
}

pub fn kept_size(size: usize) -> usize
    ensures { result ≡ min size 70 }
{
    if size < 70 {
        return size;
    }
    70
}

fn print_held(
    line1: [u8; 70],
    size1: usize,
    line2: [u8; 70],
    size2: usize,
    out: &mut [u8],
) -> Option<usize>
    ensures { Prints (reading_text (read_of (take size1 line1) (take size2 line2))) out.old out.new result }
{
    let n1 = kept_size(size1);
    let n2 = kept_size(size2);
    print_pair(&line1[0..n1], &line2[0..n2], out)
}

// The pair in the two lines that have been fed, printed.
pub fn print_lines(lines: Lines, out: &mut [u8]) -> Option<usize>
    ensures { Prints (lines_text lines) out.old out.new result }
{
    let first = lines.first;
    let second = lines.second;
    let line1 = first.bytes;
    let line2 = second.bytes;
    print_held(line1, first.size, line2, second.size, out)
}

// The pair in a whole input, printed.
pub fn print_input(input: &[u8], out: &mut [u8]) -> Option<usize>
    ensures { Prints (pair_text input.now) out.old out.new result }
{
    let lines = Lines::start();
    let lines = lines.feed(input);
    print_lines(lines, out)
}
