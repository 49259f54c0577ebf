// Why two lines are refused, in a sentence (document 01, refusals 1 to 6), with the line at fault below it
// and marks under the columns.
#![tactic(auto)]

ghost use Rattle.std.specs.Prelude.{◌≡◌};
ghost use Rattle.text.specs.Output.{Put};
ghost use Rattle.reading_faults.specs.Ranges.{field_text, limits_text, from_of, width_of, range_in, range_text};
ghost use Rattle.reading_faults.specs.Fault.{numbers_text, line_fault, on_line, fault_text};

use column_faults::{put_checksum_fault, put_column_fault, put_length_fault};
use marked_line::{put_marked, put_part};
use text::put_bytes;
use tle::{Field, Line, Refusal};

// The field, with the columns that it stands in.
fn put_field(out: &mut [u8], at: usize, field: Field) -> usize
    ensures { Put out.old at (field_text field) out.new result }
{
    match field {
        Field::Day => put_bytes(out, at, b"in columns 21 to 32 of line 1 the day is "),
        Field::Inclination => put_bytes(
            out,
            at,
            b"in columns 9 to 16 of line 2 the inclination is ",
        ),
        Field::Node => put_bytes(out, at, b"in columns 18 to 25 of line 2 the node is "),
        Field::Perigee => put_bytes(out, at, b"in columns 35 to 42 of line 2 the perigee is "),
        Field::Anomaly => put_bytes(out, at, b"in columns 44 to 51 of line 2 the anomaly is "),
        Field::Motion => put_bytes(out, at, b"in columns 53 to 63 of line 2 the motion is "),
    }
}

// The range of the field.
fn put_limits(out: &mut [u8], at: usize, field: Field) -> usize
    ensures { Put out.old at (limits_text field) out.new result }
{
    match field {
        Field::Day => put_bytes(
            out,
            at,
            b"; it may be 1.00000000 to 365.99999999, in a leap year to 366.99999999.\n",
        ),
        Field::Inclination => put_bytes(out, at, b"; it may be 0.0000 to 180.0000 degrees.\n"),
        Field::Node => put_bytes(out, at, b"; it may be 0.0000 to 359.9999 degrees.\n"),
        Field::Perigee => put_bytes(out, at, b"; it may be 0.0000 to 359.9999 degrees.\n"),
        Field::Anomaly => put_bytes(out, at, b"; it may be 0.0000 to 359.9999 degrees.\n"),
        Field::Motion => put_bytes(
            out,
            at,
            b"; it must be above 0.00000000 revolutions a day.\n",
        ),
    }
}

// How many columns lie before the field.
fn from_of(field: Field) -> usize
    ensures { result ≡ from_of field }
{
    match field {
        Field::Day => 20,
        Field::Inclination => 8,
        Field::Node => 17,
        Field::Perigee => 34,
        Field::Anomaly => 43,
        Field::Motion => 52,
    }
}

// How many columns it has.
fn width_of(field: Field) -> usize
    ensures { result ≡ width_of field }
{
    match field {
        Field::Day => 12,
        Field::Inclination => 8,
        Field::Node => 8,
        Field::Perigee => 8,
        Field::Anomaly => 8,
        Field::Motion => 11,
    }
}

fn put_range_in(out: &mut [u8], at: usize, field: Field, line: &[u8]) -> usize
    ensures { Put out.old at (range_in field line.now) out.new result }
{
    let from = from_of(field);
    let width = width_of(field);
    let p = put_bytes(out, at, b"refusal 6: ");
    let p = put_field(out, p, field);
    let p = put_part(out, p, line, from, width);
    let p = put_limits(out, p, field);
    put_marked(out, p, line, from, width)
}

// Refusal 6: the field, its value as it stands, and its range.
fn put_range(out: &mut [u8], at: usize, field: Field, line1: &[u8], line2: &[u8]) -> usize
    ensures { Put out.old at (range_text field line1.now line2.now) out.new result }
{
    match field {
        Field::Day => put_range_in(out, at, field, line1),
        Field::Inclination => put_range_in(out, at, field, line2),
        Field::Node => put_range_in(out, at, field, line2),
        Field::Perigee => put_range_in(out, at, field, line2),
        Field::Anomaly => put_range_in(out, at, field, line2),
        Field::Motion => put_range_in(out, at, field, line2),
    }
}

// Refusal 5.
fn put_numbers(out: &mut [u8], at: usize, line1: &[u8], line2: &[u8]) -> usize
    ensures { Put out.old at (numbers_text line1.now line2.now) out.new result }
{
    let p = put_bytes(out, at, b"refusal 5: columns 3 to 7 have ");
    let p = put_part(out, p, line1, 2, 5);
    let p = put_bytes(out, p, b" in line 1 and ");
    let p = put_part(out, p, line2, 2, 5);
    let p = put_bytes(out, p, b" in line 2.\n");
    let p = put_marked(out, p, line1, 2, 5);
    put_marked(out, p, line2, 2, 5)
}

// Refusals 1 to 4 of one line, by its digit and its layout.
fn put_line_fault(
    out: &mut [u8],
    at: usize,
    why: Refusal,
    which: u8,
    layout: &[u8],
    line: &[u8],
) -> usize
    ensures { Put out.old at (line_fault why which layout.now line.now) out.new result }
{
    match why {
        Refusal::Length(_) => put_length_fault(out, at, which, line),
        Refusal::Start(_) => put_column_fault(out, at, 2, which, layout, line, 1),
        Refusal::Column(_, column) => put_column_fault(out, at, 3, which, layout, line, column),
        Refusal::Checksum(_) => put_checksum_fault(out, at, which, line),
        Refusal::Numbers => put_bytes(out, at, b""),
        Refusal::Range(_) => put_bytes(out, at, b""),
        Refusal::NoForm => put_bytes(out, at, b""),
    }
}

// The line that a refusal names.
fn put_on_line(
    out: &mut [u8],
    at: usize,
    line: Line,
    why: Refusal,
    line1: &[u8],
    line2: &[u8],
) -> usize
    ensures { Put out.old at (on_line line why line1.now line2.now) out.new result }
{
    let layout1 = b"1 NDDDDC RffffLll DDDDD.DDDDDDDD S.DDDDDDDD SDDDDDED SDDDDDED D RrrDD";
    let layout2 = b"2 NDDDD RrD.DDDD RrD.DDDD DDDDDDD RrD.DDDD RrD.DDDD RD.DDDDDDDDRrrrDD";
    match line {
        Line::One => put_line_fault(out, at, why, b'1', layout1, line1),
        Line::Two => put_line_fault(out, at, why, b'2', layout2, line2),
    }
}

// Any refusal of two lines. That of fields, 16, no two lines have.
pub fn put_fault(out: &mut [u8], at: usize, why: Refusal, line1: &[u8], line2: &[u8]) -> usize
    ensures { Put out.old at (fault_text why line1.now line2.now) out.new result }
{
    match why {
        Refusal::Length(line) => put_on_line(out, at, line, Refusal::Length(line), line1, line2),
        Refusal::Start(line) => put_on_line(out, at, line, Refusal::Start(line), line1, line2),
        Refusal::Column(line, n) => put_on_line(
            out,
            at,
            line,
            Refusal::Column(line, n),
            line1,
            line2,
        ),
        Refusal::Checksum(line) => put_on_line(
            out,
            at,
            line,
            Refusal::Checksum(line),
            line1,
            line2,
        ),
        Refusal::Numbers => put_numbers(out, at, line1, line2),
        Refusal::Range(field) => put_range(out, at, field, line1, line2),
        Refusal::NoForm => put_bytes(out, at, b"refusal 16: no two lines have these fields.\n"),
    }
}
