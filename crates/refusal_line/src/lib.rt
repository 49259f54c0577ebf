// A refusal of reading as a line of text: `refused`, the number, and what comes back with it, which is
// a line, a line and a column, or a field. What an owner is told of two lines: their form first, then
// what their fields mean.
#![tactic(auto)]

ghost use Rattle.std.specs.Prelude.{◌≡◌};
ghost use Rattle.text.specs.Output.{Put};
ghost use Rattle.refusal_line.specs.Refusal.{field_text, line_text, place_text, values_text, refusal_text};
ghost use Rattle.refusal_line.specs.Judged.{meaning_text, judged_text};
ghost use Rattle.tle.specs.Read.{form_of};

use text::{put_byte, put_bytes, put_decimal};
use tle::{Field, Line, Record, Refusal, read_form, read_meaning};

fn put_field(out: &mut [u8], at: usize, field: Field) -> usize
    ensures { Put out.old at (field_text field) out.new result }
{
    match field {
        Field::Day => put_bytes(out, at, b" day"),
        Field::Inclination => put_bytes(out, at, b" inclination"),
        Field::Node => put_bytes(out, at, b" node"),
        Field::Perigee => put_bytes(out, at, b" perigee"),
        Field::Anomaly => put_bytes(out, at, b" anomaly"),
        Field::Motion => put_bytes(out, at, b" motion"),
    }
}

fn put_line_number(out: &mut [u8], at: usize, line: Line) -> usize
    ensures { Put out.old at (line_text line) out.new result }
{
    match line {
        Line::One => put_bytes(out, at, b" 1"),
        Line::Two => put_bytes(out, at, b" 2"),
    }
}

fn wide(n: usize) -> u64
    ensures { result ≡ n }
{
    n as u64
}

fn put_place(out: &mut [u8], at: usize, line: Line, column: usize) -> usize
    ensures { Put out.old at (place_text line column) out.new result }
{
    let p = put_line_number(out, at, line);
    let p = put_byte(out, p, b' ');
    put_decimal(out, p, wide(column))
}

fn put_values(out: &mut [u8], at: usize, refusal: Refusal) -> usize
    ensures { Put out.old at (values_text refusal) out.new result }
{
    match refusal {
        Refusal::Length(line) => put_line_number(out, at, line),
        Refusal::Start(line) => put_line_number(out, at, line),
        Refusal::Column(line, column) => put_place(out, at, line, column),
        Refusal::Checksum(line) => put_line_number(out, at, line),
        Refusal::Numbers => put_bytes(out, at, b""),
        Refusal::Range(field) => put_field(out, at, field),
        Refusal::NoForm => put_bytes(out, at, b""),
    }
}

pub fn put_refusal(out: &mut [u8], at: usize, refusal: Refusal) -> usize
    ensures { Put out.old at (refusal_text refusal) out.new result }
{
    let number = refusal.number();
    let p = put_bytes(out, at, b"refused ");
    let p = put_decimal(out, p, number);
    let p = put_values(out, p, refusal);
    put_byte(out, p, b'\n')
}

fn put_meaning(out: &mut [u8], at: usize, reading: Result<Record, Refusal>) -> usize
    ensures { Put out.old at (meaning_text reading) out.new result }
{
    match reading {
        Ok(_) => put_bytes(out, at, b"in range\n"),
        Err(why) => put_refusal(out, at, why),
    }
}

// The form's refusal, or `well formed` and then the meaning's, or `in range`.
pub fn put_judged(out: &mut [u8], at: usize, line1: &[u8], line2: &[u8]) -> usize
    ensures { Put out.old at (judged_text (form_of line1.now line2.now)) out.new result }
{
    let fields = match read_form(line1, line2) {
        Ok(fields) => fields,
        Err(why) => return put_refusal(out, at, why),
    };
    let p = put_bytes(out, at, b"well formed\n");
    put_meaning(out, p, read_meaning(fields))
}
