// Reading two lines: document 01, "The two lines" and refusals 1 to 6, in the two operations of
// document 02, wish 9. read_form judges their form, read_meaning what it yields.

ghost use Rattle.std.specs.Prelude.{◌≡◌, length, ◌+◌, ◌^◌, ◌≤◌, ◌<◌, Ok};
ghost use Rattle.tle.specs.Number.{value_on, field, signed};
ghost use Rattle.tle.specs.Read.{verdict_of, number_at, pair_of, designator_at, year_of, ndot_at, scaled_at, degrees_at, day_at, motion_at, fields_of, formed, form_of, ranges_of, meaning_of};

use super::limits::{angle_in_range, inclination_in_range, motion_in_range};
use super::{Class, Designator, Field, Fields, Line, Record, Refusal, Scaled};
use columns::{agreeing, checksum, digit, first_place};
use instant::day_in_range;

// The whole number that the bytes show.
fn value(s: &[u8]) -> u64
    requires { length s.now ≤ 18 }
    ensures { (result ≡ value_on 0 s.now) × (result < 10 ^ length s.now) }
{
    let mut a: u64 = 0;
    for b in s {
        a = a * 10 + digit(*b);
    }
    a
}

// The whole number in the w columns after the first at.
fn field_at(line: &[u8], at: usize, w: usize) -> u64
    requires { (at + w ≤ length line.now) × (w ≤ 18) }
    ensures { (result ≡ field at w line.now) × (result < 10 ^ w) }
{
    value(&line[at..at + w])
}

// Refusals 1 to 4 of one line, by its layout.
fn judge_line(which: Line, layout: &[u8], line: &[u8]) -> Result<(), Refusal>
    requires { length layout.now ≡ 69 }
    ensures { result ≡ verdict_of which layout.now line.now }
{
    if line.len() != 69 {
        return Err(Refusal::Length(which));
    }
    let n = agreeing(layout, line);
    if n == 0 {
        return Err(Refusal::Start(which));
    }
    if n != 69 {
        return Err(Refusal::Column(which, n + 1));
    }
    if checksum(&line[0..68]) != digit(line[68]) {
        return Err(Refusal::Checksum(which));
    }
    Ok(())
}

// The catalogue number of either line.
fn number_at(line: &[u8]) -> u64
    requires { length line.now ≡ 69 }
    ensures { result ≡ number_at line.now }
{
    first_place(line[2]) * 10000 + field_at(line, 3, 4)
}

// Refusals 1 to 5: line 1, then line 2, then both. crate columns says what each letter of a layout
// stands for.
fn judge_pair(line1: &[u8], line2: &[u8]) -> Result<(), Refusal>
    ensures { result ≡ pair_of line1.now line2.now }
{
    let layout1 = b"1 NDDDDC RffffLll DDDDD.DDDDDDDD S.DDDDDDDD SDDDDDED SDDDDDED D RrrDD";
    let layout2 = b"2 NDDDD RrD.DDDD RrD.DDDD DDDDDDD RrD.DDDD RrD.DDDD RD.DDDDDDDDRrrrDD";
    judge_line(Line::One, layout1, line1)?;
    judge_line(Line::Two, layout2, line2)?;
    if number_at(line1) != number_at(line2) {
        return Err(Refusal::Numbers);
    }
    Ok(())
}

fn designator_at(line: &[u8]) -> Designator
    requires { length line.now ≡ 69 }
    ensures { result ≡ designator_at line.now }
{
    if line[9] == b' ' {
        return Designator::Blank;
    }
    let launch = field_at(line, 9, 5);
    Designator::Piece {
        launch,
        a: line[14],
        b: line[15],
        c: line[16],
    }
}

fn year_at(line: &[u8]) -> u64
    requires { length line.now ≡ 69 }
    ensures { result ≡ year_of (field 18 2 line.now) }
{
    let yy = field_at(line, 18, 2);
    if 57 <= yy {
        return 1900 + yy;
    }
    2000 + yy
}

// n, or minus n.
fn with_sign(minus: bool, n: u64) -> i64
    requires { n < 10 ^ 9 }
    ensures { result ≡ signed minus n }
{
    if minus {
        return 0 - (n as i64);
    }
    n as i64
}

// Sign, five digits, sign of the exponent, one digit.
fn scaled_at(line: &[u8], at: usize) -> Scaled
    requires { at + 8 ≤ length line.now }
    ensures { result ≡ scaled_at at line.now }
{
    let digits = field_at(line, at + 1, 5);
    let mantissa = with_sign(line[at] == b'-', digits);
    if digits == 0 {
        return Scaled {
            mantissa,
            exponent: 0,
        };
    }
    let exponent = with_sign(line[at + 6] == b'-', field_at(line, at + 7, 1));
    Scaled { mantissa, exponent }
}

// ddd.dddd in 0.0001 degree.
fn degrees_at(line: &[u8], at: usize) -> u64
    requires { at + 8 ≤ length line.now }
    ensures { result ≡ degrees_at at line.now }
{
    field_at(line, at, 3) * 10000 + field_at(line, at + 4, 4)
}

// Half the first derivative, in its last decimal place.
fn ndot_at(line: &[u8]) -> i64
    requires { length line.now ≡ 69 }
    ensures { result ≡ ndot_at line.now }
{
    with_sign(line[33] == b'-', field_at(line, 35, 8))
}

// ddd.dddddddd in 10 ^ -8 of a day.
fn day_at(line: &[u8]) -> u64
    requires { length line.now ≡ 69 }
    ensures { result ≡ day_at line.now }
{
    field_at(line, 20, 3) * 100000000 + field_at(line, 24, 8)
}

// dd.dddddddd in 10 ^ -8 of a revolution a day.
fn motion_at(line: &[u8]) -> u64
    requires { length line.now ≡ 69 }
    ensures { result ≡ motion_at line.now }
{
    field_at(line, 52, 2) * 100000000 + field_at(line, 55, 8)
}

// The fields of two lawful lines.
fn fields(line1: &[u8], line2: &[u8]) -> Record
    requires { (length line1.now ≡ 69) × (length line2.now ≡ 69) }
    ensures { result ≡ fields_of line1.now line2.now }
{
    Record {
        number: number_at(line1),
        class: Class::of_letter(line1[7]),
        designator: designator_at(line1),
        year: year_at(line1),
        day: day_at(line1),
        ndot: ndot_at(line1),
        nddot: scaled_at(line1, 44),
        bstar: scaled_at(line1, 53),
        ephemeris: field_at(line1, 62, 1),
        element: field_at(line1, 64, 4),
        inclination: degrees_at(line2, 8),
        node: degrees_at(line2, 17),
        eccentricity: field_at(line2, 26, 7),
        perigee: degrees_at(line2, 34),
        anomaly: degrees_at(line2, 43),
        motion: motion_at(line2),
        revolution: field_at(line2, 63, 5),
    }
}

// What a lawful pair yields: its fields, in their ranges or not.
fn yielded(r: Record) -> Result<Fields, Refusal>
    ensures { result ≡ formed (Ok tt) r }
{
    Ok(Fields(r, true))
}

// The form of two lines, of any bytes and any lengths: refusals 1 to 5, or the fields.
pub fn read_form(line1: &[u8], line2: &[u8]) -> Result<Fields, Refusal>
    ensures { result ≡ form_of line1.now line2.now }
{
    judge_pair(line1, line2)?;
    yielded(fields(line1, line2))
}

// The ranges of the fields: refusal 6, or the record.
fn judge_ranges(r: Record) -> Result<Record, Refusal>
    ensures { result ≡ ranges_of r }
{
    if !day_in_range(r.year, r.day) {
        return Err(Refusal::Range(Field::Day));
    }
    if !inclination_in_range(r.inclination) {
        return Err(Refusal::Range(Field::Inclination));
    }
    if !angle_in_range(r.node) {
        return Err(Refusal::Range(Field::Node));
    }
    if !angle_in_range(r.perigee) {
        return Err(Refusal::Range(Field::Perigee));
    }
    if !angle_in_range(r.anomaly) {
        return Err(Refusal::Range(Field::Anomaly));
    }
    if !motion_in_range(r.motion) {
        return Err(Refusal::Range(Field::Motion));
    }
    Ok(r)
}

// The meaning of fields, whoever gives them: refusal 16 where no accepted form yields them, then 6, or
// the record.
pub fn read_meaning(fields: Fields) -> Result<Record, Refusal>
    ensures { result ≡ meaning_of fields }
{
    let r = fields.0;
    if !fields.1 {
        return Err(Refusal::NoForm);
    }
    judge_ranges(r)
}
