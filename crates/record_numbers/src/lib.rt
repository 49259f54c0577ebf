// A record, or fields not yet judged, as whole numbers in memory that a caller lends. specs/Numbers has
// the layout.
#![tactic(auto)]

ghost use Rattle.std.specs.Prelude.{◌≡◌, true, cond, eqb, ltb, ◌++◌, ◌+◌, ◌<◌, ◌≤◌, ◌^◌, pos, length, drop};
ghost use Rattle.tle.specs.Read.{letter};
ghost use Rattle.record_numbers.specs.Numbers as N;

use tle::{Class, Designator, Fields, Record, Refusal, Scaled, in_form, legal, read_meaning};

// Why numbers give no record: the class is none, or there are fewer than 22.
#[derive(Clone, Copy)]
pub enum GivenRefusal {
    // 16
    NoClass,
    // 17
    TooShort,
}

// Document 01's number of the refusal, 0 where there is a record.
pub fn given_number(given: Result<Record, GivenRefusal>) -> u8
    ensures { result ≡ N.number_of given }
{
    match given {
        Ok(_) => 0,
        Err(GivenRefusal::NoClass) => 16,
        Err(GivenRefusal::TooShort) => 17,
    }
}

// A designator's launch, and its places as bytes.
#[derive(Clone, Copy)]
struct Places {
    launch: u64,
    a: u64,
    b: u64,
    c: u64,
}

fn plus(n: u64) -> i64
    requires { n < 2 ^ 63 }
    ensures { result ≡ pos n }
{
    n as i64
}

fn letter_of(class: Class) -> u64
    ensures { result ≡ letter class }
{
    class.letter() as u64
}

fn places_of(d: Designator) -> Places
    ensures { result ≡ N.places_of d }
{
    match d {
        Designator::Blank => Places {
            launch: 0,
            a: 32,
            b: 32,
            c: 32,
        },
        Designator::Piece { launch, a, b, c } => Places {
            launch,
            a: a as u64,
            b: b as u64,
            c: c as u64,
        },
    }
}

fn numbers_of(r: Record) -> [i64; 22]
    requires { N.Small r }
    ensures { result ≡ N.numbers_of r }
{
    let class = r.class;
    let designator = r.designator;
    let d = places_of(designator);
    let nddot = r.nddot;
    let bstar = r.bstar;
    [
        plus(r.number),
        plus(letter_of(class)),
        plus(d.launch),
        plus(d.a),
        plus(d.b),
        plus(d.c),
        plus(r.year),
        plus(r.day),
        r.ndot,
        nddot.mantissa,
        nddot.exponent,
        bstar.mantissa,
        bstar.exponent,
        plus(r.ephemeris),
        plus(r.element),
        plus(r.inclination),
        plus(r.node),
        plus(r.eccentricity),
        plus(r.perigee),
        plus(r.anomaly),
        plus(r.motion),
        plus(r.revolution),
    ]
}

// A record's numbers at the front of the memory, where that is allowed: 0, or refusal 16 or 17
// with nothing written.
fn store(allowed: bool, r: Record, fields: &mut [i64]) -> u8
    requires { allowed ≡ true → N.Small r }
    ensures value { result ≡ cond allowed (cond (ltb (length fields.old) 22) 17 0) 16 }
    ensures fields_after { fields.new ≡ cond (eqb result 0) (N.numbers_of r ++ drop 22 fields.old) fields.old }
{
    if !allowed {
        return 16;
    }
    if fields.len() < 22 {
        return 17;
    }
    fields[..22].copy_from_slice(&numbers_of(r));
    0
}

// A record's numbers at the front of the memory: 0, or refusal 16 or 17 with nothing written.
pub fn store_record(r: Record, fields: &mut [i64]) -> u8
    ensures value { result ≡ N.store_refusal r (length fields.old) }
    ensures fields_after { fields.new ≡ N.stored_over r fields.old }
{
    store(legal(r), r, fields)
}

// The numbers of fields, in range or not, at the front of the memory: 0, or refusal 16 or 17 with
// nothing written. Fields of an accepted form are never refused with 16.
pub fn store_fields(f: Fields, fields: &mut [i64]) -> u8
    ensures value { result ≡ N.fields_refusal f (length fields.old) }
    ensures fields_after { fields.new ≡ N.fields_over f fields.old }
{
    let r = f.unjudged();
    store(in_form(r), r, fields)
}

fn whole(x: i64) -> u64
    ensures { result ≡ N.whole x }
{
    if x < 0 {
        return 18446744073709551615;
    }
    x as u64
}

fn whole_at(fields: &[i64], i: usize) -> u64
    requires { i < length fields.now }
    ensures { result ≡ N.whole (N.at fields.now i) }
{
    whole(fields[i])
}

fn byte_at(fields: &[i64], i: usize) -> u8
    requires { i < length fields.now }
    ensures { result ≡ N.byte (N.at fields.now i) }
{
    let n = whole_at(fields, i);
    if n < 256 {
        return n as u8;
    }
    0
}

fn designator_from(launch: u64, a: u8, b: u8, c: u8) -> Designator
    ensures { result ≡ N.designator_from launch a b c }
{
    if (launch == 0) & (a == b' ') & (b == b' ') & (c == b' ') {
        return Designator::Blank;
    }
    Designator::Piece { launch, a, b, c }
}

fn designator_at(fields: &[i64]) -> Designator
    requires { 22 ≤ length fields.now }
    ensures { result ≡ N.designator_at fields.now }
{
    let launch = whole_at(fields, 2);
    let a = byte_at(fields, 3);
    let b = byte_at(fields, 4);
    let c = byte_at(fields, 5);
    designator_from(launch, a, b, c)
}

fn scaled_at(fields: &[i64], i: usize) -> Scaled
    requires { i + 2 ≤ length fields.now }
    ensures { result ≡ N.scaled_at fields.now i }
{
    Scaled {
        mantissa: fields[i],
        exponent: fields[i + 1],
    }
}

fn record_at(fields: &[i64]) -> Record
    requires { 22 ≤ length fields.now }
    ensures { result ≡ N.record_at fields.now }
{
    let class = Class::of_letter(byte_at(fields, 1));
    let designator = designator_at(fields);
    let nddot = scaled_at(fields, 9);
    let bstar = scaled_at(fields, 11);
    Record {
        number: whole_at(fields, 0),
        class,
        designator,
        year: whole_at(fields, 6),
        day: whole_at(fields, 7),
        ndot: fields[8],
        nddot,
        bstar,
        ephemeris: whole_at(fields, 13),
        element: whole_at(fields, 14),
        inclination: whole_at(fields, 15),
        node: whole_at(fields, 16),
        eccentricity: whole_at(fields, 17),
        perigee: whole_at(fields, 18),
        anomaly: whole_at(fields, 19),
        motion: whole_at(fields, 20),
        revolution: whole_at(fields, 21),
    }
}

fn is_class(b: u8) -> bool
    ensures { result ≡ N.is_class b }
{
    (b == b'U') | (b == b'C') | (b == b'S')
}

// The record that the numbers at the front of the memory give, whoever wrote them.
pub fn record_of(fields: &[i64]) -> Result<Record, GivenRefusal>
    ensures { result ≡ N.given_of fields.now }
{
    if fields.len() < 22 {
        return Err(GivenRefusal::TooShort);
    }
    if !is_class(byte_at(fields, 1)) {
        return Err(GivenRefusal::NoClass);
    }
    Ok(record_at(fields))
}

// The meaning of the fields that the numbers at the front of the memory give, whoever wrote them.
#[tactic(auto, unfolding(crate::specs::Numbers::judged_of))]
pub fn judge_numbers(fields: &[i64]) -> Option<Result<Record, Refusal>>
    ensures { result ≡ N.judged_of fields.now }
{
    let given = record_of(fields);
    match given {
        Ok(r) => Some(read_meaning(Fields::of(r))),
        Err(GivenRefusal::NoClass) => Some(Err(Refusal::NoForm)),
        Err(GivenRefusal::TooShort) => None,
    }
}
