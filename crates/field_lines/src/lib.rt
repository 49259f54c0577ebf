// The lines of the fields in which two pairs of one number differ.
#![tactic(auto)]

ghost use Rattle.std.specs.Prelude.{◌≡◌, true, [], ◌∷◌, ◌<◌, ◌^◌, eqb, ◌-ℤ◌, nat_abs};
ghost use Rattle.std.proofs.Math.IntN.{sub_ℕ};
ghost use Rattle.text.specs.Output.{Put, bytes, signed};
ghost use Rattle.tle.specs.Legal.{legal};
ghost use Rattle.tle.specs.Read.{letter};
ghost use Rattle.listing.specs.Listing.{then, designator_text, scaled_text};
ghost use Rattle.roster.specs.Records.{instant_of};
ghost use Rattle.changes.specs.Entry.{sameℤ, same_class, same_designator, same_scaled, differences};
ghost use Rattle.changes.specs.Changes.{fields};
ghost use Rattle.changes_text.specs.Text.{spelled};
ghost use Rattle.field_lines.specs.Lines.{named, unless_line, shape_text, counts_text, fields_text};

use listing::{put_designator, put_scaled};
use roster::instant_of;
use text::{put_byte, put_decimal, put_signed};
use tle::{Class, Designator, Record, Scaled, legal};

// The bytes one by one. `put_bytes` of text, laid into the functions here, copies by the C library's memmove,
// which the archive does without.
pub fn put_each(out: &mut [u8], at: usize, bytes: &[u8]) -> usize
    ensures { Put out.old at bytes.now out.new result }
{
    let mut next = at;
    for &b in bytes {
        next = put_byte(out, next, b);
    }
    next
}

// The number and the label, each with a blank behind it.
fn put_name(out: &mut [u8], at: usize, number: u64, label: &[u8]) -> usize
    ensures { Put out.old at (named number label.now) out.new result }
{
    let p = put_decimal(out, at, number);
    let p = put_byte(out, p, b' ');
    let p = put_each(out, p, label);
    put_byte(out, p, b' ')
}

fn put_less(out: &mut [u8], at: usize, second: u64, first: u64) -> usize
    ensures { Put out.old at (signed (sub_ℕ second first)) out.new result }
{
    if second < first {
        let p = put_byte(out, at, b'-');
        return put_decimal(out, p, first - second);
    }
    put_decimal(out, at, second - first)
}

// A count that differs.
fn put_count(out: &mut [u8], at: usize, number: u64, label: &[u8], first: u64, second: u64) -> usize
    ensures { Put out.old at (unless_line (eqb first second) number label.now (signed (sub_ℕ second first))) out.new result }
{
    if first == second {
        return at;
    }
    let p = put_name(out, at, number, label);
    let p = put_less(out, p, second, first);
    put_byte(out, p, b'\n')
}

// A signed count that differs; the fields' limits keep the difference small.
fn put_signed_count(
    out: &mut [u8],
    at: usize,
    number: u64,
    label: &[u8],
    first: i64,
    second: i64,
) -> usize
    requires { (nat_abs first < 10 ^ 8) × (nat_abs second < 10 ^ 8) }
    ensures { Put out.old at (unless_line (sameℤ first second) number label.now (signed (second -ℤ first))) out.new result }
{
    if first == second {
        return at;
    }
    let p = put_name(out, at, number, label);
    let p = put_signed(out, p, second - first);
    put_byte(out, p, b'\n')
}

fn put_classes(out: &mut [u8], at: usize, number: u64, first: Class, second: Class) -> usize
    ensures { Put out.old at (unless_line (same_class first second) number (bytes "class") (then (letter first ∷ []) (letter second ∷ []))) out.new result }
{
    let x = first.letter();
    let y = second.letter();
    if x == y {
        return at;
    }
    let p = put_name(out, at, number, b"class");
    let p = put_byte(out, p, x);
    let p = put_byte(out, p, b' ');
    let p = put_byte(out, p, y);
    put_byte(out, p, b'\n')
}

fn same_designator(first: Designator, second: Designator) -> bool
    ensures { result ≡ same_designator first second }
{
    match first {
        Designator::Blank => match second {
            Designator::Blank => true,
            Designator::Piece { .. } => false,
        },
        Designator::Piece { launch, a, b, c } => same_piece(launch, a, b, c, second),
    }
}

fn same_piece(launch: u64, a: u8, b: u8, c: u8, second: Designator) -> bool
    ensures { result ≡ same_designator (Designator.Piece launch a b c) second }
{
    match second {
        Designator::Blank => false,
        Designator::Piece {
            launch: l,
            a: d,
            b: e,
            c: f,
        } => (launch == l) & ((a == d) & ((b == e) & (c == f))),
    }
}

fn put_designators(
    out: &mut [u8],
    at: usize,
    number: u64,
    first: Designator,
    second: Designator,
) -> usize
    ensures { Put out.old at (unless_line (same_designator first second) number (bytes "designator") (then (designator_text first) (designator_text second))) out.new result }
{
    if same_designator(first, second) {
        return at;
    }
    let p = put_name(out, at, number, b"designator");
    let p = put_designator(out, p, first);
    let p = put_byte(out, p, b' ');
    let p = put_designator(out, p, second);
    put_byte(out, p, b'\n')
}

fn same_scaled(first: Scaled, second: Scaled) -> bool
    ensures { result ≡ same_scaled first second }
{
    if first.mantissa == second.mantissa {
        return first.exponent == second.exponent;
    }
    false
}

fn put_scaleds(
    out: &mut [u8],
    at: usize,
    number: u64,
    label: &[u8],
    first: Scaled,
    second: Scaled,
) -> usize
    ensures { Put out.old at (unless_line (same_scaled first second) number label.now (then (scaled_text first) (scaled_text second))) out.new result }
{
    if same_scaled(first, second) {
        return at;
    }
    let p = put_name(out, at, number, label);
    let p = put_scaled(out, p, first);
    let p = put_byte(out, p, b' ');
    let p = put_scaled(out, p, second);
    put_byte(out, p, b'\n')
}

fn put_counts(out: &mut [u8], at: usize, n: u64, a: Record, b: Record) -> usize
    ensures { Put out.old at (counts_text n a b) out.new result }
{
    let p = put_count(out, at, n, b"type", a.ephemeris, b.ephemeris);
    let p = put_count(out, p, n, b"set", a.element, b.element);
    let p = put_count(out, p, n, b"inclination", a.inclination, b.inclination);
    let p = put_count(out, p, n, b"node", a.node, b.node);
    let p = put_count(out, p, n, b"eccentricity", a.eccentricity, b.eccentricity);
    let p = put_count(out, p, n, b"perigee", a.perigee, b.perigee);
    let p = put_count(out, p, n, b"anomaly", a.anomaly, b.anomaly);
    let p = put_count(out, p, n, b"motion", a.motion, b.motion);
    put_count(out, p, n, b"revolution", a.revolution, b.revolution)
}

// The epoch in microseconds.
fn micros_of(r: Record) -> u64
    requires { legal r ≡ true }
    ensures { result ≡ instant_of r }
{
    instant_of(r).0
}

fn put_shape(out: &mut [u8], at: usize, n: u64, a: Record, b: Record) -> usize
    requires { (legal a ≡ true) × (legal b ≡ true) }
    ensures { Put out.old at (shape_text n a b) out.new result }
{
    let class = a.class;
    let other_class = b.class;
    let designator = a.designator;
    let other_designator = b.designator;
    let nddot = a.nddot;
    let other_nddot = b.nddot;
    let bstar = a.bstar;
    let other_bstar = b.bstar;
    let since = micros_of(a);
    let until = micros_of(b);
    let p = put_classes(out, at, n, class, other_class);
    let p = put_designators(out, p, n, designator, other_designator);
    let p = put_count(out, p, n, b"epoch", since, until);
    let p = put_signed_count(out, p, n, b"ndot", a.ndot, b.ndot);
    let p = put_scaleds(out, p, n, b"nddot", nddot, other_nddot);
    put_scaleds(out, p, n, b"bstar", bstar, other_bstar)
}

fn put_legal(out: &mut [u8], at: usize, a: Record, b: Record) -> usize
    requires { (legal a ≡ true) × (legal b ≡ true) }
    ensures { Put out.old at (spelled (fields a.number (differences a b))) out.new result }
{
    let n = a.number;
    let p = put_shape(out, at, n, a, b);
    put_counts(out, p, n, a, b)
}

// The fields in which two legal records of one number differ, a line each, clipped and counted; of others
// nothing.
pub fn put_fields(out: &mut [u8], at: usize, a: Record, b: Record) -> usize
    ensures { Put out.old at (fields_text a b) out.new result }
{
    if legal(a) {
        if legal(b) {
            return put_legal(out, at, a, b);
        }
    }
    at
}
