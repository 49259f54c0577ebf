// Text, piece by piece, into a lent buffer. Each function puts its piece at a position and returns
// the next one. What lies past the buffer's end is counted and not stored, so the same code measures
// a text and writes it.
ghost use Rattle.std.specs.Prelude.{◌≡◌, [], ◌∷◌, not, ◌≤◌, ◌<◌, T, length, drop};
ghost use Rattle.std.specs.Float.Ieee.{is_nan, to_bits};
ghost use Rattle.std.specs.Float.{binary64};
ghost use Rattle.text.specs.Output.{decimal, signed, glyph, places, pattern, line, Put};

use integers::magnitude;

pub fn put_byte(out: &mut [u8], at: usize, byte: u8) -> usize
    ensures { Put out.old at (byte ∷ []) out.new result }
{
    if at < out.len() {
        out[at] = byte;
        return at + 1;
    }
    if at < usize::MAX {
        return at + 1;
    }
    at
}

pub fn put_bytes(out: &mut [u8], at: usize, bytes: &[u8]) -> usize
    ensures { Put out.old at bytes.now out.new result }
{
    let from = at.min(out.len());
    let n = bytes.len().min(out.len() - from);
    out[from..from + n].copy_from_slice(&bytes[..n]);
    at.saturating_add(bytes.len())
}

// Puts the number's digits at the end of the buffer and returns where they begin.
fn spell_decimal(n: u64, digits: &mut [u8]) -> usize
    requires { length digits.old ≡ 20 }
    ensures { (result ≤ 19) × (drop result digits.new ≡ decimal n) }
{
    let mut rest = n;
    let mut i = 20;
    while 9 < rest {
        i -= 1;
        digits[i] = b'0' + (rest % 10) as u8;
        rest = rest / 10;
    }
    i -= 1;
    digits[i] = b'0' + rest as u8;
    i
}

pub fn put_decimal(out: &mut [u8], at: usize, n: u64) -> usize
    ensures { Put out.old at (decimal n) out.new result }
{
    let mut digits = [0u8; 20];
    let i = spell_decimal(n, &mut digits);
    put_bytes(out, at, &digits[i..20])
}

pub fn put_signed(out: &mut [u8], at: usize, v: i64) -> usize
    ensures { Put out.old at (signed v) out.new result }
{
    let m = magnitude(v);
    if v < 0 {
        let p = put_byte(out, at, b'-');
        return put_decimal(out, p, m);
    }
    put_decimal(out, at, m)
}

fn digit(d: u64) -> u8
    requires { d < 16 }
    ensures { result ≡ glyph d }
{
    if d < 10 {
        return b'0' + d as u8;
    }
    87 + d as u8
}

// The last places of the number fill the buffer.
fn spell_places(n: u64, base: u64, digits: &mut [u8])
    requires { (0 < base) × (base ≤ 16) }
    ensures { digits.new ≡ places base (length digits.old) n }
{
    let mut rest = n;
    for i in (0..digits.len()).rev() {
        digits[i] = digit(rest % base);
        rest = rest / base;
    }
}

// The last N places of the number in a base, with leading zeros.
fn put_places<const N: usize>(out: &mut [u8], at: usize, base: u64, n: u64) -> usize
    requires { (0 < base) × (base ≤ 16) × (N ≤ 16) }
    ensures { Put out.old at (places base N n) out.new result }
{
    let mut digits = [0u8; N];
    spell_places(n, base, &mut digits);
    put_bytes(out, at, &digits)
}

// The last five decimal places, with leading zeros.
pub fn put_five_digits(out: &mut [u8], at: usize, n: u64) -> usize
    ensures { Put out.old at (places 10 5 n) out.new result }
{
    put_places::<5>(out, at, 10, n)
}

// The bit pattern of a number that is no NaN.
fn put_number_pattern(out: &mut [u8], at: usize, x: f64) -> usize
    requires { T (not (is_nan x)) }
    ensures { Put out.old at (pattern x) out.new result }
{
    let bits = f64::to_bits(x);
    put_places::<16>(out, at, 16, bits)
}

// The bit pattern as sixteen hexadecimal digits. All NaNs count as one.
pub fn put_pattern(out: &mut [u8], at: usize, x: f64) -> usize
    ensures { Put out.old at (pattern x) out.new result }
{
    if x == x {
        return put_number_pattern(out, at, x);
    }
    put_bytes(out, at, b"7ff8000000000000")
}

// A label, a number and a newline.
pub fn put_line(out: &mut [u8], at: usize, label: &[u8], n: u64) -> usize
    ensures { Put out.old at (line label.now (decimal n)) out.new result }
{
    let p = put_bytes(out, at, label);
    let p = put_decimal(out, p, n);
    put_byte(out, p, b'\n')
}
