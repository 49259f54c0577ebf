// The digit that a byte shows, and the checksum of bytes.

ghost use Rattle.std.specs.Prelude.{◌≡◌, length, ◌%◌, ◌≤◌};
ghost use Rattle.columns.specs.Sum.{digit_of, weight_of, sum};

// The digit that a byte shows, 0 where it is none.
pub fn digit(b: u8) -> u64
    ensures { (result ≡ digit_of b) × (result ≤ 9) }
{
    if b'0' <= b {
        if b <= b'9' {
            return (b - b'0') as u64;
        }
    }
    0
}

// What one byte of a line adds to its checksum: a digit adds itself, a minus sign adds 1, and anything
// else adds nothing.
pub fn weight(b: u8) -> u64
    ensures { (result ≡ weight_of b) × (result ≤ 9) }
{
    match b {
        b'0'..=b'9' => (b - b'0') as u64,
        b'-' => 1,
        _ => 0,
    }
}

// The sum of what the bytes add: of 7,000 bytes, at most 9 each, it fits 16 bits, and the machine can
// add several at once.
fn short_sum(s: &[u8]) -> u16
    requires { length s.now ≤ 7000 }
    ensures { result ≡ sum s.now }
{
    let mut t: u16 = 0;
    for b in s {
        t += weight(*b) as u16;
    }
    t
}

// The sum of any number of bytes, modulo 10.
fn long_checksum(s: &[u8]) -> u64
    ensures { result ≡ sum s.now % 10 }
{
    let mut t: u64 = 0;
    for b in s {
        t = (t + weight(*b)) % 10;
    }
    t
}

// The checksum digit of the bytes: the sum of what each adds, modulo 10.
pub fn checksum(s: &[u8]) -> u64
    ensures { result ≡ sum s.now % 10 }
{
    if s.len() <= 7000 {
        return (short_sum(s) % 10) as u64;
    }
    long_checksum(s)
}
